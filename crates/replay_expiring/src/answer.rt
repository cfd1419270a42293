// The answers of the book's calls, in words.
ghost use Rattle.std.specs.Prelude.{◌≡◌};
ghost use Rattle.replay_expiring.specs.Words.{of_answer};

use expiring_model::Answer;
use replay::{Code, Tell};

// A function and no impl of `Tell`, which would have to stand where `Answer` or `Tell` does.
pub fn of_answer(answer: Answer, discarded: u64) -> replay::Answer
    ensures { result ≡ of_answer answer discarded }
{
    let status = |code| replay::Answer::words(code, 0, 0, discarded);
    match answer {
        Answer::Nothing => replay::Answer::nothing(discarded),
        Answer::Value(v) => v.tell(discarded),
        Answer::Yes => true.tell(discarded),
        Answer::No => false.tell(discarded),
        Answer::Missing => status(Code::Missing),
        Answer::Immortal => status(Code::Immortal),
        Answer::Expired => status(Code::Expired),
        Answer::Live(ttl, deadline) => {
            replay::Answer::words(Code::Live, ttl.0, deadline.0, discarded)
        }
        Answer::Count(n) => n.tell(discarded),
        Answer::Due(key, deadline) => (key, deadline).tell(discarded),
        Answer::Item(key, value) => (key, value).tell(discarded),
        Answer::Rank(n) => n.tell(discarded),
        Answer::Done => ().tell(discarded),
        Answer::Refused(why) => why.tell(discarded),
    }
}
