// The answers of calls that may discard entries, in words. (No impl of `Tell`: it would have to stand with that
// trait or with `Counted`, and then `replay` would stand on the layers that it replays, or these on `replay`.)
ghost use Rattle.std.specs.Prelude.{◌≡◌};
ghost use Rattle.replay_lazy_heap.specs.Answers.{of_counted, of_discarded};

use lazy_heap_model::Counted;
use replay::{Answer, Tell};
use time::Refusal;

pub fn of_counted<T: Tell>(counted: Result<Counted<T>, Refusal>) -> Answer
    ensures { result ≡ of_counted T.told counted }
{
    match counted {
        Ok(told) => told.answer.tell(told.discarded as u64),
        Err(why) => why.tell(0),
    }
}

// The answer of a call that says only how many entries it discarded.
pub fn of_discarded(discarded: Result<usize, Refusal>) -> Answer
    ensures { result ≡ of_discarded discarded }
{
    match discarded {
        Ok(count) => Answer::done(count as u64),
        Err(why) => why.tell(0),
    }
}
