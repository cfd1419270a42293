// What a layer's calls answer, told in words.
ghost use Rattle.std.specs.Prelude.{◌≡◌, ℕ};
ghost use Rattle.replay.specs.declared.answer.Answer.{Answer};
ghost use Rattle.replay.specs.Answers as answers;
ghost use Rattle.replay.specs.Told as told;

use crate::answer::{Answer, Code};
use time::{Refusal, Tick};

// A value that an answer tells. The answer's last word is how many entries the call discarded.
pub trait Tell {
    ghost told: { Self → ℕ → Answer };

    fn tell(self, discarded: u64) -> Answer
        ensures { result ≡ told self discarded };
}

impl Tell for () {
    ghost told = { told.of_done };

    fn tell(self, discarded: u64) -> Answer {
        Answer::done(discarded)
    }
}

impl Tell for bool {
    ghost told = { answers.of_bool };

    fn tell(self, discarded: u64) -> Answer {
        let code = if self { Code::Yes } else { Code::No };
        Answer::words(code, 0, 0, discarded)
    }
}

impl Tell for u64 {
    ghost told = { answers.number };

    fn tell(self, discarded: u64) -> Answer {
        Answer::number(self, discarded)
    }
}

impl Tell for usize {
    ghost told = { answers.number };

    fn tell(self, discarded: u64) -> Answer {
        Answer::number(self as u64, discarded)
    }
}

impl Tell for Tick {
    ghost told = { told.of_tick };

    fn tell(self, discarded: u64) -> Answer {
        Answer::number(self.as_u64(), discarded)
    }
}

impl Tell for (u64, u64) {
    ghost told = { told.of_pair };

    fn tell(self, discarded: u64) -> Answer {
        Answer::pair(self.0, self.1, discarded)
    }
}

impl Tell for (u64, Tick) {
    ghost told = { told.of_due };

    fn tell(self, discarded: u64) -> Answer {
        Answer::pair(self.0, self.1.as_u64(), discarded)
    }
}

impl Tell for Refusal {
    ghost told = { told.of_refusal };

    fn tell(self, discarded: u64) -> Answer {
        Answer::refused(self.number(), discarded)
    }
}

impl<T: Tell> Tell for Option<T> {
    ghost told = { told.of_option T.told };

    fn tell(self, discarded: u64) -> Answer {
        match self {
            Some(x) => x.tell(discarded),
            None => Answer::nothing(discarded),
        }
    }
}

impl<T: Tell, E: Tell> Tell for Result<T, E> {
    ghost told = { told.of_result T.told E.told };

    fn tell(self, discarded: u64) -> Answer {
        match self {
            Ok(x) => x.tell(discarded),
            Err(why) => why.tell(discarded),
        }
    }
}

// What an opening tells: that it is done, or why it is refused.
pub fn opened<T: Drop, E: Tell>(opening: Result<T, E>) -> Answer
    ensures { result ≡ told.of_result told.of_done E.told opening 0 }
{
    match opening {
        Ok(_) => Answer::done(0),
        Err(why) => why.tell(0),
    }
}
