// A key's deadline, as the index tells it. A refusal reads as if there were none.
ghost use Rattle.std.specs.Prelude.{◌≡◌};
ghost use Rattle.expiring_answers.specs.Answers.{come_by, status_of};

use expiring_model::Answer;
use time::{Refusal, Tick};

// Whether a key's deadline, if it has one, has come.
pub fn has_come(deadline: Result<Option<Tick>, Refusal>, tick: Tick) -> bool
    ensures { result ≡ come_by deadline tick }
{
    deadline
        .unwrap_or(None)
        .is_some_and(|d| d.is_expired_at(tick))
}

// The answer of `ttl_status` for a stored key.
pub fn status_of(deadline: Result<Option<Tick>, Refusal>, tick: Tick) -> Answer
    ensures { result ≡ status_of deadline tick }
{
    match deadline.unwrap_or(None) {
        None => Answer::Immortal,
        Some(d) => match d.remaining_at(tick) {
            None => Answer::Expired,
            Some(ttl) => Answer::Live(ttl, d),
        },
    }
}
