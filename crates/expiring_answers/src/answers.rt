// The list's answers, and the next due. A layer's refusal reads as if there were nothing.
// Four are alike but for the variant that they make. A trait for them would be no plainer.
ghost use Rattle.std.specs.Prelude.{◌≡◌};
ghost use Rattle.expiring_answers.specs.Answers.{of_found, of_told, of_oldest, of_rank, of_due};

use expiring_model::Answer;
use time::{Refusal, Tick};

pub fn of_found(found: Result<Option<u64>, Refusal>) -> Answer
    ensures { result ≡ of_found found }
{
    found.unwrap_or(None).map_or(Answer::Nothing, Answer::Value)
}

pub fn of_told(told: Result<bool, Refusal>) -> Answer
    ensures { result ≡ of_told told }
{
    if told.unwrap_or(false) {
        Answer::Yes
    } else {
        Answer::No
    }
}

pub fn of_oldest(oldest: Result<Option<(u64, u64)>, Refusal>) -> Answer
    ensures { result ≡ of_oldest oldest }
{
    oldest
        .unwrap_or(None)
        .map_or(Answer::Nothing, |(key, value)| Answer::Item(key, value))
}

pub fn of_rank(rank: Result<Option<usize>, Refusal>) -> Answer
    ensures { result ≡ of_rank rank }
{
    rank.unwrap_or(None)
        .map_or(Answer::Nothing, |n| Answer::Rank(n as u64))
}

pub fn of_due(due: Result<Option<(u64, Tick)>, Refusal>) -> Answer
    ensures { result ≡ of_due due }
{
    due.unwrap_or(None).map_or(
        Answer::Nothing,
        |(key, deadline)| Answer::Due(key, deadline),
    )
}
