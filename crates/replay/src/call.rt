// Calls and answers in slices, four words each.
// By index, as the words are C's and contracts speak of the i-th call: chunks of an iterator are no plainer here.
// Room is a contract's fact, as the memory is fixed: the slices are the caller's.
ghost use Rattle.std.specs.Prelude.{◌≡◌, ◌+◌, ◌*◌, ◌/◌, ◌≤◌, length};
ghost use Rattle.replay.specs.Runs.{call_at, with_answer, room_in};

use crate::answer::Answer;

#[derive(Clone, Copy)]
pub struct Call {
    // A number and no enum: it comes from a caller in C, of which any may come.
    pub operation: u64,
    pub first: u64,
    pub second: u64,
    pub third: u64,
}

// How many calls of so many words there are with room for an answer.
pub fn room<const WORDS: usize>(calls: &[u64], answers: &[u64]) -> usize
    ensures { result ≡ room_in WORDS calls.now answers.now }
{
    let made = calls.len().checked_div(WORDS).unwrap_or(0);
    made.min(answers.len() / 4)
}

// The i-th call, counted from 0.
pub fn call_at(calls: &[u64], i: usize) -> Call
    requires { 4 * i + 4 ≤ length calls.now }
    ensures { result ≡ call_at calls.now i }
{
    Call {
        operation: calls[4 * i],
        first: calls[4 * i + 1],
        second: calls[4 * i + 2],
        third: calls[4 * i + 3],
    }
}

// Writes the i-th answer.
#[tactic(auto, unfolding(crate::specs::Runs::with_answer))]
pub fn store_answer(answers: &mut [u64], i: usize, answer: Answer)
    requires { 4 * i + 4 ≤ length answers.old }
    ensures { answers.new ≡ with_answer answers.old i answer }
{
    answers[4 * i] = answer.code;
    answers[4 * i + 1] = answer.first;
    answers[4 * i + 2] = answer.second;
    answers[4 * i + 3] = answer.third;
}
