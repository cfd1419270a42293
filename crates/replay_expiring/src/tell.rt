// A reply of the book, told to the caller.
ghost use Rattle.std.specs.Prelude.{◌≡◌, ◌+◌, ◌*◌, ◌≤◌, length};
ghost use Rattle.replay.specs.Runs.{with_answer};
ghost use Rattle.expiring.specs.Numbers.{with_changed};
ghost use Rattle.replay_expiring.specs.Words.{of_answer};
ghost use Rattle.replay_expiring.specs.Runs.{of_reply};

use crate::answer;
use expiring::Reply;
use expiring_model::Answer;
use lazy_heap_model::Counted;

// Writes what a call on the numbers themselves said as the i-th answer.
pub fn store_said(answers: &mut [u64], i: usize, said: Counted<Answer>)
    requires { 4 * i + 4 ≤ length answers.old }
    ensures { answers.new ≡ with_answer answers.old i (of_answer said.answer said.discarded) }
{
    let told = answer::of_answer(said.answer, said.discarded as u64);
    replay::store_answer(answers, i, told);
}

// The same, of a call that hands the book's numbers back.
pub fn store_answer(answers: &mut [u64], i: usize, reply: Reply)
    requires { 4 * i + 4 ≤ length answers.old }
    ensures { answers.new ≡ with_answer answers.old i (of_reply reply) }
{
    let said = Counted {
        answer: reply.answer,
        discarded: reply.discarded,
    };
    store_said(answers, i, said);
}

// Writes the numbers that a call may change, and the answer as the i-th.
// Twelve numbers by a contract: `expiring` is lent a slice, so an array would be lent as one again.
pub fn store_reply(numbers: &mut [u64], answers: &mut [u64], i: usize, reply: Reply)
    requires { (12 ≤ length numbers.old) × (4 * i + 4 ≤ length answers.old) }
    ensures { (numbers.new ≡ with_changed numbers.old reply.book) × (answers.new ≡ with_answer answers.old i (of_reply reply)) }
{
    expiring::store_changed(numbers, reply.book);
    store_answer(answers, i, reply);
}
