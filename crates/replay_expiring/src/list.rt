// A list of calls.
ghost use Rattle.std.specs.Prelude.{◌*◌, ◌≤◌, length};
ghost use Rattle.replay_expiring.specs.Runs.{Run, Ended, Replayed};

use crate::{call, turn};
use replay::room;

// How many there are.
const OPERATIONS: u64 = 17;

// Runs the calls on the words, and on the book's numbers. Says how many calls it ran: as many as have room for an
// answer and come before the first that is none, or 0 where there are fewer than twelve numbers.
pub fn expiring_replay(
    numbers: &mut [u64],
    words: &mut [u64],
    calls: &[u64],
    answers: &mut [u64],
) -> u64
    ensures { Replayed numbers.old words.old calls.now answers.old numbers.new words.new answers.new result }
{
    if numbers.len() < 12 {
        return 0;
    }
    let room = room::<6>(calls, answers);
    run(numbers, words, calls, answers, room) as u64
}

// Twelve numbers by a contract: `expiring` is lent a slice, so an array would be lent as one again.
fn run(
    numbers: &mut [u64],
    words: &mut [u64],
    calls: &[u64],
    answers: &mut [u64],
    room: usize,
) -> usize
    requires { (12 ≤ length numbers.old) × (6 * room ≤ length calls.now) × (4 * room ≤ length answers.old) }
    ensures { Ended calls.now room result × Run calls.now numbers.old words.old answers.old result numbers.new words.new answers.new }
{
    for i in 0..room {
        let operation = call::operation_at(calls, i);
        // A comparison, as the number comes from outside: any may come.
        if OPERATIONS <= operation {
            return i;
        }
        turn::turn(numbers, words, operation, calls, answers, i);
    }
    room
}
