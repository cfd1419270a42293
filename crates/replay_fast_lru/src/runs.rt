// Calls of one operation, one after the other. The loop tells no operations apart, and what depends on the numbers
// alone is worked out once, not at each call: a lookup takes two thirds of the time. The operations that are
// asked for most have such a loop.
ghost use Rattle.std.specs.Prelude.{◌≡◌, ◌*◌, ◌<◌, ◌≤◌, length};
ghost use Rattle.replay.specs.Runs.{call_at};
ghost use Rattle.replay_fast_lru.specs.Steps.{Ran, Onward};

use crate::layer::single;
use fast_lru::FastLru;
use replay::{Answer, Call, Tell, call_at, store_answer};

// The operations that have a loop of their own. C's numbers, and a const parameter takes no enum.
pub const INSERT: u64 = 2;

pub const GET: u64 = 3;

pub const TOUCH: u64 = 6;

pub const PEEK: u64 = 7;

// Runs a call, and where it is of an operation that has a loop of its own, those after it that are too. Says which
// call is the next.
pub fn run_on(
    words: &mut [u64],
    lru: &mut FastLru,
    calls: &[u64],
    answers: &mut [u64],
    from: usize,
    count: usize,
) -> usize
    requires { (4 * count ≤ length calls.now) × (4 * count ≤ length answers.old) × (from < count) }
    ensures { Onward calls.now from count words.old lru.old answers.old result words.new lru.new answers.new × (from < result) }
{
    let call = call_at(calls, from);
    match call.operation {
        INSERT => alike::<INSERT>(words, lru, calls, answers, from, count),
        GET => alike::<GET>(words, lru, calls, answers, from, count),
        TOUCH => alike::<TOUCH>(words, lru, calls, answers, from, count),
        PEEK => alike::<PEEK>(words, lru, calls, answers, from, count),
        _ => {
            let answer = single(words, lru, call);
            store_answer(answers, from, answer);
            from + 1
        }
    }
}

// Runs the calls from one on while they are of the operation. The numbers are the loop's own, so that they need
// not be in memory.
fn alike<const OPERATION: u64>(
    words: &mut [u64],
    lru: &mut FastLru,
    calls: &[u64],
    answers: &mut [u64],
    from: usize,
    count: usize,
) -> usize
    requires { (4 * count ≤ length calls.now) × (4 * count ≤ length answers.old) × (from < count) }
    ensures { Onward calls.now from count words.old lru.old answers.old result words.new lru.new answers.new × ((call_at calls.now from).operation ≡ OPERATION → from < result) }
{
    let mut list = *lru;
    let mut next = count;
    for i in from..count {
        let call = call_at(calls, i);
        if call.operation != OPERATION {
            next = i;
            break;
        }
        let answer = make::<OPERATION>(words, &mut list, call);
        store_answer(answers, i, answer);
    }
    *lru = list;
    next
}

// A call of the operation. The test is of a constant, so that each loop calls one function, and where nothing else
// calls that it is taken in.
pub fn make<const OPERATION: u64>(words: &mut [u64], lru: &mut FastLru, call: Call) -> Answer
    requires { call.operation ≡ OPERATION }
    ensures { Ran words.old lru.old call words.new lru.new result }
{
    let key = call.first;
    match OPERATION {
        INSERT => lru.insert(words, key, call.second).tell(0),
        GET => lru.get(words, key).tell(0),
        TOUCH => lru.touch(words, key).tell(0),
        PEEK => lru.peek(words, key).tell(0),
        _ => single(words, lru, call),
    }
}
