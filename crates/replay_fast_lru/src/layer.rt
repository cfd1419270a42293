// The list as a layer: its numbers, and what each call does.
ghost use Rattle.replay.specs.Runs.{Replayed};
ghost use Rattle.replay_fast_lru.specs.Laws.{lru_stored, lru_past};
ghost use Rattle.replay_fast_lru.specs.Numbers.{lru_in, with_lru};
ghost use Rattle.replay_fast_lru.specs.Steps.{Ran, Single};

use crate::runs::{GET, INSERT, PEEK, TOUCH, make, run_on};
use fast_lru::FastLru;
use replay::{Answer, Call, Layer, Tell, replay};
use replay_linked_hash_map::{map_in, store_map};

struct List;

impl Layer for List {
    type Numbers = FastLru;

    const COUNT: usize = 3;

    ghost COUNT = { 3 };

    ghost numbers_in = { lru_in };

    ghost with_numbers = { with_lru };

    ghost Ran = { Ran };

    fn numbers_in(numbers: &[u64]) -> FastLru {
        let map = map_in(numbers);
        FastLru { map }
    }

    fn store_numbers(numbers: &mut [u64], lru: FastLru) {
        store_map(numbers, lru.map);
    }

    fn step(words: &mut [u64], lru: &mut FastLru, call: Call) -> Answer {
        match call.operation {
            INSERT => make::<INSERT>(words, lru, call),
            GET => make::<GET>(words, lru, call),
            TOUCH => make::<TOUCH>(words, lru, call),
            PEEK => make::<PEEK>(words, lru, call),
            _ => single(words, lru, call),
        }
    }

    fn run(words: &mut [u64], lru: &mut FastLru, calls: &[u64], answers: &mut [u64], count: usize) {
        // A turn runs one call or more, which no `for` says.
        let mut i = 0;
        while i < count {
            i = run_on(words, lru, calls, answers, i, count);
        }
    }

    ghost stored = { lru_stored };

    ghost past = { lru_past };
}

// Runs the calls on the words, and on the list's numbers. Says how many calls it ran: as many as have room for an
// answer, or none where there are fewer than three numbers. Each exported name is a function of its own.
#[unsafe(no_mangle)]
pub extern "C" fn fast_lru_replay(
    numbers: &mut [u64],
    words: &mut [u64],
    calls: &[u64],
    answers: &mut [u64],
) -> u64
    ensures { Replayed 3 lru_in Ran numbers.old words.old calls.now answers.old numbers.new words.new answers.new result }
{
    replay::<List>(numbers, words, calls, answers)
}

// A call of an operation that has no loop of its own.
pub fn single(words: &mut [u64], lru: &mut FastLru, call: Call) -> Answer
    requires { Single call.operation }
    ensures { Ran words.old lru.old call words.new lru.new result }
{
    let key = call.first;
    // Operations are numbers, as callers in C write them. The table of lib.rt names each. Those with a loop of
    // their own are told apart in runs.rt and in `step`, the others here.
    match call.operation {
        0 => {
            let opening = FastLru::new(words, key as usize);
            *lru = opening.unwrap_or_default();
            replay::opened(opening)
        }
        1 => lru.clear(words).tell(0),
        4 => lru.remove(words, key).tell(0),
        5 => lru.pop_lru(words).tell(0),
        8 => lru.contains(words, key).tell(0),
        9 => lru.peek_lru(words).tell(0),
        10 => lru.recency_rank(words, key).tell(0),
        11 => lru.len(words).tell(0),
        12 => lru.is_empty(words).tell(0),
        13 => lru.capacity(words).tell(0),
        14 => lru.check(words).tell(0),
        _ => Answer::unknown(),
    }
}
