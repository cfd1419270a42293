// The index as a layer: its numbers, and what each call does.
ghost use Rattle.replay.specs.Runs.{Replayed};
ghost use Rattle.replay_expiration_index.specs.Laws.{index_stored, index_past};
ghost use Rattle.replay_expiration_index.specs.Numbers.{index_in, with_index};
ghost use Rattle.replay_expiration_index.specs.Steps.{Ran};

use expiration_index::ExpirationIndex;
use replay::{Answer, Call, Layer, Tell, replay};
use replay_lazy_heap::{heap_in, of_counted, of_discarded, store_heap};
use time::Tick;

struct Index;

impl Layer for Index {
    type Numbers = ExpirationIndex;

    const COUNT: usize = 6;

    ghost COUNT = { 6 };

    ghost numbers_in = { index_in };

    ghost with_numbers = { with_index };

    ghost Ran = { Ran };

    fn numbers_in(numbers: &[u64]) -> ExpirationIndex {
        let heap = heap_in(numbers);
        ExpirationIndex { heap }
    }

    fn store_numbers(numbers: &mut [u64], index: ExpirationIndex) {
        store_heap(numbers, index.heap);
    }

    fn step(words: &mut [u64], index: &mut ExpirationIndex, call: Call) -> Answer {
        let first = call.first;
        let second = call.second;
        // Operations are numbers, as callers in C write them. The table of lib.rt names each, and only here is one
        // told from another.
        match call.operation {
            0 => {
                let opening = ExpirationIndex::open(words, first as usize, second);
                *index = opening.unwrap_or_default();
                replay::opened(opening)
            }
            1 => of_discarded(index.clear(words)),
            2 => of_counted(index.set_deadline(words, first, Tick(second))),
            3 => of_counted(index.remove(words, first)),
            4 => of_counted(index.next_deadline(words)),
            5 => of_counted(index.pop_expired(words, Tick(first))),
            6 => index.deadline_of(words, first).tell(0),
            7 => index.contains(words, first).tell(0),
            8 => index.expired_count(words, Tick(first)).tell(0),
            9 => index.len(words).tell(0),
            10 => index.is_empty(words).tell(0),
            11 => index.heap_len(words).tell(0),
            12 => index.check(words).tell(0),
            _ => Answer::unknown(),
        }
    }

    ghost stored = { index_stored };

    ghost past = { index_past };
}

// Runs the calls on the words, and on the index's numbers. Says how many calls it ran: as many as have room for an
// answer, or none where there are fewer than six numbers. Each exported name is a function of its own.
#[unsafe(no_mangle)]
pub extern "C" fn expiration_index_replay(
    numbers: &mut [u64],
    words: &mut [u64],
    calls: &[u64],
    answers: &mut [u64],
) -> u64
    ensures { Replayed 6 index_in Ran numbers.old words.old calls.now answers.old numbers.new words.new answers.new result }
{
    replay::<Index>(numbers, words, calls, answers)
}
