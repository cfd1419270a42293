// The heap as a layer: its numbers, and what each call does.
ghost use Rattle.replay.specs.Runs.{Replayed};
ghost use Rattle.replay_lazy_heap.specs.Laws.{heap_stored, heap_past};
ghost use Rattle.replay_lazy_heap.specs.Numbers.{heap_in, with_heap};
ghost use Rattle.replay_lazy_heap.specs.Steps.{Ran};

use crate::answer::{of_counted, of_discarded};
use crate::numbers;
use lazy_heap::LazyMinHeap;
use replay::{Answer, Call, Layer, Tell, replay};

struct Heap;

impl Layer for Heap {
    type Numbers = LazyMinHeap;

    const COUNT: usize = 6;

    ghost COUNT = { 6 };

    ghost numbers_in = { heap_in };

    ghost with_numbers = { with_heap };

    ghost Ran = { Ran };

    fn numbers_in(numbers: &[u64]) -> LazyMinHeap {
        numbers::heap_in(numbers)
    }

    fn store_numbers(numbers: &mut [u64], heap: LazyMinHeap) {
        numbers::store_heap(numbers, heap);
    }

    fn step(words: &mut [u64], heap: &mut LazyMinHeap, call: Call) -> Answer {
        let first = call.first;
        let second = call.second;
        // Operations are numbers, as callers in C write them. The table of lib.rt names each, and only here is
        // one told from another.
        match call.operation {
            0 => {
                let opening = LazyMinHeap::open(words, first as usize, second as usize, call.third);
                *heap = opening.unwrap_or_default();
                replay::opened(opening)
            }
            1 => heap.set_auto_rebuild(words, first as usize).tell(0),
            2 => of_counted(heap.update(words, first, second)),
            3 => of_counted(heap.remove(words, first)),
            4 => of_counted(heap.pop_best(words)),
            5 => of_counted(heap.peek_best(words)),
            6 => of_discarded(heap.rebuild(words)),
            7 => of_discarded(heap.maybe_rebuild(words, first as usize)),
            8 => of_discarded(heap.renumber_seqs(words)),
            9 => of_discarded(heap.clear(words)),
            10 => heap.auto_rebuild_factor(words).tell(0),
            11 => heap.score_of(words, first).tell(0),
            12 => heap.len(words).tell(0),
            13 => heap.is_empty(words).tell(0),
            14 => heap.heap_len(words).tell(0),
            15 => heap.check(words).tell(0),
            16 => heap.count_at_most(words, first).tell(0),
            _ => Answer::unknown(),
        }
    }

    ghost stored = { heap_stored };

    ghost past = { heap_past };
}

// Runs the calls on the words, and on the heap's numbers. Says how many calls it ran: as many as have room for
// an answer, or none where there are fewer than six numbers. (A function of its own, since `replay_lazy_heap_c`
// exports its name.)
pub fn lazy_heap_replay(
    numbers: &mut [u64],
    words: &mut [u64],
    calls: &[u64],
    answers: &mut [u64],
) -> u64
    ensures { Replayed 6 heap_in Ran numbers.old words.old calls.now answers.old numbers.new words.new answers.new result }
{
    replay::<Heap>(numbers, words, calls, answers)
}
