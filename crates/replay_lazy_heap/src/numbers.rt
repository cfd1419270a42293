// The heap's numbers in words: those of the map of scores, and three more.
// C's interface, where numbers are words: in a slice, whose length the contracts ask for.
ghost use Rattle.std.specs.Prelude.{◌≡◌, ◌≤◌, length};
ghost use Rattle.replay_lazy_heap.specs.Numbers.{heap_in, with_heap};

use lazy_heap::LazyMinHeap;

pub fn heap_in(numbers: &[u64]) -> LazyMinHeap
    requires { 6 ≤ length numbers.now }
    ensures { result ≡ heap_in numbers.now }
{
    let scores = replay_linked_hash_map::map_in(numbers);
    LazyMinHeap {
        scores,
        entries: numbers[3] as usize,
        seq: numbers[4],
        factor: numbers[5] as usize,
    }
}

pub fn store_heap(numbers: &mut [u64], heap: LazyMinHeap)
    requires { 6 ≤ length numbers.old }
    ensures { numbers.new ≡ with_heap numbers.old heap }
{
    let scores = heap.scores;
    replay_linked_hash_map::store_map(numbers, scores);
    numbers[3] = heap.entries as u64;
    numbers[4] = heap.seq;
    numbers[5] = heap.factor as u64;
}
