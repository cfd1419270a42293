// The book's numbers in words, as a caller in C keeps them: twelve, in the order of the structs. A call that is
// handed them in words changes those that change where they stand, while a struct that a call takes or answers is
// copied in memory, and its reader waits for the copy.
ghost use Rattle.std.specs.Prelude.{◌≡◌, ◌≤◌, length};
ghost use Rattle.expiring.specs.Numbers.{lru_in, index_in, book_in, with_lru, with_deadlines, with_held, with_changed, with_book};

use crate::expiring::Expiring;
use expiration_index::ExpirationIndex;
use fast_lru::FastLru;
use lazy_heap::LazyMinHeap;
use linked_hash_map::LinkedHashMap;
use time::TtlTicks;

pub(crate) fn list_in(numbers: &[u64; 12]) -> FastLru
    ensures { result ≡ lru_in numbers.now }
{
    FastLru {
        map: LinkedHashMap {
            capacity: numbers[0] as usize,
            len: numbers[1] as usize,
            refill_in: numbers[2] as usize,
        },
    }
}

pub(crate) fn index_in(numbers: &[u64; 12]) -> ExpirationIndex
    ensures { result ≡ index_in numbers.now }
{
    ExpirationIndex {
        heap: LazyMinHeap {
            scores: LinkedHashMap {
                capacity: numbers[3] as usize,
                len: numbers[4] as usize,
                refill_in: numbers[5] as usize,
            },
            entries: numbers[6] as usize,
            seq: numbers[7],
            factor: numbers[8] as usize,
        },
    }
}

// A caller of this crate hands over a slice, of twelve or more: an array would ask more of it. So `book_in`,
// `store_changed` and `store_book` take a slice.
pub fn book_in(numbers: &[u64]) -> Expiring
    requires { 12 ≤ length numbers.now }
    ensures { result ≡ book_in numbers.now }
{
    let numbers = numbers.first_chunk().unwrap();
    let inner = list_in(numbers);
    let index = index_in(numbers);
    let is_given = numbers[9] != 0;
    Expiring {
        inner,
        index,
        default_ttl: is_given.then_some(TtlTicks(numbers[10])),
        expirations: numbers[11],
    }
}

// The numbers of the list that a call may change.
#[tactic(auto, unfolding(crate::specs::Numbers::with_lru))]
pub(crate) fn store_list(numbers: &mut [u64; 12], inner: FastLru)
    ensures { numbers.new ≡ with_lru numbers.old inner }
{
    let map = inner.map;
    numbers[1] = map.len as u64;
    numbers[2] = map.refill_in as u64;
}

// And those of the index.
#[tactic(auto, unfolding(crate::specs::Numbers::with_deadlines))]
pub(crate) fn store_index(numbers: &mut [u64; 12], index: ExpirationIndex)
    ensures { numbers.new ≡ with_deadlines numbers.old index }
{
    let heap = index.heap;
    let scores = heap.scores;
    numbers[4] = scores.len as u64;
    numbers[5] = scores.refill_in as u64;
    numbers[6] = heap.entries as u64;
    numbers[7] = heap.seq;
    numbers[8] = heap.factor as u64;
}

// How many deadlines are held: all that a removal changes of the index's numbers.
#[tactic(auto, unfolding(crate::specs::Numbers::with_held))]
pub(crate) fn store_held(numbers: &mut [u64; 12], index: ExpirationIndex)
    ensures { numbers.new ≡ with_held numbers.old index }
{
    numbers[4] = index.heap.scores.len as u64;
}

// All that a call may change: neither the limits nor the default lifetime. A number that is stored makes the next
// call wait for it.
#[tactic(auto, unfolding(crate::specs::Numbers::with_changed))]
pub fn store_changed(numbers: &mut [u64], book: Expiring)
    requires { 12 ≤ length numbers.old }
    ensures { numbers.new ≡ with_changed numbers.old book }
{
    let numbers = numbers.first_chunk_mut().unwrap();
    store_list(numbers, book.inner);
    store_index(numbers, book.index);
    numbers[11] = book.expirations;
}

pub fn store_book(numbers: &mut [u64], book: Expiring)
    requires { 12 ≤ length numbers.old }
    ensures { numbers.new ≡ with_book numbers.old book }
{
    let default_ttl = book.default_ttl;
    numbers[0] = book.inner.map.capacity as u64;
    numbers[3] = book.index.heap.scores.capacity as u64;
    numbers[9] = default_ttl.is_some() as u64;
    numbers[10] = default_ttl.unwrap_or(TtlTicks(0)).0;
    store_changed(numbers, book);
}
