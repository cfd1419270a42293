// The heap's calls. They answer no `Result`, since they never fail: where the words do not fit, `push` and
// `is_heap` answer false, `peek` and `pop` nothing, `entry_at` zeros, and `count_at_most` 0.
ghost use Rattle.std.specs.Prelude.{◌≡◌, ◌+◌};
ghost use Rattle.binary_heap.specs.Heap.{fit};
ghost use Rattle.binary_heap.specs.Calls.{Pushing, Peeking, Popping, Reading, Counting, Checking};

use crate::entries::Entry;
use crate::{entries, sifts};

const MAX_ENTRIES: usize = 32769;

// Whether len entries are within the limit and in the words.
#[tactic(auto, unfolding(crate::specs::Heap::fit))]
fn in_limits(len: usize, size: usize) -> bool
    ensures { result ≡ fit len size }
{
    len <= MAX_ENTRIES && 3 * len <= size
}

// The same of one more.
#[tactic(auto, unfolding(crate::specs::Heap::fit))]
fn can_grow(len: usize, size: usize) -> bool
    ensures { result ≡ fit (len + 1) size }
{
    len < MAX_ENTRIES && in_limits(len + 1, size)
}

// Puts an entry into the heap. False where it finds no room, and then nothing changes.
#[tactic(auto, using(crate::proofs::Limits::is_room, crate::proofs::Pushing::pushing_refused))]
pub fn push(words: &mut [u64], len: &mut usize, entry: Entry) -> bool
    ensures { Pushing words.old len.old entry words.new len.new result }
{
    let last = *len;
    if !can_grow(last, words.len()) {
        return false;
    }
    entries::put(words, last, entry);
    sifts::sift_up(words, last);
    *len = last + 1;
    true
}

// The least entry, which stays.
#[tactic(auto, using(crate::proofs::Root::peeking))]
pub fn peek(words: &[u64], len: usize) -> Option<Entry>
    ensures { Peeking words.now len result }
{
    if !in_limits(len, words.len()) || len == 0 {
        return None;
    }
    Some(entries::get(words, 0))
}

// Takes the least entry out: the last one takes its place and sinks.
pub fn pop(words: &mut [u64], len: &mut usize) -> Option<Entry>
    ensures { Popping words.old len.old words.new len.new result }
{
    let root = peek(words, *len)?;
    let last = *len - 1;
    let moved = entries::get(words, last);
    entries::put(words, 0, moved);
    sifts::sift_down(words, last, 0);
    *len = last;
    Some(root)
}

// Entry i in the order of the words; zeros where there is none.
#[tactic(auto, using(crate::proofs::Limits::is_room))]
pub fn entry_at(words: &[u64], len: usize, i: usize) -> Entry
    ensures { Reading words.now len i result }
{
    if !in_limits(len, words.len()) || len <= i {
        return Entry::default();
    }
    entries::get(words, i)
}

// How many entries have at most this score; 0 where the limits are not met.
#[tactic(auto, using(crate::proofs::Counting::counting))]
pub fn count_at_most(words: &[u64], len: usize, score: u64) -> usize
    ensures { Counting words.now len score result }
{
    if !in_limits(len, words.len()) {
        return 0;
    }
    let mut n = 0;
    for i in 0..len {
        n += entries::is_within(words, i, score) as usize;
    }
    n
}

// Whether the words hold a heap of len entries.
#[tactic(auto, using(crate::proofs::Checking::checking))]
pub fn is_heap(words: &[u64], len: usize) -> bool
    ensures { Checking words.now len result }
{
    if !in_limits(len, words.len()) {
        return false;
    }
    for i in 1..len {
        if !entries::in_order(words, (i - 1) / 2, i) {
            return false;
        }
    }
    true
}
