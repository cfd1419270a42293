// A binary min-heap of entries in words that the caller lends.
//
//   0        3        6        9
//   | root   | left   | right  | ..    three words an entry: score, sequence number, key
//
// Entry i stands at word 3 i, its parent at place (i - 1) / 2, its children at 2 i + 1 and 2 i + 2, and no
// entry is after its children. `push` climbs and `pop` sinks, one level a call, a swap with the parent or with
// a child each: their time goes with the logarithm of the length. `peek` and `entry_at` take constant time,
// `count_at_most` and `is_heap` time in proportion to it.
//
// There are at most 32,769 entries, 8 for each of 4,096 keys and one more, and no more than the words hold. Any
// words and any length may be handed to any call. Where the words are no heap, no word past the entries changes.
//
// The words and the length are lent side by side, and no struct holds both: the length is one of the numbers that
// the caller keeps from call to call, apart from the words.
#![tactic(auto)]

mod entries;
mod heap;
mod sifts;

pub use entries::Entry;
pub use heap::{count_at_most, entry_at, is_heap, peek, pop, push};
