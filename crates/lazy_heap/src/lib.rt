// A min-heap whose scores can be changed, in words that the caller lends: `LazyMinHeap` of docs/src/ds/lazy_heap.rs.
//
//   0                8 n + 58                           32 n + 64
//   | scores         | entries                          |
//
// `scores` is a linked hash map from a key to its score and sequence number, latest set first. `entries` is a
// binary heap of (score, sequence number, key). An update pushes a new entry and leaves the old one where it
// is: an entry is live if its score and number are those that its key holds, and stale else. Stale entries are
// discarded when they come to the top, or all at once when there are too many.
//
// An update, and a pop of each entry, takes logarithmic time; the rest is constant but for `rebuild`,
// `maybe_rebuild` and an update where they rebuild, `renumber_seqs` and an update that renumbers, `clear`,
// `check`, opening, and `count_at_most` where the first entry's score is not above the one given.
#![tactic(auto)]

mod heap;
mod layout;
mod walks;

pub use heap::LazyMinHeap;
