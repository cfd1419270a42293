// A cache that drops the least recently used item when it is full, in words that the caller lends.
//
// The items stand in a linked hash map, newest first: an item's key is its record's key, its value the record's first
// word. The second word is free.
//
// `get`, `insert` and `touch` bring an item to the front, and a new key in a full list pushes the last one out. All
// calls take expected constant time, but for `new` and `check`, in proportion to the capacity, `clear`, to the items
// held, or to the cells that it wipes, and so to the capacity, where they are more than a thirty-second of it, and
// `recency_rank`, to the rank that it answers or to the items after it, whichever is less.
//
// A list with room for c items, at most 4,096, takes 64 + 8 c words, and leaves those beyond alone. Any words and any
// numbers may be handed to any call. Refusals 1 and 2 change nothing; on words and numbers that are no list, only they
// may change. The numbers that `default` makes, all 0, are no list's: every call refuses them.
//
// The Rust beside it: docs/src/policy/fast_lru.rs.
#![tactic(auto)]

mod lru;

pub use lru::FastLru;
