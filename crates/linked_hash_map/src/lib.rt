// A map from u64 keys to records, kept in an order, in words that the caller lends.
//
//   0               5 (n + 2)          8 n + 58
//   | nodes         | cells            |
//
// With room for n records there are n + 2 nodes of five words: key, two words of payload, previous node, next node.
// Nodes 0 .. n - 1 are records. Node n closes the ring of live records, node n + 1 the ring of free ones: two circular
// lists with no special case for first, last or empty. The live ring's order is the map's.
//
// Cells find a key's record by linear probing, four cells of 16 bits to a word (crate `cells`): at most one cell in
// twelve holds a record, so that a lookup seldom goes beyond its first cell.
//
// `seek` tells a key's place, and `replace_at`, `insert_at` and `take_at` go on there: what `put` and `remove` do,
// for a caller that looks once.
//
// A call takes expected constant time, but `open` and `check` take time in proportion to n, and `clear` to the
// records held, or to the cells, which it wipes, where they are more than a thirty-second of n.
//
// Any words and any numbers may be handed to any call: a number is tested before it is an index, and every walk is
// counted. Where the capacity is above 4,096, or the words are too few for it, nothing changes, and a call answers
// `Unfit`; of those without a `Result`, `record` and `take_at` answer zeros, `set_payload` and `check` false,
// `replace_at` the item that it was given, `insert_at` and `recycle` nothing. Where the words are no map, only
// they and the numbers may change.
#![tactic(auto)]

mod check;
mod index;
mod links;
mod map;

pub use map::{LinkedHashMap, PutError, Record, Unfit};
