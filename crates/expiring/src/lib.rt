// An expiring recency cache: `Expiring<FastLru>` of docs/src/policy/expiring.rs, in words that the caller lends.
//
//   0            64 + 8 C                          128 + 8 C + 32 D
//   | values     | deadlines                       |
//
// The values stand in a recency list with room for C keys, and the deadlines in an index with room for D, each
// in a part of the words of its own. A key that is pushed out of the list keeps its deadline.
//
// Each call is handed the tick that the clock reads. It answers with the book's numbers beside its answer;
// whoever makes the next call hands these numbers in again. Any words and any numbers may be handed to any call.
// A refusal changes nothing; on words and numbers that form no book, only they may change.
//
// For a caller that keeps the numbers in words, `get`, `insert`, `insert_with_ttl`, `remove` and `set_ttl` are
// also functions that change them where they stand, and answer without them; the methods are made of these.
#![tactic(auto)]

mod answers;
mod expiring;
mod numbers;

pub use answers::Reply;
pub use expiring::Expiring;
pub use expiring::changes::{get, insert, insert_with_ttl, remove, set_ttl};
pub use numbers::{book_in, store_book, store_changed};
