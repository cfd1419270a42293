// The book's calls for Rust and C: an opening, the check, and a list of calls at a time.
//
// A call is six words: operation, tick, key, value, seconds, nanoseconds.
//
//   operation  call                                   operation  call
//   0          insert, key, value                     9          pop_lru
//   1          insert_with_ttl, key, value, duration  10         contains, key
//   2          get, key                               11         peek, key
//   3          remove, key                            12         ttl_status, key
//   4          clear                                  13         recency_rank, key
//   5          set_ttl, key, duration                 14         live_len
//   6          purge_expired                          15         expirations
//   7          next_deadline                          16         peek_lru
//   8          touch, key
//
// Any other number is no call, and ends the list. A word of nanoseconds beyond 32 bits is taken for the largest of
// 32 bits, which is no duration either, so that it is refused as one.
//
// An opening is six words too: capacity, limit of deadlines, first sequence number, 0 for no default lifetime, and
// its seconds and nanoseconds.
//
// An answer is four words, as the crate `replay` says, of which the last is how many entries of the heap were
// discarded. A value, a count and a rank are a number; the next due (key, deadline) and an item are a pair.
//
// The numbers are the list's (capacity, len, refill_in), the index's (limit, len and refill_in of its map,
// entries, seq, factor), 1 for a default lifetime and 0 for none, its ticks, and the expirations. Any number but
// 0 is read as 1, and the ticks of none as 0. Operations 0 to 9, which may change the book, store its numbers
// but for capacity, limit and default lifetime, which no call changes. The others look, and leave all numbers as
// they are. How an answer is written is public, for functions of a single call.
#![tactic(auto)]

mod answer;
mod book;
mod call;
mod list;
mod tell;
mod turn;

pub use book::{expiring_check, expiring_open};
pub use list::expiring_replay;
pub use tell::{store_answer, store_said};
