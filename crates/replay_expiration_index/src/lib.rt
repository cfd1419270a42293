// The index's calls for Rust and C, a list of them at a time. The crate `replay` says what calls and answers are
// in words.
//
//   operation  call                         operation  call
//   0          open, limit, seq             7          contains, key
//   1          clear                        8          expired_count, tick
//   2          set_deadline, key, deadline  9          len
//   3          remove, key                  10         is_empty
//   4          next_deadline                11         heap_len
//   5          pop_expired, tick            12         check
//   6          deadline_of, key             other      none
//
// The numbers are those of the heap: capacity, len and refill_in of its map of scores, then entries, seq, factor.
#![tactic(auto)]

mod layer;

pub use layer::expiration_index_replay;
