// The map's calls for Rust and C, a list of them at a time. The crate `replay` says what calls and answers are
// in words.
//
//   operation  call                        operation  call
//   0          open, capacity              7          record, slot
//   1          clear                       8          first
//   2          touch, key                  9          last
//   3          set_payload, record         10         next, slot
//   4          put, record                 11         previous, slot
//   5          remove, key                 12         check
//   6          find, key                   other      none
//
// The numbers are capacity, len, refill_in.
#![tactic(auto)]

mod answer;
mod layer;
mod numbers;

pub use layer::linked_hash_map_replay;
pub use numbers::{map_in, store_map};
