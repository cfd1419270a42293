// The recency list's calls for Rust and C, a list of them at a time. The crate `replay` says what calls and
// answers are in words.
//
//   operation  call                 operation  call
//   0          new, capacity        8          contains, key
//   1          clear                9          peek_lru
//   2          insert, key, value   10         recency_rank, key
//   3          get, key             11         len
//   4          remove, key          12         is_empty
//   5          pop_lru              13         capacity
//   6          touch, key           14         check
//   7          peek, key            other      none
//
// The numbers are those of the list's map: capacity, len, refill_in.
#![tactic(auto)]

mod layer;
mod runs;

pub use layer::fast_lru_replay;
