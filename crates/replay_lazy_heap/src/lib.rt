// The heap's calls for Rust and C, a list of them at a time. The crate `replay` says what calls and answers are
// in words.
//
//   operation  call                         operation  call
//   0          open, limit, factor, seq     9          clear
//   1          set_auto_rebuild, factor     10         auto_rebuild_factor
//   2          update, key, score           11         score_of, key
//   3          remove, key                  12         len
//   4          pop_best                     13         is_empty
//   5          peek_best                    14         heap_len
//   6          rebuild                      15         check
//   7          maybe_rebuild, factor        16         count_at_most, score
//   8          renumber_seqs                other      none
//
// The numbers are those of the map of scores (capacity, len, refill_in), and then entries, seq, factor.
#![tactic(auto)]

mod answer;
mod layer;
mod numbers;

pub use answer::{of_counted, of_discarded};
pub use layer::lazy_heap_replay;
pub use numbers::{heap_in, store_heap};
