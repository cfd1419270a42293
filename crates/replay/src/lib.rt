// Lists of calls in words, and their answers in words: what all layers' replays have in common.
//
// A call is four words: an operation and three arguments. An answer is four words: a code, and three that depend
// on it. The last of them is how many entries the call discarded, but where a record takes all three.
//
//   code  answer               its words
//   0     no                   0, 0, discarded
//   1     yes                  0, 0, discarded
//   2     nothing is there     0, 0, discarded
//   3     a number             it, 0, discarded
//   4     a pair               both, discarded
//   5     a record             its key and its two words of payload
//   6     inserted             0, 0, 0
//   7     replaced a record    that record
//   8     full                 0, 0, 0
//   9     done                 0, 0, discarded
//   10    refused              the refusal's number, or 0 where it has none, 0, discarded
//   11    no such operation    0, 0, 0
//   12    missing              0, 0, discarded
//   13    immortal             0, 0, discarded
//   14    expired              0, 0, discarded
//   15    live                 ticks that remain, deadline, discarded
//
// A layer gives its numbers in words and what one call does (`Layer`), and what a call returns is told by its type
// (`Tell`). The list of calls, `replay`, is one for all of them.
#![tactic(auto)]

mod answer;
mod call;
mod layer;
mod tell;

pub use answer::{Answer, Code};
pub use call::{Call, call_at, room, store_answer};
pub use layer::{Layer, replay};
pub use tell::{Tell, opened};
