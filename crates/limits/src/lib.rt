// What each layer refuses by its numbers alone: a limit out of range, too few words, a factor too large.
//
// Every call of a layer asks here first. The numbers are tested in the order of their refusals, 1, 2 and 5, and
// every function takes any of them.
//
//   layer            limits                            words
//   map              capacity 0..4,096                 8 capacity + 58
//   recency list     capacity 0..4,096                 8 capacity + 64
//   heap and index   keys 1..4,096                     32 keys + 64
//   book             capacity 0..4,096, keys 1..4,096  8 capacity + 32 keys + 128
#![tactic(auto)]

mod limits;

pub use limits::{book, heap, heap_with_factor, list, map};
