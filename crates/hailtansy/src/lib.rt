// The book for programs in C and Rust: each of its calls as a function on numbers and words.
//
// A book is twelve numbers and some words, both the caller's; crates/replay_expiring says which numbers, and how
// an answer stands in its four words. include/hailtansy.h declares these functions for C, and bindings/rust has
// them for Rust. Each exported name is a function of its own.
//
// Each function says 1, or 0 where it did nothing: where there are fewer than twelve numbers, or fewer than four
// words for the answer. On any others it ends and touches nothing else, whether or not they form a book.
#![tactic(auto)]

mod change;
mod look;
mod opening;
mod tell;
