// The model of the lazy heap: held keys in the order they were set, and the heap's entries, as mathematics.
//
// `specs/Model` has what each call makes of them and how many entries it discards; it knows nothing of words.
// `specs/Samples` has worked examples, which `proofs/Samples` shows to follow from these definitions. The code
// here is the type that answers are told in.
#![tactic(auto)]

mod counted;

pub use counted::Counted;
