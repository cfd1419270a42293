// The plain book of the scope document: what an expiring cache is to answer, as mathematics.
//
// `specs/Model` has its state, its calls, and for each call the answer and the next state; it knows nothing of
// words. `specs/Discards` has how many entries of the heap a call discards, `specs/Lists` lists of calls, and
// `specs/Samples` the scope document's samples, which `proofs/Samples` shows to follow from these definitions. The
// code here is the type of the answers.
#![tactic(auto)]

mod answers;

pub use answers::Answer;
