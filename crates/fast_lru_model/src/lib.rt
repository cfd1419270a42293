// The model of the recency list: its items, newest first, as mathematics.
//
// `specs/Model` has what each call makes of them and answers; it knows nothing of words. `specs/Samples` has
// worked examples, the scope document's among them, which `proofs/Samples` shows to follow from these definitions.
#![tactic(auto)]
