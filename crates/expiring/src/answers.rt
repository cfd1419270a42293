use crate::expiring::Expiring;
use expiring_model::Answer;

// The book's numbers after a call, its answer, and how many entries of the heap it discarded. A rule of the
// project has the book's calls take the numbers by value and answer with new ones, so that a caller still has
// the old.
#[derive(Clone, Copy)]
pub struct Reply {
    pub book: Expiring,
    pub answer: Answer,
    pub discarded: usize,
}
