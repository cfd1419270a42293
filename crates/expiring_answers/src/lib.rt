// What the book makes of the answers of its layers, the list `fast_lru` and the index `expiration_index`. On a book
// none of these is a refusal; elsewhere one reads as if there were nothing.
#![tactic(auto)]

mod answers;
mod deadlines;

pub use answers::{of_due, of_found, of_oldest, of_rank, of_told};
pub use deadlines::{has_come, status_of};
