// The session language: lines in, answers out. Document 01, "The session program".
#![tactic(auto)]

mod answer;
mod ask;
mod lines;
mod step;

pub use lines::{Ran, run};
pub use step::Session;
