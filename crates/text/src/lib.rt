// Texts of bytes with numbers in them, read and written by pieces: a text that is known, or a number.
//
// A number is in base ten without leading zeros, and below 2^64. What a text and its numbers come to is said by a
// format, a text in which each `0` stands for a number.
//
//     format   (ttl 0 0)      text   (ttl 2 500000000)      numbers   2, 500000000
//
// So a format and its numbers have one text; reading is the way back.
#![tactic(auto)]

mod number;
mod reader;
mod writer;

pub use number::with_digit;
pub use reader::{number_after, number_between};
pub use writer::Writer;
