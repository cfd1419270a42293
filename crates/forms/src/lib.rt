// The forms of the session language, and the parser: document 01, "The session program". A form has one text,
// and a line is read as the form whose text it is.
#![tactic(auto)]

mod form;

pub use form::{Call, Form, Lifetime, parse};
