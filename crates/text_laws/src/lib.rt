//! Laws of the lines of a text.
//!
//! It promises that the lines that `line_text` reads are those that their ends part. It has no code, and stands on the definitions of `line_text`.
#![tactic(auto)]

mod laws;

pub use laws::lines_are_what_ends_part;
