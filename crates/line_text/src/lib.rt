//! Texts that are read line by line: their lines, a reader of lines with the first faulty one, fields
//! parted by single spaces, and numbers.
//!
//! It promises that each call is its definition: the lines of a text end with LF or CR LF and the last
//! may lack its end; what is read is what the lines give in order, up to the first that is refused, with
//! its number from 1. It stands on `kit_base` for the number that digits write.
#![tactic(auto)]

mod field;
mod line;
mod number;
mod reader;

pub use field::field_at;
pub use line::first_line;
pub use number::{decimal_word, hexadecimal_word, is_printable};
pub use reader::{LineErr, LineReader, LinesErr, read_lines};
