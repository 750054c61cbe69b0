//! Assembly text to items: tokens of a line, operands, forms of instructions, lines, and the text.
//!
//! It promises exactly the items that the text spells, or its first faulty line with the class of the
//! fault. It stands on the items and the words of `asm_items`.
#![tactic(auto)]

mod datum;
mod error;
mod fault;
mod form;
mod laws;
mod line;
mod number;
mod operand;
mod reading;
mod token;
mod value;

pub use error::{AsmErr, AsmFault};
pub use laws::{
    forms_are_what_is_written, names_stand_for_what_they_name, operands_are_what_tokens_spell,
    parts_are_what_marks_part, words_and_numbers_are_runs_of_word_bytes, written_text_reads_again,
};
pub use reading::read_asm;
