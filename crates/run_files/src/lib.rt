//! The files of a run: lists of port answers, memory cards, and the words of frames and samples.
//!
//! It promises that what is read is what the file spells, that each refusal comes exactly where the file
//! is not of its form, with the first faulty line, and that words are written as their bytes. It stands
//! on the lines of `line_text` and the words of `asset_pack`.
#![tactic(auto)]

mod answers;
mod card;
mod laws;
mod pad_lines;
mod pads;
mod screens;

pub use answers::{AnswerErr, read_answers};
pub use card::{CardErr, read_card};
pub use laws::{
    answers_are_what_the_lines_write, answers_say_what_the_grammar_gives,
    events_say_what_the_grammar_gives, headers_say_what_the_grammar_gives,
    pads_are_what_the_lines_tell,
};
pub use pads::{PadEvent, Pads, PadsErr, read_pads};
pub use screens::{frames_header, put_words, samples_header};
