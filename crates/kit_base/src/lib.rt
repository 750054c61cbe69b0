//! The ground of the kit: the outside as traits (files that are read and written whole, a sink
//! for text), both held in memory, names, lists, port operations and the arithmetic of words.
//!
//! It promises what each call of the outside leaves, after an answer and after a refusal, and that
//! a refusal of the outside comes only where one of its counts rose. It stands on std alone.
#![tactic(auto)]

mod digits;
mod event;
mod failure;
mod files_in_memory;
mod joined;
mod name;
mod outside;
mod seq;
mod sink_in_memory;
mod word;

pub use digits::{digit_value, hex_digit, value_in, word_digits};
pub use event::Event;
pub use failure::Failure;
pub use files_in_memory::FilesInMemory;
pub use joined::join_pieces;
pub use name::{Memory, Name};
pub use outside::{FileErr, Files, Reads, Sink, SinkErr};
pub use seq::Seq;
pub use sink_in_memory::SinkInMemory;
pub use word::{
    div_word, is_below, mod_word, negate, shift_word, signed, word_of_bool, wrap_add, wrap_sub,
};
