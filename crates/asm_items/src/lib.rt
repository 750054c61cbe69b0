//! Assembly text as items: what it can say, its one written form, and words taken apart into items.
//!
//! It promises that the text written is the written form of the items, and that words are taken apart
//! as the table of instructions spells them: the words of the items given are those words again. It
//! stands on the instructions of `v32_isa`.
#![tactic(auto)]

mod disassembly;
mod immediates;
mod item;
mod laws;
mod mnemonic;
mod vocabulary;
mod writing;

pub use disassembly::disassemble;
pub use immediates::{Immediates, instr_with};
pub use item::{AsmItem, Imm};
pub use laws::words_are_given_again;
pub use mnemonic::{one_name, two_name};
pub use vocabulary::{DataWord, Operation, WordKind, is_label_word, is_word_byte, word_kind};
pub use writing::write_asm;
