//! The assembler: items of assembly text to the words that they spell.
//!
//! It promises the words of the items one after another, each label being the address of the item
//! after it, or the first fault. It stands on the items of `asm_items`.
#![tactic(auto)]

mod assembling;
mod labels;
mod laws;
mod naming;
mod parts;
mod placement;
mod resolving;
mod sizes;
mod survey;
mod texts;

pub use asm_reader::{AsmErr, AsmFault, read_asm};
pub use assembling::assemble;
pub use labels::Labels;
pub use laws::{
    disassembly_assembles_again, labels_are_addresses, words_assemble_again,
    words_stand_at_the_sizes_before,
};
pub use placement::Placement;
pub use texts::assemble_text;
