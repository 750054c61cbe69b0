//! The image of a program: its words, by way of assembly items, with its map and the line table of its cartridge.
//!
//! It promises that the written form of the items that the compiler made of the program reads as them, that the words are those that these
//! items are placed as, and that the map and the table tell of these words: where functions and globals stand, how large frames are, and at
//! which line of which file each function is defined. Functions stand in their order, each with an instruction behind its label. It stands on
//! the compiler, the assembler, and the forms of maps and cartridges.
#![tactic(auto)]

mod assembling;
mod imaging;
mod laws;
mod lines;
mod mapping;
mod naming;

pub use imaging::{Image, image_of};
pub use laws::functions_stand_at_instructions;
