//! The text of mid code, for tests and for people.
//!
//! It promises that the text is exactly the written form of the code, a line for each node. It stands on mid_code, and on
//! asm_items for the names of operators.
#![tactic(auto)]

mod nodes;
mod operations;
mod pieces;
mod program;

pub use program::write_mid;
