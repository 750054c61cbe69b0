//! Placed code as items of assembly text: the emitter.
//!
//! It promises that the words that the items are placed as do what the code means, in at most as many steps as its work and 64; that no label
//! stands twice and none is missing; where the functions, the globals and the literals stand; how many words there are; and that code without
//! loops only goes on. It stands on the laws of `asm_laws`.
#![tactic(auto)]

mod accesses;
mod ahead;
mod asks;
mod calls;
mod copies;
mod framing;
mod hands;
mod leading;
mod live;
mod moving;
mod names;
mod nodes;
mod operations;
mod pieces;
mod program;
mod results;
mod scope;
mod spare;
mod words;

pub use program::emit;
