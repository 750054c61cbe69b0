//! The compiler: from a typed program to assembly items, by all passes in their order.
//!
//! It promises that the words that the items are placed as do what the program means, for every bound, answers of ports and memory card, in at most 64
//! times its work and 64 instructions where it does not stray; and that the code is settled, and has no local that needs no address, and no slot that need
//! not be. It stands on the passes, each by its public promise, and on the laws of `pass_laws`, by which these promises meet.
#![tactic(auto)]

mod compiling;
mod naming;
mod sharing;

pub use compiling::{Compiled, compile, compile_lowered};
