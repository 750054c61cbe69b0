//! What every checked C program is.
//!
//! It promises of each value of `Program` that its numbers are in range, its trees typed by the rules, its limits kept, and its nodes
//! few. It stands on c_check, whose type says that a program is that of a well typed unit; what is said here follows from it.
#![tactic(auto)]

pub mod laws;
mod words;

pub use words::numbers_are_words;
