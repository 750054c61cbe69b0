//! Promotion: scalar locals whose address is never taken become temporaries.
//!
//! It promises that the code does what it did, in no more work, that no such local is left, and that the others keep their words and live at
//! once where they did. It stands on mid_code.
#![tactic(auto)]

mod building;
mod functions;
mod plain;
mod promoting;
mod rewrite;
mod roles;
mod slices;
mod table;
mod walk;

pub use promoting::promote;
