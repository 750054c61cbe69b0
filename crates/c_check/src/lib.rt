//! The typed program of a C unit.
//!
//! It promises the program exactly where the unit is well typed, and else the rule that the unit breaks first, in the order of reading. It stands
//! on c_stmts for the bodies of functions and on c_exprs for expressions.
#![tactic(auto)]

mod access;
mod checking;
mod declaring;
mod enumerators;
mod functions;
mod globals;
mod items;
pub mod laws;
mod members;
mod objects;
mod parts;
mod program;
mod reading;
mod words;

pub use checking::check;
pub use objects::Objects;
pub use program::Program;
pub use reading::Reading;
