//! The meaning of C programs: what a checked program does, for a bound on the calls and loop turns that are nested on any path.
//!
//! The definitions are a recursion on the bound, and inside it on the typed tree. A run ends where the program halts, faults or finds no
//! answer at a port, where it strays, that is, does what has no meaning, where a call has no room for its frame, or where the bound is used
//! up. It stands on c_types for typed trees and on obj_mem for objects and worlds.
#![tactic(auto)]

mod end;
mod laws;

pub use end::End;
pub use laws::larger_bounds_extend;
