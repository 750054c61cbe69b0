//! Laws of the work that a run of a C program takes.
//!
//! They count it for six small programs, one for each kind of thing that is counted. It has no code, and stands on the definitions of `c_meaning`.
#![tactic(auto)]

mod laws;

pub use laws::work_is_counted;
