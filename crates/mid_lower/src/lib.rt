//! Typed programs lowered to mid code.
//!
//! `lower` gives exactly the code that the definitions of lower_trees tell of a program's start and functions. The definitions here tell what the lowering
//! promises of it: the code keeps the runs of the program. It stands on lower_trees for the code, on c_check for programs, and on c_meaning for what they do.
#![tactic(auto)]

mod lowering;

pub use lowering::lower;
