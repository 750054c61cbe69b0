//! Files and a sink held in memory, whose calls fail, run as tests.
//!
//! What the program shows is in `cases/` at the top of the repository. They stand outside the crate that they run, so that it is not proved
//! once more with them. It has no code of its own and promises nothing.
#![tactic(auto)]

#[cfg(test)]
mod outside;
