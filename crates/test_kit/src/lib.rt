//! Cases of the commands over files and a sink in memory whose calls fail, run as tests.
//!
//! What else the commands do is shown by `cases/` at the top of the repository. They stand outside the crates that they run, so that those are
//! not proved once more with them. It has no code of its own and promises nothing.
#![tactic(auto)]

#[cfg(test)]
mod commands;
