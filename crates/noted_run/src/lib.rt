//! A console's run with notes of its port operations.
//!
//! It promises that the notes are those of the run that the definition's console makes in at most so many frames, and how that run ended. It
//! stands on `v32_console` for the console and its notes, and on `run_core` for where a run ends.
#![tactic(auto)]

mod frames;
mod run;

pub use run::{Noted, NotedRun};
