//! A console's run into files: the frames, the samples, and the memory card at its end.
//!
//! It promises that a run that was opened writes its outputs in their order, that after a refusal those before it are done in
//! full and none after it was begun, and that no call of it takes memory. It stands on `v32_console` for the console, and on
//! `kit_base` for the files.
#![tactic(auto)]

mod ending;
mod frames;
mod laws;
mod output;
mod run;
mod writing;

pub use ending::Ending;
pub use laws::titles_and_tables_change_no_run;
pub use output::{Output, RunNames, Unwritten};
pub use run::Run;
