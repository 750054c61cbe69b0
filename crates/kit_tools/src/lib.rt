//! The commands that need no compiler: `migrate`, `asm`, `dis`, `trace` and `run`; the refusals of all commands with their statuses and
//! lines; and reading and writing the files that the words name.
//!
//! It promises that each command leaves what is due, and that each refusal by the files has its cause. It stands on the formats
//! of the files, on assembly text and on the console's run, and on `kit_base` for the files.
#![tactic(auto)]

mod converting;
mod laws;
mod putting;
mod reading;
mod refusal;
mod running;
mod shown;
mod tracing;
mod verdict;
mod writing;

pub use converting::convert_command;
pub use laws::disassembly_is_assembled_to_its_file;
pub use putting::{put_both, put_piece};
pub use reading::read_file;
pub use refusal::{DueRefusal, Refusal, RefusalCause, line_of, status_of};
pub use running::{
    Loaded, LoadedSettings, Opened, OwnNames, open_game, read_settings, read_watch_settings,
    run_command, write_outputs,
};
pub use shown::Shown;
pub use tracing::trace_command;
pub use verdict::{Verdict, put_verdict};
pub use writing::write_named;
