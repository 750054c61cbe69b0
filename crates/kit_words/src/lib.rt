//! The words of the command line, and the command that they name.
//!
//! It promises that a command is found exactly where the words are one of the listed forms. It stands on `clap` for the words.
#![tactic(auto)]

mod command;
mod command_line;
mod conversion;
mod laws;
mod number;

pub use command::{Command, RunWords, SOURCE_NAME, WatchWords, command_of};
pub use conversion::Conversion;
pub use laws::{commands_are_listed, commands_are_tested, forms_have_commands};
pub use number::number_of;
