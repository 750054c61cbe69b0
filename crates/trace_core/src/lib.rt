//! The text of a run of the processor on a list of port answers, put line by line as it comes.
//!
//! It promises that what is printed is the text of the definitions' run, or a prefix of it where the sink
//! refuses, and that no list of events is kept: a line stands in a buffer of its own, and no call
//! takes memory. It stands on `cpu_core` for the processor, `v32_isa` for its runs and `kit_base`
//! for the sink.
#![tactic(auto)]

mod digits;
mod line;
mod run;
mod text;

pub use line::Line;
pub use run::Trace;
