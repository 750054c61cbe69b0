//! The console: the processor and the devices behind its ports, frame by frame.
//!
//! It promises that a frame goes from one edge of the definition's console to the next, or to the end, that its screen and its
//! samples are those of what happened at the ports so far, and that the console is the machine on the list of answers
//! that its devices gave. Nothing after the opening takes memory. It stands on the processor and the devices.
#![tactic(auto)]

mod board;
mod console;
mod frame_end;
mod laws;
mod notes;
mod running;
mod tape;

pub use console::Console;
pub use frame_end::FrameEnd;
pub use laws::{
    cartridges_run_alike, histories_are_of_the_run, operations_are_the_machines,
    runs_are_of_instructions,
};
pub use notes::Notes;
