//! Places and frames: mid code over registers and slots of frames.
//!
//! It promises that the code by a safe choice for each function does what it did, in no more work, that its words are few, and that the frames
//! are as small as their slots and locals ask for. It stands on mid_code.
#![tactic(auto)]

mod code;
mod functions;
mod layout;
mod places;
mod renumber;
mod slices;
mod whole;

pub use whole::place;
