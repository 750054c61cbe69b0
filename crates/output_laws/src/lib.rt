//! Laws of the files that a run writes.
//!
//! It promises that the outputs of a run leave its files with their bytes, header and then frame by frame, and that effects of any command which were cut
//! short leave fronts of what they were to leave. It has no code, and stands on the definitions of `run_core`.
#![tactic(auto)]

mod laws;

pub use laws::{begun_effects_are_fronts, outputs_are_their_bytes};
