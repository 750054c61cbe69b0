//! Eight 32-bit words side by side in a vector: read from a slice, computed with lane by lane, written back.
//!
//! It promises what each lane holds after each step, and that a write leaves all other words of the slice as they were. No call takes
//! memory. It stands on std alone.
#![tactic(auto)]

mod lanes;
mod slices;

pub use lanes::{differences, lesser, lower_halves, raised, same, sums, upper_halves};
pub use slices::{load, store};
