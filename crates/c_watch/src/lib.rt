//! Whether a program strays, or has no room for the frame of a call, before a recorded run is over.
//!
//! It promises the verdict of the definitions: from how many port operations the recorded run made, and whether it ended, it tells exactly where the
//! meaning of the program, under the answers that the run got, strays or lacks room before them. It stands on c_evaluate for the meaning, step by step.
#![tactic(auto)]

mod laws;
mod verdict;
mod watching;

pub use laws::verdicts_tell;
pub use verdict::{Goal, Watched};
pub use watching::watch;
