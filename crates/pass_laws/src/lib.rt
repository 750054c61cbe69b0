//! The passes together: what words that are made of a typed program by all of them do.
//!
//! Each pass promises something of what it makes of its input. These laws say what follows for the program from all promises: the words do what it
//! means, they are few, and the frames fit its functions. It stands on the promises alone.
#![tactic(auto)]

mod laws;

pub use laws::{passes_meet, straight_functions_stay_straight};
