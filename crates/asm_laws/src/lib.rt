//! What the items of placed code do where they stand among the words of a program.
#![tactic(auto)]

mod access;
mod behind;
mod copying;
mod laws;
mod made;
mod used;

pub use access::{Address, Base, Transfer};
pub use behind::Behind;
pub use copying::Copying;
pub use laws::{
    calls_stay_within_numbers, placed_code_agrees, places_have_numbers_or_are_forbidden,
};
pub use made::Made;
pub use used::Used;
