//! Scalar replacement: the words of structures whose address stays in the function are kept in temporaries.
#![tactic(auto)]

mod asking;
mod building;
mod choice;
mod fact;
mod functions;
mod losing;
mod masks;
mod notes;
mod replacing;
mod slices;
mod spread;
mod table;
mod turn;
mod walk;

pub use replacing::replace;
