//! What the words of a program have done after any number of steps, told from its meaning.
//!
//! `AgreesWithin` of mid_code goes from the meaning to the words: for every bound there are steps in which the words do what is meant. The law here goes
//! back: whatever the words have done after any number of steps is part of what is meant. It stands on `AgreesWithin` and on how runs of the machine go on.
#![tactic(auto)]

mod laws;

pub use laws::steps_are_meant;
