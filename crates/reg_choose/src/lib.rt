//! The choice of a register or a slot of the frame for each temporary of mid code.
//!
//! `choose` makes a safe choice by one scan over the spans of temporaries; `is_safe` tells of any choice whether it is safe, by live sets alone.
#![tactic(auto)]

mod checks;
mod choice;
mod each;
mod gather;
mod hold;
mod interval;
mod ordered;
mod plan;
mod registers;
mod safe;
mod spans;
mod stands;
mod target;
mod trail;

pub use choice::choose;
pub use each::choose_all;
pub use safe::is_safe;
