//! How many instructions a call of a function takes, worked out of assembly items.
//!
//! It promises of each name the greatest count of instructions over the paths behind its label, that this is above the greatest number
//! told, or that a path leads to what has no number. It stands on the items of `asm_items` and on the paths of `asm_laws`.
#![tactic(auto)]

mod bound;
mod laws;
mod lines;
mod node;
mod places;
mod table;

pub use bound::{Bound, bounds};
pub use laws::{
    calls_stay_within_bounds, functions_have_one_bound, items_that_go_on_have_a_number,
};
pub use lines::tell_bounds;
