//! Typed trees lowered to mid code, form by form.
//!
//! The definitions tell which code the start and the functions of a program become; `lower_start` and `lower_functions` give exactly that code, or want of
//! memory. What that code does is told in mid_lower, which lowers whole programs. It stands on c_types for trees, and on mid_code for code.
#![tactic(auto)]

mod cells;
mod expressions;
mod finishing;
mod functions;
mod initialisers;
mod jump;
mod kinds;
mod looping;
mod operands;
mod operating;
mod output;
mod reading;
mod statements;

pub use functions::{lower_functions, lower_start};
pub use reading::Reading;
