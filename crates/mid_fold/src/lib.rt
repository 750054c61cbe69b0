//! Constant folding and common subexpressions: operators whose words are known are worked out, a move of a known word puts the word itself, and what an
//! operator or a step has made of the same operands is moved.
//!
//! Both passes promise that the code does exactly what it did, in the same work, with the same temporaries, parameters and locals. What an operator makes of
//! words that may be known is offered too. It stands on mid_code.
#![tactic(auto)]

mod folding;
mod functions;
mod known;
mod made;
mod nodes;
mod operand;
mod reusing;
mod seen;

pub use folding::{one_known, two_known};
pub use functions::{fold_words, reuse_results};
