//! The syntax trees of a C unit, and how many nodes one has and how deep it is.
//!
//! Contracts see a tree as plain data without pointers. It stands on kit_base.
#![tactic(auto)]

pub mod building;
mod count;
mod depths;
mod expression;
mod item;
mod operator;
mod span;
mod statement;
mod variable;

pub use count::nodes;
pub use depths::depth;
pub use expression::{Expr, TypeTree};
pub use item::{Item, Unit};
pub use operator::{BinOp, StepOp, UnOp};
pub use span::Span;
pub use statement::{Arm, Stmt};
pub use variable::{Init, Var};
