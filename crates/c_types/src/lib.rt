//! Types, layouts and typed trees of a checked C unit.
//!
//! How many words a type has and where a structure's members stand; the trees and functions that the checker gives, with their numbers in
//! place of names, and how many nodes they have. Contracts see all of them as plain data without pointers. It stands on c_tree for operators
//! and spans.
#![tactic(auto)]

mod ctype;
mod function;
mod kinds;
mod layout;
mod typed;

pub use ctype::{CType, Derivation, Run, Underlying, copy_type, same_derivation, shared};
pub use function::TFunction;
pub use kinds::{has_pointer_value, is_structure, is_void, led_to, part_type};
pub use layout::{Layout, Member, member_offset, size_of, wrapped_size};
pub use typed::{TArm, TExpr, TInit, TKind, TStmt, TVar};
