//! From the tokens of a C unit to its syntax tree.
//!
//! It promises the tree exactly where the grammar derives one that is shallow enough, and else the first
//! token with which no such unit goes on. It stands on kit_base, c_lex and c_tree, and on
//! indexmap for the names that are types.
#![tactic(auto)]

mod class;
mod declaration;
mod error;
mod expression;
mod fault;
mod keeping;
mod laws;
mod lead;
mod leading;
mod parser;
mod scope;
mod statement;
mod tokens;
mod types;
mod unit;

pub use error::ParseErr;
pub use laws::{tokens_are_one_unit, units_have_few_nodes};
pub use parser::parse;
