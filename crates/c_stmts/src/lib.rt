//! The typing of variables, initialisers and statements of a C function.
//!
//! It promises the typed tree of a statement exactly where the rules type it, and else the rule that it breaks first. It stands on
//! c_exprs for expressions, on c_rules, c_types and c_tree, and on indexmap for the labels of a switch.
#![tactic(auto)]

mod building;
mod filling;
mod labels;
mod objects;
mod scopes;
mod sizes;
mod slots;
mod state;
mod statements;
mod variables;

pub use filling::fill;
pub use objects::object_size;
pub use state::State;
pub use statements::type_statements;
