//! The typing of expressions of a C unit: names, calls, members and the types that type trees name.
//!
//! It promises the typed tree of an expression exactly where the rules type it, and else the rule that it breaks first. It stands on
//! kit_base, v32_isa for the ports, c_tree, c_types and c_rules.
#![tactic(auto)]

mod calls;
mod error;
mod intrinsics;
pub mod laws;
mod making;
mod names;
mod nodes;
mod ports;
mod rules;
mod texts;
mod trees;
mod typing;

pub use error::{CheckErr, Fault, at_node, demanded, keeping, known, placed};
pub use intrinsics::{Intrinsic, is_intrinsic};
pub use names::{Decl, Globals, Local, Scope, find_local};
pub use nodes::{constant, is_place, span_of};
pub use rules::check_value;
pub use texts::{Texts, kept_texts};
pub use typing::{type_expr, type_of_tree, type_value};
