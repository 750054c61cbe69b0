//! The rules of the C dialect's types: which operands an operator takes and what it gives, which values become which, sizes and
//! limits, and the arithmetic of constants.
//!
//! Each rule of a node gives the type of its answer or the lowest code that is broken there. Only types come in: no names, no scopes,
//! no trees. It stands on c_types for types and layouts, on c_tree for operators and on kit_base for words.
#![tactic(auto)]

mod building;
mod code;
mod constants;
mod counted;
mod elements;
mod kinds;
pub mod laws;
mod nodes;
mod sizes;

pub use building::{array_of, decayed, pointer_to};
pub use code::{Code, RuleErr, code_number};
pub use constants::{constant_binary, constant_unary};
pub use counted::{Counted, copy_counted, with_elements};
pub use elements::{Element, Elements};
pub use kinds::{can_cast, converts, is_array, is_condition, is_number, same_type, target};
pub use nodes::{
    address_type, array_type, assign_type, binary_type, cast_type, check_store, compound_type,
    index_type, step_type, type_size, unary_type,
};
pub use sizes::{fits, is_whole};
