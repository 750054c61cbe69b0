//! Texts and characters between quotes: the bytes that they stand for, with escapes, and the rest of the line after them.
//!
//! C texts and assembly texts are both read by it. It stands on kit_base.
#![tactic(auto)]

mod quoted;

pub use quoted::{Turn, Within, quoted_at};
