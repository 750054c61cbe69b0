//! The program that is made up from a number: the text of its project and of its source, and the line that tells of it.
//!
//! It promises the three texts exactly. It stands on kit_base.
#![tactic(auto)]

mod summary;
mod text;

pub use summary::{summary_end, summary_front};
pub use text::{project_text, source_text};
