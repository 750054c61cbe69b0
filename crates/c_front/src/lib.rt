//! From the name of a game's source to its syntax tree.
//!
//! `read_unit` reads the source with the files that it includes, where the dialect's headers lie over the
//! files, and promises the tree that the grammar derives from the tokens that the source stands for, or why
//! there is none, with the file and the line. It stands on kit_base, c_lex, c_tree, c_prep and c_parse.
#![tactic(auto)]

mod error;
mod headers;
mod headers_over;
mod laws;
mod parsing;
mod places;
mod unit;

pub use error::FrontErr;
pub use headers::header;
pub use laws::{headers_are_guarded, headers_hide_files};
pub use places::Places;
pub use unit::{Parsed, read_unit};
