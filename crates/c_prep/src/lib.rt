//! The preprocessor: macros, conditions and included files.
//!
//! `expand` promises exactly the tokens that a source stands for, with the files that it includes, or
//! its first fault. It stands on the tokens of `c_lex` and the files of `kit_base`.
#![tactic(auto)]

mod conditions;
mod directive;
mod error;
mod expansion;
mod files;
mod kinds;
mod laws;
mod lines;
mod output;
mod replace;
mod table;
mod work;

pub use error::{PrepErr, PrepFault};
pub use expansion::expand;
pub use laws::{
    lines_part_the_tokens, room_for_names_is_never_short, tokens_are_put_as_what_they_stand_for,
};
