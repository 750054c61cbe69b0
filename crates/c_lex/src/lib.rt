//! The tokens of a C text.
//!
//! A text is a list of gaps and tokens, each token the longest spelling at its place; `lex` gives the
//! tokens with their places, or why the first place without a token has none. It stands on kit_base and quoted_text.
#![tactic(auto)]

mod error;
mod found;
mod gap;
mod laws;
mod lexing;
mod mark;
mod number;
mod place;
mod token;
mod word;

pub use error::{LexErr, LexFault};
pub use laws::{
    gaps_and_tokens_are_apart, gaps_are_what_is_spelled, places_are_told, texts_read_one_way,
    tokens_are_of_their_file, tokens_are_what_is_spelled,
};
pub use lexing::{Tokens, lex, read_tokens};
pub use token::{Kind, Punct, Token};
