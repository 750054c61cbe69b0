//! The grammar of assembly text: how lines, tokens and texts between quotes are spelled.
//!
//! It promises, as laws, that `read_asm` reads a text as items exactly where the grammar says that it is these items, and refuses it with a code at a line
//! exactly where that is its first faulty line and of that class. It has no code. It stands on the
//! definitions of `asm_reader`, and on the grammar of `c_lex` for numbers and texts between quotes.
#![tactic(auto)]

mod laws;

pub use laws::{
    lines_are_refused_by_class, lines_are_what_they_spell, operations_are_refused_by_class,
    texts_are_refused_at_their_first_faulty_line, texts_are_what_they_spell,
    texts_between_quotes_are_what_they_spell, tokens_are_what_lines_spell,
};
