// What is known where tokens are read.
ghost use Rattle.std.specs.Prelude.{◌≡◌, ◌-◌, length};
ghost use Rattle.c_parse.specs.Scope.{is_type, span};
ghost use Rattle.c_parse.specs.Tok.{bytes_of, toks};
ghost use Rattle.c_parse.specs.inner.View.{context};

use crate::types::Types;
use c_lex::{Kind, Token};
use c_tree::Span;

/// How many tokens the unit has, and the names that are types so far.
#[derive(Drop)]
pub(crate) struct Scope {
    pub(crate) total: u32,
    pub(crate) types: Types,
}

/// Whether the bytes of a word or a text are the name of a type.
pub(crate) fn is_type(scope: &Scope, token: &Token) -> bool
    ensures { result ≡ is_type (context scope.now) (bytes_of token.now.kind) }
{
    match &token.kind {
        Kind::Word(word) => scope.types.has(word),
        Kind::Text(text) => scope.types.has(text),
        _ => scope.types.has_bytes(&[]),
    }
}

/// What begins with the first token of `from`, and is read up to `rest`.
#[derive(Clone, Copy)]
pub(crate) struct Begun<'a> {
    pub(crate) from: &'a [Token],
    pub(crate) rest: &'a [Token],
}

fn place(total: u32, left: usize) -> u32
    ensures { result ≡ total - left }
{
    if left >= total as usize {
        return 0;
    }
    total - left as u32
}

/// The tokens up to the rest.
pub(crate) fn span(scope: &Scope, tokens: &[Token], rest: &[Token]) -> Span
    ensures { result ≡ span (context scope.now) (toks tokens.now) (toks rest.now) }
{
    Span {
        first: place(scope.total, tokens.len()),
        last: place(scope.total, rest.len()).saturating_sub(1),
    }
}
