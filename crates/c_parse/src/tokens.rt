// Single tokens at the front.
ghost use Rattle.std.specs.Prelude.{◌≡◌, ◌≤◌, ◌<◌, IfOk, IfErr, Ok, length};
ghost use Rattle.kit_base.specs.declared.failure.Failure.TheVariants as errors;
ghost use Rattle.kit_base.specs.Gives.{Gives};
ghost use Rattle.c_parse.specs.Tok.{bytes_of, toks};
ghost use Rattle.c_parse.specs.declared.fault.Fault.TheVariants.{Syntax, TooDeep};
ghost use Rattle.c_parse.specs.inner.Reader as reader;
ghost use Rattle.c_parse.specs.inner.Reader.{behind, bytes_at, must};
ghost use Rattle.c_parse.specs.inner.View.{context};

use crate::class::{Class, Key, next};
use crate::fault::{Fault, ReadErr};
use crate::scope::{Scope, is_type};
use c_lex::{Kind, Punct, Token};
use kit_base::{Memory, Name};
use std::alloc::Global;

/// No unit goes on with the first of these tokens.
pub(crate) fn bad(tokens: &[Token]) -> ReadErr
    ensures { result ≡ errors.Cause (Syntax (length (toks tokens.now))) }
{
    ReadErr::Cause(Fault::Syntax(tokens.len()))
}

/// No unit that is shallow enough goes on with the first of these tokens.
pub(crate) fn deep(tokens: &[Token]) -> ReadErr
    ensures { result ≡ errors.Cause (TooDeep (length (toks tokens.now))) }
{
    ReadErr::Cause(Fault::TooDeep(tokens.len()))
}

pub(crate) fn no_room(begins: bool, tokens: &[Token]) -> ReadErr
    ensures { result ≡ errors.Cause (reader.room_fault begins (toks tokens.now)) }
{
    if begins { deep(tokens) } else { bad(tokens) }
}

/// A tree has room above a part of that depth, or no unit that is shallow enough goes on with the first of these tokens.
pub(crate) fn raised(room: u32, depth: u32, tokens: &[Token]) -> Result<(), ReadErr>
    ensures fits { IfOk result (λ _. depth < room) }
    ensures deep { IfErr result (λ e. (room ≤ depth) × (e ≡ errors.Cause (TooDeep (length (toks tokens.now))))) }
{
    if room <= depth {
        return Err(deep(tokens));
    }
    Ok(())
}

pub(crate) fn behind(tokens: &[Token]) -> &[Token]
    ensures { toks result.now ≡ behind (toks tokens.now) }
{
    match tokens {
        [] => tokens,
        [_, rest @ ..] => rest,
    }
}

fn must(found: bool, tokens: &[Token]) -> Result<&[Token], ReadErr>
    ensures { Gives (λ x. toks x.now) result (must (reader.is_behind (toks tokens.now) found) (toks tokens.now)) }
{
    if !found {
        return Err(bad(tokens));
    }
    Ok(behind(tokens))
}

/// Whether that mark comes next.
pub(crate) fn at(mark: Punct, tokens: &[Token]) -> bool
    ensures { result ≡ reader.at_mark mark (toks tokens.now) }
{
    match next(tokens) {
        Some((Class::Mark(found), _, _)) => found == mark,
        _ => false,
    }
}

pub(crate) fn at_else_word(tokens: &[Token]) -> bool
    ensures { result ≡ reader.at_else_word (toks tokens.now) }
{
    match next(tokens) {
        Some((Class::Key(Key::Else), _, _)) => true,
        _ => false,
    }
}

fn at_while_word(tokens: &[Token]) -> bool
    ensures { result ≡ reader.at_while_word (toks tokens.now) }
{
    match next(tokens) {
        Some((Class::Key(Key::While), _, _)) => true,
        _ => false,
    }
}

pub(crate) fn at_void_word(tokens: &[Token]) -> bool
    ensures { result ≡ reader.at_void_word (toks tokens.now) }
{
    match next(tokens) {
        Some((Class::Key(Key::Void), _, _)) => true,
        _ => false,
    }
}

pub(crate) fn open_paren(tokens: &[Token]) -> Result<&[Token], ReadErr>
    ensures { Gives (λ x. toks x.now) result (reader.open_paren (toks tokens.now)) }
{
    must(at(Punct::OpenParen, tokens), tokens)
}

pub(crate) fn close_paren(tokens: &[Token]) -> Result<&[Token], ReadErr>
    ensures { Gives (λ x. toks x.now) result (reader.close_paren (toks tokens.now)) }
{
    must(at(Punct::CloseParen, tokens), tokens)
}

pub(crate) fn close_bracket(tokens: &[Token]) -> Result<&[Token], ReadErr>
    ensures { Gives (λ x. toks x.now) result (reader.close_bracket (toks tokens.now)) }
{
    must(at(Punct::CloseBracket, tokens), tokens)
}

pub(crate) fn open_brace(tokens: &[Token]) -> Result<&[Token], ReadErr>
    ensures { Gives (λ x. toks x.now) result (reader.open_brace (toks tokens.now)) }
{
    must(at(Punct::OpenBrace, tokens), tokens)
}

pub(crate) fn close_brace(tokens: &[Token]) -> Result<&[Token], ReadErr>
    ensures { Gives (λ x. toks x.now) result (reader.close_brace (toks tokens.now)) }
{
    must(at(Punct::CloseBrace, tokens), tokens)
}

pub(crate) fn semicolon(tokens: &[Token]) -> Result<&[Token], ReadErr>
    ensures { Gives (λ x. toks x.now) result (reader.semicolon (toks tokens.now)) }
{
    must(at(Punct::Semicolon, tokens), tokens)
}

pub(crate) fn colon(tokens: &[Token]) -> Result<&[Token], ReadErr>
    ensures { Gives (λ x. toks x.now) result (reader.colon (toks tokens.now)) }
{
    must(at(Punct::Colon, tokens), tokens)
}

pub(crate) fn while_word(tokens: &[Token]) -> Result<&[Token], ReadErr>
    ensures { Gives (λ x. toks x.now) result (reader.while_word (toks tokens.now)) }
{
    must(at_while_word(tokens), tokens)
}

fn at_name(scope: &Scope, tokens: &[Token]) -> bool
    ensures { result ≡ reader.at_name (context scope.now) (toks tokens.now) }
{
    match next(tokens) {
        Some((Class::Word, token, _)) => !is_type(scope, token),
        _ => false,
    }
}

fn at_new(tokens: &[Token]) -> bool
    ensures { result ≡ reader.at_new (toks tokens.now) }
{
    match next(tokens) {
        Some((Class::Word, _, _)) => true,
        _ => false,
    }
}

/// The token's own word or text, whose bytes are shared and not copied.
fn shared(alloc: Global, token: &Token) -> Result<Name, Memory>
    ensures { IfOk result (λ n. n ≡ bytes_of token.now.kind) }
{
    match &token.kind {
        Kind::Word(word) => word.copy(),
        Kind::Text(text) => text.copy(),
        Kind::Number(_) => Name::from_bytes(alloc, &[]),
        Kind::Char(_) => Name::from_bytes(alloc, &[]),
        Kind::Punct(_) => Name::from_bytes(alloc, &[]),
    }
}

/// The word or the text at the front.
pub(crate) fn word(alloc: Global, tokens: &[Token]) -> Result<Name, ReadErr>
    ensures { Gives (λ x. x) result (Ok (bytes_at (toks tokens.now))) }
{
    match next(tokens) {
        Some((Class::Word, token, _)) => Ok(shared(alloc, token)?),
        Some((Class::Text, token, _)) => Ok(shared(alloc, token)?),
        _ => Ok(Name::from_bytes(alloc, &[])?),
    }
}

/// A name that is no type's.
pub(crate) fn name<'a>(
    alloc: Global,
    scope: &Scope,
    tokens: &'a [Token],
) -> Result<(Name, &'a [Token]), ReadErr>
    ensures { Gives (λ x. (x.0, toks x.1.now)) result (reader.name (context scope.now) (toks tokens.now)) }
{
    if !at_name(scope, tokens) {
        return Err(bad(tokens));
    }
    Ok((word(alloc, tokens)?, behind(tokens)))
}

/// A name, be it a type's or not.
pub(crate) fn new(alloc: Global, tokens: &[Token]) -> Result<(Name, &[Token]), ReadErr>
    ensures { Gives (λ x. (x.0, toks x.1.now)) result (reader.new (toks tokens.now)) }
{
    if !at_new(tokens) {
        return Err(bad(tokens));
    }
    Ok((word(alloc, tokens)?, behind(tokens)))
}

pub(crate) fn at_more(tokens: &[Token]) -> bool
    ensures { result ≡ reader.at_more (toks tokens.now) }
{
    at(Punct::Comma, tokens) && !at(Punct::CloseBrace, behind(tokens))
}

pub(crate) fn end_list(tokens: &[Token]) -> Result<&[Token], ReadErr>
    ensures { Gives (λ x. toks x.now) result (reader.end_list (toks tokens.now)) }
{
    if at(Punct::Comma, tokens) {
        return close_brace(behind(tokens));
    }
    close_brace(tokens)
}
