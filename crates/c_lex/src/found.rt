// The token at a place.
ghost use Rattle.std.specs.Prelude.{◌≡◌, IfOk, is_some, option_map, ◌∷◌, []};
ghost use Rattle.std.specs.Char.{is_ascii_digit};
ghost use Rattle.c_lex.specs.declared.token.Kind.TheVariants as kinds;
ghost use Rattle.c_lex.specs.Marks.{mark_at, mark_of};
ghost use Rattle.c_lex.specs.Bytes.{begins, is_letter, is_point, is_quote, is_slash, opens_comment};
ghost use Rattle.c_lex.specs.Spelling.{char_of, content_kind, is_mark_before, is_stray, reason_of};
ghost use Rattle.c_lex.specs.Found.{mark_kept, quoted_found, token_at, word_found};

use crate::mark::{mark_at, mark_of};
use crate::number::{is_too_great, number_found};
use crate::token::{Kind, Punct};
use crate::word::{is_letter, word_len};
use kit_base::{Memory, Name};
use quoted_text::quoted_at;
use std::alloc::Global;

fn begins_letter(bytes: &[u8]) -> bool
    ensures { result ≡ begins is_letter bytes.now }
{
    match bytes {
        [] => false,
        [b, ..] => is_letter(*b),
    }
}

fn begins_digit(bytes: &[u8]) -> bool
    ensures { result ≡ begins is_ascii_digit bytes.now }
{
    match bytes {
        [] => false,
        [b, ..] => b.is_ascii_digit(),
    }
}

fn is_quote(b: u8) -> bool
    ensures { result ≡ is_quote b }
{
    b == b'"' || b == b'\''
}

fn begins_quote(bytes: &[u8]) -> bool
    ensures { result ≡ begins is_quote bytes.now }
{
    match bytes {
        [] => false,
        [b, ..] => is_quote(*b),
    }
}

fn begins_slash(bytes: &[u8]) -> bool
    ensures { result ≡ begins is_slash bytes.now }
{
    match bytes {
        [] => false,
        [b, ..] => *b == b'/',
    }
}

fn begins_comment(bytes: &[u8]) -> bool
    ensures { result ≡ begins opens_comment bytes.now }
{
    match bytes {
        [] => false,
        [b, ..] => *b == b'/' || *b == b'*',
    }
}

#[tactic(auto, unfolding(crate::specs::Found::word_found))]
fn word_found(alloc: Global, bytes: &[u8]) -> Result<Option<(usize, Kind)>, Memory>
    ensures { IfOk result (λ o. o ≡ word_found bytes.now) }
{
    let text = &bytes[..word_len(bytes)];
    Ok(Some((text.len(), Kind::Word(Name::from_bytes(alloc, text)?))))
}

/// The character of exactly one byte.
fn char_of(content: &[u8]) -> Option<Kind>
    ensures { result ≡ char_of content.now }
{
    match content {
        [b] => Some(Kind::Char(u32::from(*b))),
        _ => None,
    }
}

/// The text or the character of that content.
fn content_kind(alloc: Global, quote: u8, content: &[u8]) -> Result<Option<Kind>, Memory>
    ensures { IfOk result (λ o. o ≡ content_kind quote content.now) }
{
    if quote == b'"' {
        Ok(Some(Kind::Text(Name::from_bytes(alloc, content)?)))
    } else {
        Ok(char_of(content))
    }
}

/// The text or the character at the front, and its length.
#[tactic(auto, unfolding(crate::specs::Found::quoted_found))]
fn quoted_found(alloc: Global, bytes: &[u8]) -> Result<Option<(usize, Kind)>, Memory>
    ensures { IfOk result (λ o. o ≡ quoted_found bytes.now) }
{
    let Some((quote, behind)) = bytes.split_first() else {
        return Ok(None);
    };
    let Some((content, rest)) = quoted_at(alloc, *quote, behind)? else {
        return Ok(None);
    };
    let Some(kind) = content_kind(alloc, *quote, content.as_slice())? else {
        return Ok(None);
    };
    Ok(Some((bytes.len().saturating_sub(rest.len()), kind)))
}

/// Whether the mark stands before the rest: no slash opens a comment.
fn is_mark_before(mark: Punct, rest: &[u8]) -> bool
    ensures { result ≡ is_mark_before mark rest.now }
{
    match mark {
        Punct::Slash => !begins_comment(rest),
        _ => true,
    }
}

fn mark_found(bytes: &[u8]) -> Option<(usize, Kind)>
    ensures { result ≡ mark_kept bytes.now (mark_at bytes.now) }
{
    let (len, mark) = mark_at(bytes)?;
    if is_mark_before(mark, &bytes[len..]) {
        Some((len, Kind::Punct(mark)))
    } else {
        None
    }
}

fn number_kind(found: Option<(usize, u32)>) -> Option<(usize, Kind)>
    ensures { result ≡ option_map (λ x. (x.0, kinds.Number x.1)) found }
{
    match found {
        Some((len, value)) => Some((len, Kind::Number(value))),
        None => None,
    }
}

/// The token at the front, and its length.
#[tactic(auto, unfolding(crate::specs::Found::token_at))]
pub fn token_at(alloc: Global, bytes: &[u8]) -> Result<Option<(usize, Kind)>, Memory>
    ensures { IfOk result (λ o. o ≡ token_at bytes.now) }
{
    if begins_letter(bytes) {
        return word_found(alloc, bytes);
    }
    if begins_digit(bytes) {
        return Ok(number_kind(number_found(bytes)));
    }
    if begins_quote(bytes) {
        return quoted_found(alloc, bytes);
    }
    Ok(mark_found(bytes))
}

fn number_size(found: Option<(usize, u32)>) -> Option<usize>
    ensures { result ≡ option_map (λ x. x.0) found }
{
    match found {
        Some((len, _)) => Some(len),
        None => None,
    }
}

fn size(found: Option<(usize, Kind)>) -> Option<usize>
    ensures { result ≡ option_map (λ x. x.0) found }
{
    match found {
        Some((len, _)) => Some(len),
        None => None,
    }
}

/// The length of the token at the front, of which nothing is kept.
#[tactic(auto, unfolding(crate::specs::Found::token_at, crate::specs::Found::word_found))]
pub fn len_at(alloc: Global, bytes: &[u8]) -> Result<Option<usize>, Memory>
    ensures { IfOk result (λ o. o ≡ option_map (λ x. x.0) (token_at bytes.now)) }
{
    if begins_letter(bytes) {
        return Ok(Some(word_len(bytes)));
    }
    if begins_digit(bytes) {
        return Ok(number_size(number_found(bytes)));
    }
    if begins_quote(bytes) {
        return Ok(size(quoted_found(alloc, bytes)?));
    }
    Ok(size(mark_found(bytes)))
}

fn is_mark(b: u8) -> bool
    ensures { result ≡ is_some (mark_of (b ∷ [])) }
{
    mark_of(&[b]).is_some()
}

fn is_stray(b: u8) -> bool
    ensures { result ≡ is_stray b }
{
    !(is_letter(b) || b.is_ascii_digit() || is_quote(b) || is_mark(b))
}

fn begins_stray(bytes: &[u8]) -> bool
    ensures { result ≡ begins is_stray bytes.now }
{
    match bytes {
        [] => false,
        [b, ..] => is_stray(*b),
    }
}

/// Why no token stands there.
#[tactic(auto, unfolding(crate::specs::Spelling::reason_of))]
pub fn reason_of(bytes: &[u8]) -> u32
    ensures { result ≡ reason_of bytes.now }
{
    if begins_stray(bytes) {
        10
    } else if begins_quote(bytes) {
        11
    } else if begins_slash(bytes) {
        12
    } else if is_too_great(bytes) {
        13
    } else {
        14
    }
}
