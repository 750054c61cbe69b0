// The tokens of a line.
ghost use Rattle.std.specs.Prelude.{◌≡◌, ◌<◌, ◌≤◌, ◌∷◌, ◌==◌, ◌&&◌, IfOk, length, drop};
ghost use Rattle.std.specs.Char.{is_ascii_digit};
ghost use Rattle.std.specs.List.{take_while};
ghost use Rattle.asm_items.specs.Vocabulary.{is_word_byte};
ghost use Rattle.quoted_text.specs.declared.quoted.Within.TheVariants.{Plain};
ghost use Rattle.quoted_text.specs.Quoted.{quoted_at};
ghost use Rattle.asm_reader.specs.Tokens.{begins, is_blank, kind_token, mark_token, run_token, text_token, token_at, tokens_of};

use crate::number::number_token;
use asm_items::{DataWord, Operation, WordKind, is_word_byte, word_kind};
use kit_base::{Memory, Name, Seq};
use quoted_text::quoted_at;
use std::alloc::Global;
use v32_isa::{Port, Reg};

/// A token: what a word stands for, a number (whether a `-` stands directly before it, and its
/// magnitude where that is below 2^32), a text less its escapes, or a mark. A stray byte is none.
#[derive(Drop)]
pub enum Token {
    Float,
    Operation(Operation),
    Data(DataWord),
    Register(Reg),
    Port(Port),
    Label(Name),
    Number(bool, Option<u32>),
    Text(Seq<u8>),
    Colon,
    Comma,
    Open,
    Close,
    Plus,
    Minus,
    Stray,
}

fn begins_digit(bytes: &[u8]) -> bool
    ensures { result ≡ begins is_ascii_digit bytes.now }
{
    match bytes.split_first() {
        Some((b, _)) => b.is_ascii_digit(),
        None => false,
    }
}

/// How many bytes at the front may stand in a word.
fn run_len(bytes: &[u8]) -> usize
    ensures value { result ≡ length (take_while is_word_byte bytes.now) }
    ensures within { result ≤ length bytes.now }
{
    bytes.iter().take_while(|b| is_word_byte(**b)).count()
}

fn run_of(bytes: &[u8]) -> &[u8]
    ensures value { result.now ≡ take_while is_word_byte bytes.now }
{
    &bytes[..run_len(bytes)]
}

fn kind_token(alloc: Global, word: &[u8], kind: WordKind) -> Result<Token, Memory>
    ensures { IfOk result (λ t. t ≡ kind_token word.now kind) }
{
    Ok(match kind {
        WordKind::Float => Token::Float,
        WordKind::Operation(operation) => Token::Operation(operation),
        WordKind::Data(data) => Token::Data(data),
        WordKind::Register(register) => Token::Register(register),
        WordKind::Port(port) => Token::Port(port),
        WordKind::Label => Token::Label(Name::from_bytes(alloc, word)?),
    })
}

/// The number or the word that letters, digits and `_` make.
#[tactic(auto, unfolding(crate::specs::Tokens::run_token))]
fn run_token(alloc: Global, run: &[u8]) -> Result<Token, Memory>
    ensures { IfOk result (λ t. t ≡ run_token run.now) }
{
    if begins_digit(run) {
        return Ok(number_token(false, run));
    }
    kind_token(alloc, run, word_kind(run))
}

#[tactic(auto, unfolding(crate::specs::Tokens::mark_token))]
fn mark_token(b: u8) -> Token
    ensures { result ≡ mark_token b }
{
    match b {
        b':' => Token::Colon,
        b',' => Token::Comma,
        b'[' => Token::Open,
        b']' => Token::Close,
        b'+' => Token::Plus,
        b'-' => Token::Minus,
        _ => Token::Stray,
    }
}

/// The text behind its first quote, and how many bytes it takes.
fn text_token(alloc: Global, after: &[u8]) -> Result<(Token, usize), Memory>
    ensures { IfOk result (λ x. x ≡ text_token after.now (quoted_at 34 Plain after.now)) }
{
    match quoted_at(alloc, b'"', after)? {
        Some((text, rest)) => Ok((Token::Text(text), after.len().saturating_sub(rest.len()))),
        None => Ok((Token::Stray, after.len())),
    }
}

fn is_negative(first: u8, after: &[u8]) -> bool
    ensures { result ≡ ((first == 45) && begins is_ascii_digit after.now) }
{
    first == b'-' && begins_digit(after)
}

/// The token at the front of the text, and how many bytes it has after its first.
#[tactic(auto, unfolding(crate::specs::Tokens::token_at))]
fn token_at(alloc: Global, text: &[u8], first: u8, after: &[u8]) -> Result<(Token, usize), Memory>
    requires { text.now ≡ first ∷ after.now }
    ensures token { IfOk result (λ x. x ≡ token_at text.now) }
    ensures within { IfOk result (λ x. x.1 ≤ length after.now) }
{
    if is_word_byte(first) {
        let token = run_token(alloc, run_of(text))?;
        return Ok((token, run_len(after)));
    }
    if is_negative(first, after) {
        return Ok((number_token(true, run_of(after)), run_len(after)));
    }
    if first == b'"' {
        return text_token(alloc, after);
    }
    Ok((mark_token(first), 0))
}

fn is_blank(b: u8) -> bool
    ensures { result ≡ is_blank b }
{
    b == b' ' || b == b'\t'
}

/// The tokens of a line, up to its comment. The error is want of memory.
#[tactic(auto, using(crate::proofs::Lexing::blank, crate::proofs::Lexing::comment, crate::proofs::Lexing::token, crate::proofs::Lexing::ended))]
pub fn tokens_of(alloc: Global, line: &[u8]) -> Result<Vec<Token>, Memory>
    ensures { IfOk result (λ v. v.items ≡ tokens_of line.now) }
{
    let mut tokens = Vec::new(alloc);
    let mut rest = line;
    'each: while let Some((first, after)) = rest.split_first() {
        if is_blank(*first) {
            rest = after;
        } else if *first == b';' {
            return Ok(tokens);
        } else {
            let (token, further) = token_at(alloc, rest, *first, after)?;
            tokens.push(token)?;
            let (_, next) = after.split_at(further);
            rest = next;
        }
    }
    Ok(tokens)
}
