// Kinds of tokens: compared and copied.
ghost use Rattle.std.specs.Prelude.{◌≡◌, ◌++◌, IfOk, OnOk, option_copied};
ghost use Rattle.c_prep.specs.Kinds.{kinds_of, same_kind, same_kinds, same_punct, word_in};

use c_lex::{Kind, Punct, Token};
use kit_base::{Memory, Name};
use std::alloc::Global;

#[tactic(auto, unfolding(crate::specs::Kinds::same_punct))]
fn same_punct(a: Punct, b: Punct) -> bool
    ensures { result ≡ same_punct a b }
{
    a == b
}

fn same_kind(a: &Kind, b: &Kind) -> bool
    ensures { result ≡ same_kind a.now b.now }
{
    match (a, b) {
        (Kind::Word(a), Kind::Word(b)) => a == b,
        (Kind::Number(a), Kind::Number(b)) => a == b,
        (Kind::Char(a), Kind::Char(b)) => a == b,
        (Kind::Text(a), Kind::Text(b)) => a == b,
        (Kind::Punct(a), Kind::Punct(b)) => same_punct(*a, *b),
        _ => false,
    }
}

/// Whether these kinds are those of the tokens.
#[tactic(auto, using(crate::proofs::Comparing::comparing))]
pub fn same_kinds(kinds: &[Kind], tokens: &[Token]) -> bool
    ensures { result ≡ same_kinds kinds.now (kinds_of tokens.now) }
{
    let mut left = kinds;
    let mut right = tokens;
    'each: while let Some((kind, kinds_after)) = left.split_first() {
        let Some((token, tokens_after)) = right.split_first() else {
            return false;
        };
        if !same_kind(kind, &token.kind) {
            return false;
        }
        left = kinds_after;
        right = tokens_after;
    }
    match right.split_first() {
        Some(_) => false,
        None => true,
    }
}

/// The same kind once more.
pub fn copied_kind(kind: &Kind) -> Result<Kind, Memory>
    ensures { IfOk result (λ k. k ≡ kind.now) }
{
    match kind {
        Kind::Word(name) => Ok(Kind::Word(name.copy()?)),
        Kind::Number(n) => Ok(Kind::Number(*n)),
        Kind::Char(c) => Ok(Kind::Char(*c)),
        Kind::Text(text) => Ok(Kind::Text(text.copy()?)),
        Kind::Punct(p) => Ok(Kind::Punct(*p)),
    }
}

/// The kinds of the tokens.
pub fn copied_kinds(alloc: Global, tokens: &[Token]) -> Result<Vec<Kind>, Memory>
    ensures { IfOk result (λ v. v.items ≡ kinds_of tokens.now) }
{
    let mut kinds = Vec::new(alloc);
    'each: for token in tokens {
        kinds.push(copied_kind(&token.kind)?)?;
    }
    Ok(kinds)
}

/// The word that a kind is.
pub fn word_in(kind: &Kind) -> Option<&Name>
    ensures { option_copied result ≡ word_in kind.now }
{
    match kind {
        Kind::Word(name) => Some(name),
        _ => None,
    }
}
