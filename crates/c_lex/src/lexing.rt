// A text as its tokens, which are read one by one.
ghost use Rattle.std.specs.Prelude.{◌≡◌, ◌≤◌, ◌+◌, ◌∷◌, [], false, length, option_map, IfErr, IfNone, IfOk, IfSome, OnErr};
ghost use Rattle.c_lex.specs.Gaps.{gap_len};
ghost use Rattle.c_lex.specs.Reading.{found, goes_on, Gives, IsRefusal, Reads};
ghost use Rattle.c_lex.specs.Found.{reading_from, reading_of};

use crate::error::{LexErr, LexFault};
use crate::found::{len_at, reason_of, token_at};
use crate::gap::gap_len;
use crate::place::Place;
use crate::token::Token;
use kit_base::Memory;
use std::alloc::Global;
use std::marker::Model;

/// The tokens of a text that are still to be read, which contracts see as their list: none of them is held.
#[derive(Drop)]
pub struct Tokens<'a> {
    place: Place,
    rest: &'a [u8],
}

impl<'a> Model for Tokens<'a> {
    ghost use Rattle.std.specs.Prelude.{List};
    ghost use Rattle.c_lex.specs.declared.token.Token.{Token};
    ghost use Rattle.c_lex.specs.inner.Left.{IsLeft, left};

    ghost Value = { List Token };

    ghost view = { λ t. left t.place t.rest.now };

    ghost invariant = { λ t. IsLeft t.place t.rest.now };
}

/// What stands behind the gaps at the front.
fn past_gaps(place: Place, bytes: &[u8]) -> (Place, &[u8])
    requires byte { place.byte + length bytes.now ≤ 268435456 }
    requires line { place.line ≤ place.byte + 1 }
    ensures same { reading_from 0 result.0 result.1.now ≡ reading_from 0 place bytes.now }
    ensures none { gap_len result.1.now ≡ 0 }
    ensures byte { result.0.byte + length result.1.now ≡ place.byte + length bytes.now }
    ensures line { result.0.line ≤ result.0.byte + 1 }
{
    let mut at = place;
    let mut rest = bytes;
    let mut gap = gap_len(rest);
    'each: while gap > 0 {
        let (text, after) = rest.split_at(gap);
        at = at.past_gap(text);
        rest = after;
        gap = gap_len(rest);
    }
    (at, rest)
}

impl<'a> Tokens<'a> {
    /// The next token.
    pub fn next(&mut self, alloc: Global) -> Result<Option<Token>, Memory>
        ensures some { IfOk result (λ o. IfSome o (λ t. self.old ≡ t ∷ self.new)) }
        ensures none { IfOk result (λ o. IfNone o (self.old ≡ [])) }
    {
        let (place, rest) = past_gaps(self.place, self.rest);
        match token_at(alloc, rest)? {
            None => Ok(None),
            Some((len, kind)) => {
                let (_, after) = rest.split_at(len);
                self.place = place.past_token(len);
                self.rest = after;
                Ok(Some(place.token(len, kind)))
            }
        }
    }

    /// The next token, where it does not begin a line.
    pub fn next_in_line(&mut self, alloc: Global) -> Result<Option<Token>, Memory>
        ensures some { IfOk result (λ o. IfSome o (λ t. self.old ≡ t ∷ self.new)) }
        ensures here { IfOk result (λ o. IfSome o (λ t. t.first ≡ false)) }
        ensures none { IfOk result (λ o. IfNone o (goes_on self.old ≡ false)) }
        ensures left { IfOk result (λ o. IfNone o (self.new ≡ self.old)) }
    {
        let (place, rest) = past_gaps(self.place, self.rest);
        if place.first {
            return Ok(None);
        }
        match token_at(alloc, rest)? {
            None => Ok(None),
            Some((len, kind)) => {
                let (_, after) = rest.split_at(len);
                self.place = place.past_token(len);
                self.rest = after;
                Ok(Some(place.token(len, kind)))
            }
        }
    }
}

/// The tokens of a text, as the file of that number: the longest at each place, with gaps between them.
///
/// The error tells the first place where neither a gap nor a token stands, and why; or memory ran out.
/// The text is gone through once before its first token is given.
pub fn read_tokens<'a>(alloc: Global, bytes: &'a [u8], file: u32) -> Result<Tokens<'a>, LexErr>
    requires fits { length bytes.now ≤ 268435456 }
    ensures tokens { IfOk result (λ ts. Reads file bytes.now (found ts)) }
    ensures refused { IfErr result (λ e. IsRefusal file bytes.now e) }
    ensures reading { Gives result (reading_of file bytes.now) }
{
    let start = Place {
        file,
        line: 1,
        byte: 0,
        first: true,
    };
    let mut rest = bytes;
    let mut place = start;
    'each: while rest.len() > 0 {
        let gap = gap_len(rest);
        if gap > 0 {
            let (text, after) = rest.split_at(gap);
            place = place.past_gap(text);
            rest = after;
        } else {
            match len_at(alloc, rest)? {
                None => {
                    return Err(LexErr::Cause(LexFault {
                        code: reason_of(rest),
                        line: place.line,
                        byte: place.byte,
                    }));
                }
                Some(len) => {
                    let (_, after) = rest.split_at(len);
                    place = place.past_token(len);
                    rest = after;
                }
            }
        }
    }
    Ok(Tokens {
        place: start,
        rest: bytes,
    })
}

/// The list of these tokens.
pub fn lex(alloc: Global, bytes: &[u8], file: u32) -> Result<Vec<Token>, LexErr>
    requires fits { length bytes.now ≤ 268435456 }
    ensures tokens { IfOk result (λ v. Reads file bytes.now (found v.items)) }
    ensures refused { IfErr result (λ e. IsRefusal file bytes.now e) }
{
    let mut left = read_tokens(alloc, bytes, file)?;
    let mut list = Vec::new(alloc);
    'each: while let Some(token) = left.next(alloc)? {
        list.push(token)?;
    }
    Ok(list)
}
