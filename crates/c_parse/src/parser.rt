// The parser.
ghost use Rattle.std.specs.Prelude.{◌≡◌, ◌<◌, ◌≤◌, ◌-◌, ℕ, List, length, drop, IfOk, Err, Some, None};
ghost use Rattle.c_parse.specs.inner.Answer as answer;
ghost use Rattle.c_parse.specs.Places as places;
ghost use Rattle.c_parse.specs.Places.{Answers, AnswersTooDeep, FirstBad, FirstDeep};
ghost use Rattle.c_parse.specs.Tok.{toks};
ghost use Rattle.c_parse.specs.Units.{Derives, Unit_};
ghost use Rattle.c_parse.specs.declared.error.ParseErr.TheVariants as errors;
ghost use Rattle.c_tree.specs.Depth.{unit_depth};
ghost use Rattle.c_tree.specs.Tree.{ItemT};
ghost use Rattle.c_tree.specs.View.{unit};

use crate::class::{Class, next};
use crate::error::ParseErr;
use crate::fault::{Fault, ReadErr};
use crate::unit::read_unit;
use c_lex::Token;
use c_tree::Unit;
use std::alloc::Global;

/// The number of the refused word that comes next.
fn refused_at(tokens: &[Token]) -> Option<u32>
    ensures { result ≡ places.refused_at (toks tokens.now) }
{
    match next(tokens) {
        Some((Class::Refused(what), _, _)) => Some(what),
        _ => None,
    }
}

#[tactic(auto, using(crate::proofs::Skipped::skipped_none))]
fn skip(tokens: &[Token], count: u32) -> &[Token]
    ensures { toks result.now ≡ drop count (toks tokens.now) }
{
    if count as usize >= tokens.len() {
        return &[];
    }
    &tokens[count as usize..]
}

fn bad_at(token: u32, what: Option<u32>) -> ParseErr
    ensures { result ≡ answer.bad_at token what }
{
    match what {
        None => ParseErr::Syntax { token },
        Some(what) => ParseErr::Unsupported { token, what },
    }
}

/// The place of the token from which on `left` tokens remain.
fn place(tokens: &[Token], left: usize) -> u32
    requires fits { length tokens.now ≤ 200000 }
    ensures { result ≡ length (toks tokens.now) - left }
{
    tokens.len().saturating_sub(left) as u32
}

fn answer(tokens: &[Token], e: ReadErr) -> ParseErr
    requires fits { length tokens.now ≤ 200000 }
    ensures { result ≡ answer.answer (toks tokens.now) e }
{
    match e {
        ReadErr::Memory => ParseErr::Memory,
        ReadErr::Cause(Fault::Syntax(left)) => {
            let token = place(tokens, left);
            bad_at(token, refused_at(skip(tokens, token)))
        }
        ReadErr::Cause(Fault::TooDeep(left)) => ParseErr::TooDeep {
            token: place(tokens, left),
        },
    }
}

fn answered(tokens: &[Token], read: Result<Unit, ReadErr>) -> Result<Unit, ParseErr>
    requires fits { length tokens.now ≤ 200000 }
    ensures { result ≡ answer.answered (toks tokens.now) read }
{
    match read {
        Ok(u) => Ok(u),
        Err(e) => Err(answer(tokens, e)),
    }
}

/// The syntax tree of the unit that the tokens are: the grammar is that of the C page. A unit has at most
/// 200 trees on one path. Tokens count from 0. The error `Memory` is want of memory.
pub fn parse(alloc: Global, tokens: &[Token]) -> Result<Unit, ParseErr>
    requires fits { length tokens.now ≤ 200000 }
    // What is returned is derived, with at most 200 trees on a path.
    ensures parsed { IfOk result (λ u. Derives (toks tokens.now) (unit u)) }
    // What is derived so is returned, unless memory runs out.
    ensures derived { (ds : List ItemT) → Derives (toks tokens.now) ds → Answers ds result }
    // What is derived with more trees on a path is too deep, unless memory runs out.
    ensures deeper { (ds : List ItemT) → Unit_ (toks tokens.now) ds → 200 < unit_depth ds → AnswersTooDeep result }
    // A syntax error names the first token with which no unit goes on, or the end; it is no refused word.
    ensures syntax { (t : ℕ) → result ≡ Err (errors.Syntax t) → FirstBad (toks tokens.now) t None }
    // The same where that token is a refused word, with its number.
    ensures refused { (t : ℕ) (what : ℕ) → result ≡ Err (errors.Unsupported t what) → FirstBad (toks tokens.now) t (Some what) }
    // Some unit goes on with the token named, and none with at most 200 trees on a path does.
    ensures too_deep { (t : ℕ) → result ≡ Err (errors.TooDeep t) → FirstDeep (toks tokens.now) t }
{
    answered(tokens, read_unit(alloc, 199, tokens))
}
