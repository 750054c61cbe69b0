// The operands of a line.
ghost use Rattle.std.specs.Prelude.{◌≡◌, ◌∷◌, ◌<◌, ◌≤◌, [], length, not, IfSome};
ghost use Rattle.std.specs.List.{take_while};
ghost use Rattle.std.specs.Option.{option_map_or};
ghost use Rattle.kit_base.specs.Gives.{Gives};
ghost use Rattle.asm_reader.specs.Operands.{added_to, bracketed, inside_one, inside_three, inside_two, is_close, is_comma, is_open, joined_to};
ghost use Rattle.asm_reader.specs.Operands.{operand, operands_in, operands_of, plain, signed_to, taken_from};
ghost use Rattle.asm_reader.specs.Parted.{parted};

use crate::fault::{LineErr, LineFault};
use crate::token::Token;
use crate::value::{Value, Written};
use std::alloc::Global;
use v32_isa::Reg;

pub fn is_comma(token: &Token) -> bool
    ensures { result ≡ is_comma token.now }
{
    match token {
        Token::Comma => true,
        _ => false,
    }
}

fn is_open(token: &Token) -> bool
    ensures { result ≡ is_open token.now }
{
    match token {
        Token::Open => true,
        _ => false,
    }
}

fn is_close(token: &Token) -> bool
    ensures { result ≡ is_close token.now }
{
    match token {
        Token::Close => true,
        _ => false,
    }
}

/// An operand of one token.
#[tactic(auto, unfolding(crate::specs::Operands::plain))]
fn plain(token: &Token) -> Result<Written, LineErr>
    ensures { Gives (λ x. x) result (plain token.now) }
{
    match token {
        Token::Register(a) => Ok(Written::Register(*a)),
        Token::Port(p) => Ok(Written::Port(*p)),
        Token::Number(negative, magnitude) => {
            Ok(Written::Value(Value::Number(*negative, *magnitude)))
        }
        Token::Label(name) => Ok(Written::Value(Value::Label(name.copy()?))),
        _ => Err(LineErr::Cause(LineFault::BadLine)),
    }
}

/// One token between brackets.
#[tactic(auto, unfolding(crate::specs::Operands::inside_one))]
fn inside_one(token: &Token) -> Result<Written, LineErr>
    ensures { Gives (λ x. x) result (inside_one token.now) }
{
    match token {
        Token::Register(b) => Ok(Written::AtRegister(*b)),
        Token::Number(negative, magnitude) => {
            Ok(Written::AtValue(Value::Number(*negative, *magnitude)))
        }
        Token::Label(name) => Ok(Written::AtValue(Value::Label(name.copy()?))),
        _ => Err(LineErr::Cause(LineFault::BadLine)),
    }
}

/// A register and a number directly behind its `-`.
#[tactic(auto, unfolding(crate::specs::Operands::inside_two))]
fn inside_two(register: &Token, offset: &Token) -> Result<Written, LineErr>
    ensures { Gives (λ x. x) result (inside_two register.now offset.now) }
{
    match register {
        Token::Register(b) => joined_to(*b, offset),
        _ => Err(LineErr::Cause(LineFault::BadLine)),
    }
}

fn joined_to(b: Reg, offset: &Token) -> Result<Written, LineErr>
    ensures { Gives (λ x. x) result (joined_to b offset.now) }
{
    match offset {
        Token::Number(true, magnitude) => Ok(Written::AtOffset(b, Value::Number(true, *magnitude))),
        _ => Err(LineErr::Cause(LineFault::BadLine)),
    }
}

fn added_to(b: Reg, offset: &Token) -> Result<Written, LineErr>
    ensures { Gives (λ x. x) result (added_to b offset.now) }
{
    match offset {
        Token::Number(negative, magnitude) => {
            Ok(Written::AtOffset(b, Value::Number(*negative, *magnitude)))
        }
        Token::Label(name) => Ok(Written::AtOffset(b, Value::Label(name.copy()?))),
        _ => Err(LineErr::Cause(LineFault::BadLine)),
    }
}

fn taken_from(b: Reg, offset: &Token) -> Result<Written, LineErr>
    ensures { Gives (λ x. x) result (taken_from b offset.now) }
{
    match offset {
        Token::Number(negative, magnitude) => {
            Ok(Written::AtOffset(b, Value::Number(!*negative, *magnitude)))
        }
        _ => Err(LineErr::Cause(LineFault::BadLine)),
    }
}

fn signed_to(b: Reg, sign: &Token, offset: &Token) -> Result<Written, LineErr>
    ensures { Gives (λ x. x) result (signed_to b sign.now offset.now) }
{
    match sign {
        Token::Plus => added_to(b, offset),
        Token::Minus => taken_from(b, offset),
        _ => Err(LineErr::Cause(LineFault::BadLine)),
    }
}

/// A register, a sign, and a number or a label.
#[tactic(auto, unfolding(crate::specs::Operands::inside_three))]
fn inside_three(register: &Token, sign: &Token, offset: &Token) -> Result<Written, LineErr>
    ensures { Gives (λ x. x) result (inside_three register.now sign.now offset.now) }
{
    match register {
        Token::Register(b) => signed_to(*b, sign, offset),
        _ => Err(LineErr::Cause(LineFault::BadLine)),
    }
}

/// Behind two tokens in brackets, the rest.
#[tactic(auto, unfolding(crate::specs::Operands::bracketed))]
fn after_two(first: &Token, second: &Token, rest: &[Token]) -> Result<Written, LineErr>
    ensures { Gives (λ x. x) result (bracketed (first.now ∷ second.now ∷ rest.now)) }
{
    let Some((third, rest)) = rest.split_first() else {
        return if is_close(second) {
            inside_one(first)
        } else {
            Err(LineErr::Cause(LineFault::BadLine))
        };
    };
    let Some((fourth, rest)) = rest.split_first() else {
        return if is_close(third) {
            inside_two(first, second)
        } else {
            Err(LineErr::Cause(LineFault::BadLine))
        };
    };
    if rest.is_empty() && is_close(fourth) {
        inside_three(first, second, third)
    } else {
        Err(LineErr::Cause(LineFault::BadLine))
    }
}

/// The rest of an operand after its open bracket, up to the closing one at the end.
#[tactic(auto, unfolding(crate::specs::Operands::bracketed))]
fn bracketed(tokens: &[Token]) -> Result<Written, LineErr>
    ensures { Gives (λ x. x) result (bracketed tokens.now) }
{
    let Some((first, rest)) = tokens.split_first() else {
        return Err(LineErr::Cause(LineFault::BadLine));
    };
    let Some((second, rest)) = rest.split_first() else {
        return Err(LineErr::Cause(LineFault::BadLine));
    };
    after_two(first, second, rest)
}

/// The operand that the tokens spell.
#[tactic(auto, unfolding(crate::specs::Operands::operand))]
fn operand(alloc: Global, tokens: &[Token]) -> Result<Written, LineErr>
    ensures { Gives (λ x. x) result (operand tokens.now) }
{
    let Some((first, rest)) = tokens.split_first() else {
        return Err(LineErr::Cause(LineFault::BadLine));
    };
    if rest.is_empty() {
        return plain(first);
    }
    if !is_open(first) {
        return Err(LineErr::Cause(LineFault::BadLine));
    }
    bracketed(rest)
}

/// How many tokens stand before the first comma.
fn part_len(tokens: &[Token]) -> usize
    ensures value { result ≡ length (take_while (λ t. not (is_comma t)) tokens.now) }
    ensures within { result ≤ length tokens.now }
{
    tokens.iter().take_while(|t| !is_comma(t)).count()
}

/// What stands before the first comma, and, where there is one, what stands after it.
#[tactic(auto, using(crate::proofs::Parting::more, crate::proofs::Parting::last, crate::proofs::Parting::shorter))]
fn first_part(tokens: &[Token]) -> (&[Token], Option<&[Token]>)
    ensures parts { parted is_comma tokens.now ≡ result.0.now ∷ option_map_or (λ r. parted is_comma r.now) result.1 [] }
    ensures shorter { IfSome result.1 (λ r. length r.now < length tokens.now) }
{
    let (part, rest) = tokens.split_at(part_len(tokens));
    match rest.split_first() {
        Some((_, after)) => (part, Some(after)),
        None => (part, None),
    }
}

/// The operands parted by commas.
#[tactic(auto, using(crate::proofs::Listing::none_before, crate::proofs::Listing::turn, crate::proofs::Listing::fails, crate::proofs::Listing::ended))]
fn operands_in(alloc: Global, tokens: &[Token]) -> Result<Vec<Written>, LineErr>
    ensures { Gives (λ v. v.items) result (operands_in (parted is_comma tokens.now)) }
{
    let mut written = Vec::new(alloc);
    let mut left = Some(tokens);
    'each: while let Some(rest) = left {
        let (part, after) = first_part(rest);
        match operand(alloc, part) {
            Ok(first) => written.push(first)?,
            Err(e) => return Err(e),
        }
        left = after;
    }
    Ok(written)
}

/// The operands of a line, or none.
#[tactic(auto, unfolding(crate::specs::Operands::operands_of))]
pub fn operands_of(alloc: Global, tokens: &[Token]) -> Result<Vec<Written>, LineErr>
    ensures { Gives (λ v. v.items) result (operands_of tokens.now) }
{
    if tokens.is_empty() {
        return Ok(Vec::new(alloc));
    }
    operands_in(alloc, tokens)
}
