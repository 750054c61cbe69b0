// The lines of a text.
ghost use Rattle.std.specs.Prelude.{◌≡◌, drop};
ghost use Rattle.kit_base.specs.Gives.{Gives};
ghost use Rattle.asm_reader.specs.Faults.{Puts};
ghost use Rattle.asm_reader.specs.Lines.{begins_float, has_label, instruction_of, is_colon, label_items, label_part, line_items, parts_items};
ghost use Rattle.asm_reader.specs.Lines.{statement_items, statement_part};

use crate::datum::put_data;
use crate::fault::{LineErr, LineFault};
use crate::form::instruction;
use crate::operand::operands_of;
use crate::token::Token;
use asm_items::{AsmItem, Imm, Operation};
use std::alloc::Global;
use v32_isa::Instr;

fn is_colon(token: &Token) -> bool
    ensures { result ≡ is_colon token.now }
{
    match token {
        Token::Colon => true,
        _ => false,
    }
}

#[tactic(auto, unfolding(crate::specs::Lines::has_label))]
fn has_label(tokens: &[Token]) -> bool
    ensures { result ≡ has_label tokens.now }
{
    let Some((_, rest)) = tokens.split_first() else {
        return false;
    };
    let Some((second, _)) = rest.split_first() else {
        return false;
    };
    is_colon(second)
}

#[tactic(auto, unfolding(crate::specs::Lines::begins_float))]
fn begins_float(tokens: &[Token]) -> bool
    ensures { result ≡ begins_float tokens.now }
{
    let Some((first, _)) = tokens.split_first() else {
        return false;
    };
    match first {
        Token::Float => true,
        _ => false,
    }
}

fn less_first(tokens: &[Token]) -> &[Token]
    ensures { result.now ≡ drop 1 tokens.now }
{
    match tokens.split_first() {
        Some((_, rest)) => rest,
        None => tokens,
    }
}

fn statement_part(labelled: bool, tokens: &[Token]) -> &[Token]
    ensures { result.now ≡ statement_part labelled tokens.now }
{
    if labelled {
        less_first(less_first(tokens))
    } else {
        tokens
    }
}

/// Adds the label that stands first.
#[tactic(auto, unfolding(crate::specs::Lines::label_items))]
fn put_label(items: &mut Vec<AsmItem>, tokens: &[Token]) -> Result<(), LineErr>
    ensures { Puts items.old.items items.new.items result (label_items tokens.now) }
{
    let Some((first, _)) = tokens.split_first() else {
        return Err(LineErr::Cause(LineFault::BadLine));
    };
    match first {
        Token::Label(name) => {
            items.push(AsmItem::Label(name.copy()?))?;
            Ok(())
        }
        _ => Err(LineErr::Cause(LineFault::BadLine)),
    }
}

fn put_label_part(items: &mut Vec<AsmItem>, labelled: bool, tokens: &[Token]) -> Result<(), LineErr>
    ensures { Puts items.old.items items.new.items result (label_part labelled tokens.now) }
{
    if labelled {
        put_label(items, tokens)
    } else {
        Ok(())
    }
}

fn operation_of(
    alloc: Global,
    operation: Operation,
    tokens: &[Token],
) -> Result<Instr<Imm>, LineErr>
    ensures { Gives (λ x. x) result (instruction_of operation tokens.now) }
{
    let operands = operands_of(alloc, tokens)?;
    instruction(operation, &operands)
}

/// Adds the items of an operation or of data.
#[tactic(auto, unfolding(crate::specs::Lines::statement_items))]
fn put_statement(alloc: Global, items: &mut Vec<AsmItem>, tokens: &[Token]) -> Result<(), LineErr>
    ensures { Puts items.old.items items.new.items result (statement_items tokens.now) }
{
    let Some((first, rest)) = tokens.split_first() else {
        return Ok(());
    };
    match first {
        Token::Operation(operation) => {
            let i = operation_of(alloc, *operation, rest)?;
            items.push(AsmItem::Op(i))?;
            Ok(())
        }
        Token::Data(word) => put_data(alloc, items, *word, rest),
        _ => Err(LineErr::Cause(LineFault::BadLine)),
    }
}

/// Adds the items of a line whose label is known to stand there or not.
#[tactic(auto, using(crate::proofs::Putting::second, crate::proofs::Putting::first_fails), unfolding(crate::specs::Lines::parts_items))]
fn put_parts(
    alloc: Global,
    items: &mut Vec<AsmItem>,
    labelled: bool,
    tokens: &[Token],
) -> Result<(), LineErr>
    ensures { Puts items.old.items items.new.items result (parts_items labelled tokens.now) }
{
    let statement = statement_part(labelled, tokens);
    if begins_float(statement) {
        return Err(LineErr::Cause(LineFault::FloatInstruction));
    }
    put_label_part(items, labelled, tokens)?;
    put_statement(alloc, items, statement)
}

/// Adds the items of a line.
#[tactic(auto, unfolding(crate::specs::Lines::line_items))]
pub fn put_line(alloc: Global, items: &mut Vec<AsmItem>, tokens: &[Token]) -> Result<(), LineErr>
    ensures { Puts items.old.items items.new.items result (line_items tokens.now) }
{
    put_parts(alloc, items, has_label(tokens), tokens)
}
