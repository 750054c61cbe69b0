// Data: integers, texts and pointers.
ghost use Rattle.std.specs.Prelude.{◌≡◌, ◌++◌, ◌∷◌, [], IfOk, OnOk, map};
ghost use Rattle.std.specs.List.{list_all};
ghost use Rattle.asm_items.specs.declared.item.AsmItem.TheVariants.{Integer};
ghost use Rattle.asm_reader.specs.Faults.{Puts};
ghost use Rattle.asm_reader.specs.Lines.{data_items, integer_of, integers, is_name, is_number, pointer_of, pointers, text_items};

use crate::fault::{LineErr, LineFault};
use crate::form::{all_fit, word_of};
use crate::operand::operands_of;
use crate::token::Token;
use crate::value::{Value, Written};
use asm_items::{AsmItem, DataWord};
use kit_base::{Memory, Name};
use std::alloc::Global;

fn is_number(written: &Written) -> bool
    ensures { result ≡ is_number written.now }
{
    match written {
        Written::Value(Value::Number(_, _)) => true,
        _ => false,
    }
}

fn all_numbers(operands: &[Written]) -> bool
    ensures { result ≡ list_all is_number operands.now }
{
    operands.iter().all(|x| is_number(x))
}

fn integer_of(written: &Written) -> AsmItem
    ensures { result ≡ integer_of written.now }
{
    match written {
        Written::Value(Value::Number(negative, magnitude)) => {
            match word_of(*negative, *magnitude) {
                Some(n) => AsmItem::Integer(n),
                None => AsmItem::Integer(0),
            }
        }
        _ => AsmItem::Integer(0),
    }
}

/// Adds an integer for each operand.
fn put_words(items: &mut Vec<AsmItem>, operands: &[Written]) -> Result<(), Memory>
    ensures { OnOk result (items.new.items ≡ items.old.items ++ map integer_of operands.now) }
{
    for operand in operands {
        items.push(integer_of(operand))?;
    }
    Ok(())
}

/// Adds the integers of an `integer` line.
#[tactic(auto, unfolding(crate::specs::Lines::integers))]
fn put_integers(items: &mut Vec<AsmItem>, operands: &[Written]) -> Result<(), LineErr>
    ensures { Puts items.old.items items.new.items result (integers operands.now) }
{
    if !(operands.len() > 0 && all_numbers(operands)) {
        return Err(LineErr::Cause(LineFault::BadLine));
    }
    if !all_fit(operands) {
        return Err(LineErr::Cause(LineFault::NumberTooLarge));
    }
    put_words(items, operands)?;
    Ok(())
}

fn is_name(written: &Written) -> bool
    ensures { result ≡ is_name written.now }
{
    match written {
        Written::Value(Value::Label(_)) => true,
        _ => false,
    }
}

fn all_names(operands: &[Written]) -> bool
    ensures { result ≡ list_all is_name operands.now }
{
    operands.iter().all(|x| is_name(x))
}

fn pointer_of(alloc: Global, written: &Written) -> Result<AsmItem, Memory>
    ensures { IfOk result (λ i. i ≡ pointer_of written.now) }
{
    match written {
        Written::Value(Value::Label(name)) => Ok(AsmItem::Pointer(name.copy()?)),
        _ => Ok(AsmItem::Pointer(Name::new(alloc, "")?)),
    }
}

/// Adds a pointer for each operand.
fn put_names(alloc: Global, items: &mut Vec<AsmItem>, operands: &[Written]) -> Result<(), Memory>
    ensures { OnOk result (items.new.items ≡ items.old.items ++ map pointer_of operands.now) }
{
    for operand in operands {
        items.push(pointer_of(alloc, operand)?)?;
    }
    Ok(())
}

/// Adds the pointers of a `pointer` line.
#[tactic(auto, unfolding(crate::specs::Lines::pointers))]
fn put_pointers(
    alloc: Global,
    items: &mut Vec<AsmItem>,
    operands: &[Written],
) -> Result<(), LineErr>
    ensures { Puts items.old.items items.new.items result (pointers operands.now) }
{
    if !(operands.len() > 0 && all_names(operands)) {
        return Err(LineErr::Cause(LineFault::BadLine));
    }
    put_names(alloc, items, operands)?;
    Ok(())
}

/// Adds an integer for each byte.
fn put_bytes(items: &mut Vec<AsmItem>, bytes: &[u8]) -> Result<(), Memory>
    ensures { OnOk result (items.new.items ≡ items.old.items ++ map Integer bytes.now) }
{
    for b in bytes {
        items.push(AsmItem::Integer(u32::from(*b)))?;
    }
    Ok(())
}

/// Adds an integer for each byte, and a 0.
fn put_text(items: &mut Vec<AsmItem>, bytes: &[u8]) -> Result<(), Memory>
    ensures { OnOk result (items.new.items ≡ items.old.items ++ (map Integer bytes.now ++ Integer 0 ∷ [])) }
{
    put_bytes(items, bytes)?;
    items.push(AsmItem::Integer(0))?;
    Ok(())
}

/// Adds the words of a `string` line.
#[tactic(auto, unfolding(crate::specs::Lines::text_items))]
fn put_string(items: &mut Vec<AsmItem>, tokens: &[Token]) -> Result<(), LineErr>
    ensures { Puts items.old.items items.new.items result (text_items tokens.now) }
{
    let Some((first, rest)) = tokens.split_first() else {
        return Err(LineErr::Cause(LineFault::BadLine));
    };
    if rest.len() > 0 {
        return Err(LineErr::Cause(LineFault::BadLine));
    }
    match first {
        Token::Text(bytes) => {
            put_text(items, bytes.as_slice())?;
            Ok(())
        }
        _ => Err(LineErr::Cause(LineFault::BadLine)),
    }
}

/// Adds the data of a line.
#[tactic(auto, unfolding(crate::specs::Lines::data_items))]
pub fn put_data(
    alloc: Global,
    items: &mut Vec<AsmItem>,
    word: DataWord,
    tokens: &[Token],
) -> Result<(), LineErr>
    ensures { Puts items.old.items items.new.items result (data_items word tokens.now) }
{
    match word {
        DataWord::Integers => {
            let operands = operands_of(alloc, tokens)?;
            put_integers(items, &operands)
        }
        DataWord::Pointers => {
            let operands = operands_of(alloc, tokens)?;
            put_pointers(alloc, items, &operands)
        }
        DataWord::Text => put_string(items, tokens),
    }
}
