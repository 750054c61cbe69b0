// What stands for the words of a program while its labels have no addresses yet.
ghost use Rattle.std.specs.Prelude.{◌≡◌, ◌++◌, IfOk, OnOk};
ghost use Rattle.asm_items.specs.declared.item.AsmItem.TheVariants.{Op};
ghost use Rattle.assembler.specs.inner.Parts.{item_parts};

use crate::naming::immediate;
use asm_items::{AsmItem, Imm, Immediates, instr_with};
use either::Either;
use kit_base::Memory;
use v32_isa::{Instr, encode};

/// What takes the place of immediates while no label has an address: their words, or 0 for a label.
struct Unplaced;

impl Immediates<Imm, u32> for Unplaced {
    ghost use Rattle.asm_items.specs.Words.{imm_word};

    ghost can_place = { λ u. Unit {0} };

    ghost placed = { λ u. imm_word (λ name. 0) };

    fn placed(&self, imm: &Imm) -> u32 {
        match imm {
            Either::Left(word) => *word,
            Either::Right(_) => 0,
        }
    }
}

/// An immediate once more. The error is want of memory.
fn copied(imm: &Imm) -> Result<Imm, Memory>
    ensures { IfOk result (λ i. i ≡ imm.now) }
{
    match imm {
        Either::Left(word) => Ok(Either::Left(*word)),
        Either::Right(name) => Ok(Either::Right(name.copy()?)),
    }
}

/// Adds the first word of an instruction, and its immediate where it has one.
#[tactic(auto, using(crate::proofs::Parted::op_parts))]
fn put_instr(parts: &mut Vec<Imm>, i: &Instr<Imm>) -> Result<(), Memory>
    ensures { OnOk result (parts.new.items ≡ parts.old.items ++ item_parts (Op i.now)) }
{
    let encoded = encode(&instr_with(&Unplaced, i));
    parts.push(Either::Left(encoded.first))?;
    if let Some(imm) = immediate(i) {
        parts.push(copied(imm)?)?;
    }
    Ok(())
}

/// Adds what stands for the words of an item.
pub fn put_parts(parts: &mut Vec<Imm>, item: &AsmItem) -> Result<(), Memory>
    ensures { OnOk result (parts.new.items ≡ parts.old.items ++ item_parts item.now) }
{
    match item {
        AsmItem::Label(_) => Ok(()),
        AsmItem::Op(i) => put_instr(parts, i),
        AsmItem::Integer(word) => {
            parts.push(Either::Left(*word))?;
            Ok(())
        }
        AsmItem::Pointer(name) => {
            parts.push(Either::Right(name.copy()?))?;
            Ok(())
        }
    }
}
