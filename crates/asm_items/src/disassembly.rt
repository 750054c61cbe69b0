// Words taken apart into items.
ghost use Rattle.std.specs.Prelude.{◌≡◌, drop, slice_get, IfOk};
ghost use Rattle.v32_isa.specs.Decoding.{decoded};
ghost use Rattle.asm_items.specs.Disassembled.{after_first, disassembled, first_item, has_immediate};

use crate::immediates::{Immediates, instr_with};
use crate::item::{AsmItem, Imm};
use either::Either;
use kit_base::Memory;
use std::alloc::Global;
use v32_isa::{Instr, decode, encode};

/// The words of a text for the words of an instruction.
struct Literals;

impl Immediates<u32, Imm> for Literals {
    ghost use Rattle.std.specs.Prelude.{⊤};
    ghost use Rattle.asm_items.specs.Items.{literal};

    ghost can_place = { λ s. ⊤ };

    ghost placed = { λ s. literal };

    fn placed(&self, imm: &u32) -> Imm {
        Either::Left(*imm)
    }
}

/// Whether the spelling of an instruction has a second word.
fn has_immediate(i: &Instr<u32>) -> bool
    ensures { result ≡ has_immediate i.now }
{
    encode(i).second.is_some()
}

/// The words after the first, less the immediate of the instruction.
fn words_after<'a>(found: &Option<Instr<u32>>, after: &'a [u32]) -> &'a [u32]
    ensures { result.now ≡ after_first found.now after.now }
{
    let Some(i) = found else {
        return after;
    };
    if has_immediate(i) {
        less_first(after)
    } else {
        after
    }
}

/// The words less the first.
fn less_first(words: &[u32]) -> &[u32]
    ensures { result.now ≡ drop 1 words.now }
{
    match words.split_first() {
        Some((_, rest)) => rest,
        None => words,
    }
}

/// The instruction that a word begins, with the words after it.
fn instruction_at(word: u32, after: &[u32]) -> Option<Instr<u32>>
    ensures { result ≡ decoded word (slice_get after.now 0) }
{
    decode(word, after.first().copied())
}

/// The item of a word, with the instruction that it begins.
fn first_item(word: u32, found: &Option<Instr<u32>>) -> AsmItem
    ensures { result ≡ first_item word found.now }
{
    match found {
        Some(i) => AsmItem::Op(instr_with(&Literals, i)),
        None => AsmItem::Integer(word),
    }
}

/// The items that the words spell: from the first word on, the instruction that the next one or two
/// words spell, else the datum of one word. The error is want of memory.
#[tactic(auto, using(crate::proofs::Disassembling::go_on, crate::proofs::Disassembling::ended))]
pub fn disassemble(alloc: Global, words: &[u32]) -> Result<Vec<AsmItem>, Memory>
    ensures { IfOk result (λ v. v.items ≡ disassembled words.now) }
{
    let mut items = Vec::new(alloc);
    let mut rest = words;
    'each: while let Some((word, after)) = rest.split_first() {
        let found = instruction_at(*word, after);
        rest = words_after(&found, after);
        items.push(first_item(*word, &found))?;
    }
    Ok(items)
}
