// The words of items, where the labels' addresses are known.
ghost use Rattle.std.specs.Prelude.{◌≡◌, ◌++◌, true, IfOk, OnOk};
ghost use Rattle.v32_isa.specs.Table.{spelling};
ghost use Rattle.asm_items.specs.Words.{item_words, words_of_items};
ghost use Rattle.assembler.specs.Labels.{address_in, are_words};

use crate::labels::Labels;
use asm_items::{AsmItem, Imm, Immediates, instr_with};
use either::Either;
use kit_base::Memory;
use std::alloc::Global;
use v32_isa::{Instr, encode};

/// The words of immediates: an immediate's own, or the address of its label.
impl<'a> Immediates<Imm, u32> for Labels<'a> {
    ghost use Rattle.std.specs.Prelude.{◌≡◌, true};
    ghost use Rattle.asm_items.specs.Words.{imm_word};
    ghost use Rattle.assembler.specs.Labels.{address_in, are_words};

    ghost can_place = { λ labels. are_words labels ≡ true };

    ghost placed = { λ labels. imm_word (address_in labels) };

    fn placed(&self, imm: &Imm) -> u32 {
        match imm {
            Either::Left(word) => *word,
            Either::Right(name) => self.word_of(name),
        }
    }
}

/// Adds the words that spell an instruction.
fn put_instr(words: &mut Vec<u32>, i: &Instr<u32>) -> Result<(), Memory>
    ensures { OnOk result (words.new.items ≡ words.old.items ++ spelling i.now) }
{
    let encoded = encode(i);
    words.push(encoded.first)?;
    if let Some(second) = encoded.second {
        words.push(second)?;
    }
    Ok(())
}

/// Adds the words of an item.
fn put_item(words: &mut Vec<u32>, labels: &Labels<'_>, item: &AsmItem) -> Result<(), Memory>
    requires { are_words labels.now ≡ true }
    ensures { OnOk result (words.new.items ≡ words.old.items ++ item_words (address_in labels.now) item.now) }
{
    match item {
        AsmItem::Label(_) => Ok(()),
        AsmItem::Op(i) => put_instr(words, &instr_with(labels, i)),
        AsmItem::Integer(word) => {
            words.push(*word)?;
            Ok(())
        }
        AsmItem::Pointer(name) => {
            words.push(labels.word_of(name))?;
            Ok(())
        }
    }
}

/// The words of the items one after another.
pub fn words_of_items(
    alloc: Global,
    labels: &Labels<'_>,
    items: &[AsmItem],
) -> Result<Vec<u32>, Memory>
    requires { are_words labels.now ≡ true }
    ensures { IfOk result (λ v. v.items ≡ words_of_items (address_in labels.now) items.now) }
{
    let mut words = Vec::new(alloc);
    'each: for item in items {
        put_item(&mut words, labels, item)?;
    }
    Ok(words)
}
