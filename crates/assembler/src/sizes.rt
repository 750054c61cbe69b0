// The sizes of items in words.
ghost use Rattle.std.specs.Prelude.{◌≡◌, ◌≤◌, length};
ghost use Rattle.v32_isa.specs.Table.{spelling};
ghost use Rattle.asm_items.specs.Items.{instr_with};
ghost use Rattle.asm_items.specs.Words.{imm_word};
ghost use Rattle.assembler.specs.Placed.{item_size};
ghost use Rattle.assembler.specs.Faults.{past_from};

use crate::naming::has_immediate;
use asm_items::{AsmItem, Imm};
use v32_isa::Instr;

/// The greatest number of words of a program.
pub const MOST_WORDS: u64 = 33_554_432;

/// The number of an instruction's words.
#[tactic(auto, using(crate::proofs::ItemSizes::op_size))]
fn instr_size(i: &Instr<Imm>) -> u64
    ensures value { result ≡ length (spelling (instr_with (imm_word (λ name. 0)) i.now)) }
    ensures range { result ≤ 2 }
{
    if has_immediate(i) { 2 } else { 1 }
}

/// The number of an item's words.
pub fn item_size(item: &AsmItem) -> u64
    ensures value { result ≡ item_size item.now }
    ensures range { result ≤ 2 }
{
    match item {
        AsmItem::Label(_) => 0,
        AsmItem::Op(i) => instr_size(i),
        AsmItem::Integer(_) | AsmItem::Pointer(_) => 1,
    }
}

/// The number of the first item, counted from 1, that ends past the greatest number of words.
#[tactic(auto, using(crate::proofs::Walking::past_here, crate::proofs::Walking::past_on, crate::proofs::Walking::past_done))]
pub fn first_past(items: &[AsmItem]) -> Option<u64>
    ensures { result ≡ past_from 1 0 items.now }
{
    let _count = items.len();
    let mut number: u64 = 0;
    let mut words: u64 = 0;
    let mut rest = items;
    'each: while let Some((item, after)) = rest.split_first() {
        number += 1;
        words += item_size(item);
        if words > MOST_WORDS {
            return Some(number);
        }
        rest = after;
    }
    None
}
