// A program with its words and its labels.
ghost use Rattle.std.specs.Prelude.{◌≡◌, ◌≤◌, ◌++◌, IfOk, OnOk};
ghost use Rattle.assembler.specs.Placed.{label_at, labels_from};
ghost use Rattle.assembler.specs.Sizes.{total_size};

use crate::sizes::item_size;
use asm_items::AsmItem;
use kit_base::{Memory, Name, Seq};
use std::alloc::Global;

/// The words of a program, the first at address 0x20000000, and its labels with their addresses, in
/// the order in which they stand.
#[derive(Drop)]
pub struct Placement {
    pub words: Seq<u32>,
    pub labels: Seq<(Name, u32)>,
}

/// Adds the label that an item is, with its address.
pub fn put_label(labels: &mut Vec<(Name, u32)>, item: &AsmItem, address: u32) -> Result<(), Memory>
    ensures { OnOk result (labels.new.items ≡ labels.old.items ++ label_at address item.now) }
{
    match item {
        AsmItem::Label(name) => {
            labels.push((name.copy()?, address))?;
            Ok(())
        }
        AsmItem::Op(_) | AsmItem::Integer(_) | AsmItem::Pointer(_) => Ok(()),
    }
}

/// The labels of the items with their addresses.
#[tactic(auto, using(crate::proofs::Walking::labels_on, crate::proofs::Walking::labels_done, crate::proofs::Walking::room))]
pub fn labels_of(alloc: Global, items: &[AsmItem]) -> Result<Vec<(Name, u32)>, Memory>
    requires { total_size items.now ≤ 33554432 }
    ensures { IfOk result (λ v. v.items ≡ labels_from 0x20000000 items.now) }
{
    let mut labels = Vec::new(alloc);
    let mut address: u32 = 0x2000_0000;
    let mut rest = items;
    'each: while let Some((item, after)) = rest.split_first() {
        put_label(&mut labels, item, address)?;
        address += item_size(item) as u32;
        rest = after;
    }
    Ok(labels)
}
