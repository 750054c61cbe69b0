// The first pass: labels, and the first that stands twice.
ghost use Rattle.std.specs.Prelude.{◌≡◌, IfOk, OnOk, []};
ghost use Rattle.assembler.specs.Faults.{label_in, twice_from};
ghost use Rattle.assembler.specs.inner.Survey.{collected, has_item, or_twice, with_item};

use crate::labels::Labels;
use crate::sizes::item_size;
use asm_items::AsmItem;
use kit_base::Memory;
use std::alloc::Global;

/// The labels of a program, the first of each name, and the number of the first label, counted from 1,
/// that stands twice.
#[derive(Drop)]
pub struct Survey<'a> {
    pub labels: Labels<'a>,
    pub twice: Option<u64>,
}

impl<'a> Survey<'a> {
    /// Takes an item, of that number and at that address.
    fn take(&mut self, item: &'a AsmItem, number: u64, address: u64) -> Result<(), Memory>
        ensures labels { OnOk result (self.new.labels ≡ with_item self.old.labels (label_in item.now) address) }
        ensures twice { OnOk result (self.new.twice ≡ or_twice self.old.twice (has_item self.old.labels (label_in item.now)) number) }
    {
        match item {
            AsmItem::Label(name) => {
                let added = self.labels.add(name, address)?;
                if !added && self.twice.is_none() {
                    self.twice = Some(number);
                }
                Ok(())
            }
            AsmItem::Op(_) | AsmItem::Integer(_) | AsmItem::Pointer(_) => Ok(()),
        }
    }
}

/// The address of the first item.
pub const BASE: u64 = 0x2000_0000;

/// The survey of a program.
#[tactic(auto, using(crate::proofs::Walking::walking))]
pub fn surveyed<'a>(alloc: Global, items: &'a [AsmItem]) -> Result<Survey<'a>, Memory>
    ensures labels { IfOk result (λ s. s.labels ≡ collected 0x20000000 [] items.now) }
    ensures twice { IfOk result (λ s. s.twice ≡ twice_from 1 [] items.now) }
{
    let _count = items.len();
    let mut survey = Survey {
        labels: Labels::new(alloc),
        twice: None,
    };
    let mut number: u64 = 0;
    let mut address: u64 = BASE;
    let mut rest = items;
    'each: while let Some((item, after)) = rest.split_first() {
        number += 1;
        survey.take(item, number, address)?;
        address += item_size(item);
        rest = after;
    }
    Ok(survey)
}
