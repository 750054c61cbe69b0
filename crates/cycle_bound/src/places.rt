// Items as nodes.
ghost use Rattle.std.specs.Prelude.{◌≡◌, IfOk, OnOk, [], map, length};
ghost use Rattle.assembler.specs.Faults.{label_in};
ghost use Rattle.assembler.specs.inner.Survey.{with_item};
ghost use Rattle.cycle_bound.specs.inner.Places.{node_of, place_in, gathered};

use crate::node::{Node, node_of};
use asm_items::AsmItem;
use assembler::Labels;
use kit_base::Memory;
use std::alloc::Global;

/// Notes the label that an item is, with the place behind it.
fn note<'a>(labels: &mut Labels<'a>, item: &'a AsmItem, place: u64) -> Result<(), Memory>
    ensures { OnOk result (labels.new ≡ with_item labels.old (label_in item.now) place) }
{
    match item {
        AsmItem::Label(name) => {
            labels.add(name, place)?;
            Ok(())
        }
        AsmItem::Op(_) | AsmItem::Integer(_) | AsmItem::Pointer(_) => Ok(()),
    }
}

/// The labels with the places behind them. The count is taken for its bound alone, which keeps the places within a word.
#[tactic(auto, using(crate::proofs::Nodes::gather_on, crate::proofs::Nodes::gather_done))]
pub fn labels_of<'a>(alloc: Global, items: &'a [AsmItem]) -> Result<Labels<'a>, Memory>
    ensures { IfOk result (λ l. l ≡ gathered 0 [] items.now) }
{
    let mut labels = Labels::new(alloc);
    let _count = items.len();
    let mut place: u64 = 0;
    let mut rest = items;
    'each: while let Some((item, after)) = rest.split_first() {
        place += 1;
        note(&mut labels, item, place)?;
        rest = after;
    }
    Ok(labels)
}

pub fn nodes_of(alloc: Global, labels: &Labels<'_>, items: &[AsmItem]) -> Result<Vec<Node>, Memory>
    ensures { IfOk result (λ v. v.items ≡ map (node_of (place_in labels.now (length items.now))) items.now) }
{
    let end = items.len() as u64;
    let mut nodes = Vec::with_capacity(alloc, items.len())?;
    for item in items {
        nodes.push(node_of(labels, end, item))?;
    }
    Ok(nodes)
}
