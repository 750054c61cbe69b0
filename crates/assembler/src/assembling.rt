// Items to words.
ghost use Rattle.std.specs.Prelude.{◌≡◌, ◌≤◌, IfErr, IfOk, OnOk, None, [], length};
ghost use Rattle.assembler.specs.Placed.{Placed};
ghost use Rattle.kit_base.specs.Gives.{IfCause};
ghost use Rattle.assembler.specs.Faults.{IsRefusal, fault_at, fault_of, naming_fault, or_past, twice_from};
ghost use Rattle.assembler.specs.inner.Survey.{collected};

use crate::naming::first_unknown;
use crate::placement::{Placement, labels_of};
use crate::resolving::words_of_items;
use crate::sizes::first_past;
use crate::survey::{Survey, surveyed};
use asm_items::AsmItem;
use asm_reader::{AsmErr, AsmFault};
use kit_base::Seq;
use std::alloc::Global;

fn fault_at(code: u32, item: u64) -> AsmFault
    ensures { result ≡ fault_at code item }
{
    AsmFault { code, at: item }
}

/// A label that stands twice or one that is unknown: the first faulty item decides.
fn naming_fault(twice: Option<u64>, unknown: Option<u64>) -> Option<AsmFault>
    ensures { result ≡ naming_fault twice unknown }
{
    match (twice, unknown) {
        (None, None) => None,
        (Some(twice), None) => Some(fault_at(64, twice)),
        (None, Some(unknown)) => Some(fault_at(65, unknown)),
        (Some(twice), Some(unknown)) if twice < unknown => Some(fault_at(64, twice)),
        (Some(_), Some(unknown)) => Some(fault_at(65, unknown)),
    }
}

/// The fault of the names, else that of the size.
fn or_past(naming: Option<AsmFault>, past: Option<u64>) -> Option<AsmFault>
    ensures { result ≡ or_past naming past }
{
    match naming {
        Some(fault) => Some(fault),
        None => Some(fault_at(66, past?)),
    }
}

/// The first fault of the items that were surveyed.
#[tactic(auto, using(crate::proofs::Whole::fault_is))]
fn fault_of(survey: &Survey<'_>, items: &[AsmItem]) -> Option<AsmFault>
    requires labels { survey.now.labels ≡ collected 0x20000000 [] items.now }
    requires twice { survey.now.twice ≡ twice_from 1 [] items.now }
    ensures { result ≡ fault_of items.now }
{
    let unknown = first_unknown(&survey.labels, items);
    or_past(naming_fault(survey.twice, unknown), first_past(items))
}

/// The words of the items, each label being the address of the item after it, and the labels. Refused
/// are, with the number of the first faulty item, counted from 1: 64 a label that stands twice and
/// 65 a label that is unknown; then 66 more than 33,554,432 words, at the first item that ends past
/// that. Want of memory is the one other error.
#[tactic(auto, using(crate::proofs::Whole::are_addresses, crate::proofs::Whole::within, crate::proofs::Whole::placed, crate::proofs::Whole::few_words))]
pub fn assemble(alloc: Global, items: &[AsmItem]) -> Result<Placement, AsmErr>
    ensures placed { IfOk result (λ p. Placed items.now p.words p.labels) }
    ensures faultless { OnOk result (fault_of items.now ≡ None) }
    ensures few { IfOk result (λ p. length p.words ≤ 33554432) }
    ensures refused { IfErr result (IfCause (IsRefusal items.now)) }
{
    let survey = surveyed(alloc, items)?;
    if let Some(fault) = fault_of(&survey, items) {
        return Err(AsmErr::Cause(fault));
    }
    let words = words_of_items(alloc, &survey.labels, items)?;
    let labels = labels_of(alloc, items)?;
    Ok(Placement {
        words: Seq::from_vec(words),
        labels: Seq::from_vec(labels),
    })
}
