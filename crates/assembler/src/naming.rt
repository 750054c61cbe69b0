// The labels that items name.
ghost use Rattle.std.specs.Prelude.{◌≡◌, is_some, option_map};
ghost use Rattle.either.specs.Either.{right};
ghost use Rattle.assembler.specs.Naming.{immediate, is_known, mov_immediate, named_in, src_immediate};
ghost use Rattle.assembler.specs.Faults.{unknown_from};

use crate::labels::Labels;
use asm_items::{AsmItem, Imm};
use either::Either;
use kit_base::Name;
use v32_isa::{Instr, Mov, Src};

fn src_immediate(s: &Src<Imm>) -> Option<&Imm>
    ensures { option_map (λ i. i.now) result ≡ src_immediate s.now }
{
    match s {
        Src::Imm(i) => Some(i),
        Src::Reg(_) => None,
    }
}

fn mov_immediate(m: &Mov<Imm>) -> Option<&Imm>
    ensures { option_map (λ i. i.now) result ≡ mov_immediate m.now }
{
    match m {
        Mov::RegImm(_, i)
        | Mov::RegAt(_, i)
        | Mov::RegAtOff(_, _, i)
        | Mov::AtReg(i, _)
        | Mov::AtOffReg(_, i, _) => Some(i),
        Mov::RegReg(_, _) | Mov::RegAtReg(_, _) | Mov::AtRegReg(_, _) => None,
    }
}

/// The immediate of an instruction, where it has one.
pub fn immediate(i: &Instr<Imm>) -> Option<&Imm>
    ensures { option_map (λ i. i.now) result ≡ immediate i.now }
{
    match i {
        Instr::Go(_, s) | Instr::Branch(_, _, s) | Instr::Two(_, _, s) | Instr::Out(_, s) => {
            src_immediate(s)
        }
        Instr::Mov(m) => mov_immediate(m),
        Instr::Lea(_, _, Some(i)) => Some(i),
        Instr::Lea(_, _, None) | Instr::Plain(_) | Instr::One(_, _) | Instr::In(_, _) => None,
    }
}

/// Whether an instruction has an immediate.
pub fn has_immediate(i: &Instr<Imm>) -> bool
    ensures { result ≡ is_some (immediate i.now) }
{
    immediate(i).is_some()
}

/// The label that an immediate names.
fn name_in(imm: &Imm) -> Option<&Name>
    ensures { option_map (λ n. n.now) result ≡ right imm.now }
{
    match imm {
        Either::Left(_) => None,
        Either::Right(name) => Some(name),
    }
}

/// The label whose address an item takes.
fn named_in(item: &AsmItem) -> Option<&Name>
    ensures { option_map (λ n. n.now) result ≡ named_in item.now }
{
    match item {
        AsmItem::Op(i) => name_in(immediate(i)?),
        AsmItem::Pointer(name) => Some(name),
        AsmItem::Label(_) | AsmItem::Integer(_) => None,
    }
}

/// Whether an item takes no label's address, or that of one of these.
fn is_known(labels: &Labels<'_>, item: &AsmItem) -> bool
    ensures { result ≡ is_known labels.now item.now }
{
    match named_in(item) {
        Some(name) => labels.has(name),
        None => true,
    }
}

/// The number of the first item, counted from 1, that takes the address of what is none of these labels.
#[tactic(auto, using(crate::proofs::Walking::unknown_here, crate::proofs::Walking::unknown_on, crate::proofs::Walking::unknown_done))]
pub fn first_unknown(labels: &Labels<'_>, items: &[AsmItem]) -> Option<u64>
    ensures { result ≡ unknown_from 1 labels.now items.now }
{
    let _count = items.len();
    let mut number: u64 = 0;
    let mut rest = items;
    'each: while let Some((item, after)) = rest.split_first() {
        number += 1;
        if !is_known(labels, item) {
            return Some(number);
        }
        rest = after;
    }
    None
}
