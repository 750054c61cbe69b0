// Words brought into registers, and laid at places.
ghost use Rattle.std.specs.Prelude.{◌≡◌, ◌++◌, ◌∷◌, ◌<◌, [], OnOk};
ghost use Rattle.asm_items.specs.declared.item.AsmItem.TheVariants as item;
ghost use Rattle.asm_laws.specs.Operations.{fetch, keep, fetches, keeps, keeps_some, hand, brings, takes, aim, lays};
ghost use Rattle.asm_laws.specs.Pieces.{register, is_in};
ghost use Rattle.asm_emit.specs.inner.View.{frame};

use crate::scope::{Scope, slot_word};
use asm_items::{AsmItem, Imm};
use either::Either;
use kit_base::Memory;
use mid_code::Where;
use v32_isa::{Instr, Mov, Reg};

/// The register of a number.
pub(crate) fn register(r: u32) -> Reg
    ensures { result ≡ register r }
{
    Reg::at(r % 16)
}

/// Adds an instruction.
pub(crate) fn op(out: &mut Vec<AsmItem>, i: Instr<Imm>) -> Result<(), Memory>
    ensures { OnOk result (out.new.items ≡ out.old.items ++ item.Op i ∷ []) }
{
    out.push(AsmItem::Op(i))?;
    Ok(())
}

pub(crate) fn fetch(s: &Scope<'_>, p: Where, r: Reg) -> Instr<Imm>
    ensures { result ≡ fetch (frame s.now) p r }
{
    match p {
        Where::Reg(q) => Instr::Mov(Mov::RegReg(r, register(q))),
        Where::Slot(k) => Instr::Mov(Mov::RegAtOff(r, Reg::at(15), Either::Left(slot_word(s, k)))),
    }
}

pub(crate) fn keep(s: &Scope<'_>, p: Where, r: Reg) -> Instr<Imm>
    ensures { result ≡ keep (frame s.now) p r }
{
    match p {
        Where::Reg(q) => Instr::Mov(Mov::RegReg(register(q), r)),
        Where::Slot(k) => Instr::Mov(Mov::AtOffReg(Reg::at(15), Either::Left(slot_word(s, k)), r)),
    }
}

/// Register r takes the word of a place.
pub(crate) fn fetches(out: &mut Vec<AsmItem>, s: &Scope<'_>, p: Where, r: u32) -> Result<(), Memory>
    requires { r < 16 }
    ensures { OnOk result (out.new.items ≡ out.old.items ++ fetches (frame s.now) p r ∷ []) }
{
    op(out, fetch(s, p, Reg::at(r)))
}

/// A place takes the word of register 9.
pub(crate) fn keeps(out: &mut Vec<AsmItem>, s: &Scope<'_>, t: Where) -> Result<(), Memory>
    ensures { OnOk result (out.new.items ≡ out.old.items ++ keeps (frame s.now) t ∷ []) }
{
    op(out, keep(s, t, Reg::at(9)))
}

pub(crate) fn keeps_some(
    out: &mut Vec<AsmItem>,
    s: &Scope<'_>,
    t: Option<Where>,
) -> Result<(), Memory>
    ensures { OnOk result (out.new.items ≡ out.old.items ++ keeps_some (frame s.now) t) }
{
    match t {
        Some(t) => keeps(out, s, t),
        None => Ok(()),
    }
}

/// Whether a place is that register.
pub(crate) fn is_in(p: Where, r: Reg) -> bool
    ensures { result ≡ is_in p r }
{
    match p {
        Where::Reg(q) => register(q).number() == r.number(),
        Where::Slot(_) => false,
    }
}

/// The register in which the word of a place is at hand: its own, else register r.
pub(crate) fn hand(p: Where, r: u32) -> Reg
    requires { r < 16 }
    ensures { result ≡ hand p r }
{
    match p {
        Where::Reg(q) => register(q),
        Where::Slot(_) => Reg::at(r),
    }
}

/// Brings the word of a place there.
pub(crate) fn brings(out: &mut Vec<AsmItem>, s: &Scope<'_>, p: Where, r: u32) -> Result<(), Memory>
    requires { r < 16 }
    ensures { OnOk result (out.new.items ≡ out.old.items ++ brings (frame s.now) p r) }
{
    match p {
        Where::Reg(_) => Ok(()),
        Where::Slot(_) => fetches(out, s, p, r),
    }
}

/// A register takes the word of a place, where it is not that place.
pub(crate) fn takes(out: &mut Vec<AsmItem>, s: &Scope<'_>, p: Where, r: Reg) -> Result<(), Memory>
    ensures { OnOk result (out.new.items ≡ out.old.items ++ takes (frame s.now) p r) }
{
    if is_in(p, r) {
        Ok(())
    } else {
        op(out, fetch(s, p, r))
    }
}

/// The register in which a word for a place is made: its own, else register 9.
pub(crate) fn aim(t: Where) -> Reg
    ensures { result ≡ aim t }
{
    match t {
        Where::Reg(q) => register(q),
        Where::Slot(_) => Reg::at(9),
    }
}

/// Lays a word that was made there at its place.
pub(crate) fn lays(out: &mut Vec<AsmItem>, s: &Scope<'_>, t: Where) -> Result<(), Memory>
    ensures { OnOk result (out.new.items ≡ out.old.items ++ lays (frame s.now) t) }
{
    match t {
        Where::Reg(_) => Ok(()),
        Where::Slot(_) => keeps(out, s, t),
    }
}
