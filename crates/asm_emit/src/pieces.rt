// Pieces of which the operations are made.
ghost use Rattle.std.specs.Prelude.{◌≡◌, ◌++◌, ◌∷◌, [], OnOk};
ghost use Rattle.asm_laws.specs.Operations.{port, sets, moves, changes, is_direct, in_place, apart, is_turned, turned_or_apart, computes};
ghost use Rattle.asm_laws.specs.Pieces.{turned};
ghost use Rattle.asm_emit.specs.inner.View.{frame};

use crate::hands::{
    aim, brings, fetch, fetches, hand, is_in, keep, keeps, lays, op, register, takes,
};
use crate::scope::Scope;
use asm_items::{AsmItem, Imm};
use kit_base::Memory;
use mid_code::Where;
use v32_isa::{Instr, Mov, One, Port, Reg, Src, Two};

/// The port of a number.
pub(crate) fn port(p: u32) -> Port
    ensures { result ≡ port p }
{
    Port::at(p % 16384)
}

/// A place takes a word.
pub(crate) fn sets(out: &mut Vec<AsmItem>, s: &Scope<'_>, t: Where, i: Imm) -> Result<(), Memory>
    ensures { OnOk result (out.new.items ≡ out.old.items ++ sets (frame s.now) t i) }
{
    op(out, Instr::Mov(Mov::RegImm(aim(t), i)))?;
    lays(out, s, t)
}

/// A place takes the word of a place.
pub(crate) fn moves(out: &mut Vec<AsmItem>, s: &Scope<'_>, t: Where, a: Where) -> Result<(), Memory>
    ensures { OnOk result (out.new.items ≡ out.old.items ++ moves (frame s.now) t a) }
{
    match a {
        Where::Reg(q) => {
            if is_in(t, register(q)) {
                Ok(())
            } else {
                op(out, keep(s, t, register(q)))
            }
        }
        Where::Slot(_) => {
            op(out, fetch(s, a, aim(t)))?;
            lays(out, s, t)
        }
    }
}

/// A place takes the word computed of that of a place.
pub(crate) fn changes(
    out: &mut Vec<AsmItem>,
    s: &Scope<'_>,
    o: One,
    t: Where,
    a: Where,
) -> Result<(), Memory>
    ensures { OnOk result (out.new.items ≡ out.old.items ++ changes (frame s.now) o t a) }
{
    takes(out, s, a, aim(t))?;
    op(out, Instr::One(o, aim(t)))?;
    lays(out, s, t)
}

/// Whether an operator can work in the register of its target: its second word does not stand there.
fn is_direct(t: Where, b: Where) -> bool
    ensures { result ≡ is_direct t b }
{
    match t {
        Where::Reg(q) => !is_in(b, register(q)),
        Where::Slot(_) => false,
    }
}

fn in_place(
    out: &mut Vec<AsmItem>,
    s: &Scope<'_>,
    o: Two,
    m: Reg,
    a: Where,
    b: Where,
) -> Result<(), Memory>
    ensures { OnOk result (out.new.items ≡ out.old.items ++ in_place (frame s.now) o m a b) }
{
    takes(out, s, a, m)?;
    brings(out, s, b, 10)?;
    op(out, Instr::Two(o, m, Src::Reg(hand(b, 10))))
}

fn apart(
    out: &mut Vec<AsmItem>,
    s: &Scope<'_>,
    o: Two,
    t: Where,
    a: Where,
    b: Where,
) -> Result<(), Memory>
    ensures { OnOk result (out.new.items ≡ out.old.items ++ apart (frame s.now) o t a b) }
{
    fetches(out, s, a, 9)?;
    brings(out, s, b, 10)?;
    op(out, Instr::Two(o, Reg::at(9), Src::Reg(hand(b, 10))))?;
    keeps(out, s, t)
}

/// The operator that makes the same of its two words the other way round, where there is one.
pub(crate) fn turned(o: Two) -> Option<Two>
    ensures { result ≡ turned o }
{
    match o {
        Two::IEQ => Some(Two::IEQ),
        Two::INE => Some(Two::INE),
        Two::IGT => Some(Two::ILT),
        Two::IGE => Some(Two::ILE),
        Two::ILT => Some(Two::IGT),
        Two::ILE => Some(Two::IGE),
        Two::AND => Some(Two::AND),
        Two::OR => Some(Two::OR),
        Two::XOR => Some(Two::XOR),
        Two::SHL => None,
        Two::IADD => Some(Two::IADD),
        Two::ISUB => None,
        Two::IMUL => Some(Two::IMUL),
        Two::IDIV => None,
        Two::IMOD => None,
        Two::IMIN => None,
        Two::IMAX => None,
    }
}

/// Whether the second word stands in the register of the target, and the first one does not.
fn is_turned(t: Where, a: Where, b: Where) -> bool
    ensures { result ≡ is_turned t a b }
{
    match t {
        Where::Reg(q) => is_in(b, register(q)) && !is_in(a, register(q)),
        Where::Slot(_) => false,
    }
}

/// A word computed where the target does not hold the first word: in its register with the words the other way round, or apart.
fn turned_or_apart(
    out: &mut Vec<AsmItem>,
    s: &Scope<'_>,
    o: Two,
    u: Option<Two>,
    t: Where,
    a: Where,
    b: Where,
) -> Result<(), Memory>
    ensures { OnOk result (out.new.items ≡ out.old.items ++ turned_or_apart (frame s.now) o u t a b) }
{
    match u {
        Some(u) => {
            if is_turned(t, a, b) {
                in_place(out, s, u, aim(t), b, a)
            } else {
                apart(out, s, o, t, a, b)
            }
        }
        None => apart(out, s, o, t, a, b),
    }
}

/// A place takes the word computed of those of two places.
pub(crate) fn computes(
    out: &mut Vec<AsmItem>,
    s: &Scope<'_>,
    o: Two,
    t: Where,
    a: Where,
    b: Where,
) -> Result<(), Memory>
    ensures { OnOk result (out.new.items ≡ out.old.items ++ computes (frame s.now) o t a b) }
{
    if is_direct(t, b) {
        in_place(out, s, o, aim(t), a, b)
    } else {
        turned_or_apart(out, s, o, turned(o), t, a, b)
    }
}
