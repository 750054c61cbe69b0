// Results, and operators whose word is given back right behind them.
ghost use Rattle.std.specs.Prelude.{◌≡◌, ◌<◌, ◌==◌, ◌++◌, cond, [], OnOk, Some};
ghost use Rattle.mid_code.specs.Code.{Stop};
ghost use Rattle.mid_code.specs.Functions.{op_before, nodes};
ghost use Rattle.mid_code.specs.Placed.{is_same_place};
ghost use Rattle.asm_laws.specs.Operations.{giving, given_first, made_known, made_with, made_items};
ghost use Rattle.asm_emit.specs.inner.Listed.{front_both, op_made};
ghost use Rattle.asm_emit.specs.inner.View.{frame, whole};

use crate::ahead::{added, known, put_before, word_put};
use crate::hands::{brings, fetches, hand, op};
use crate::scope::{Around, Scope};
use crate::spare::operand;
use asm_items::AsmItem;
use asm_laws::Made;
use kit_base::Memory;
use mid_code::{Node, Op, Where};
use v32_isa::{Instr, Reg, Src, Two};

/// Puts the word that a function gives back into register 9, where it does not stand there already.
pub(crate) fn put_giving(
    out: &mut Vec<AsmItem>,
    s: &Scope<'_>,
    p: Option<Where>,
    done: u32,
) -> Result<(), Memory>
    ensures { OnOk result (out.new.items ≡ out.old.items ++ cond (done == 0) (giving (frame s.now) p) []) }
{
    if done == 0 {
        match p {
            Some(p) => fetches(out, s, p, 9),
            None => Ok(()),
        }
    } else {
        Ok(())
    }
}

/// Whether two places are one.
fn is_same_place(p: Where, q: Where) -> bool
    ensures { result ≡ is_same_place p q }
{
    match p {
        Where::Reg(a) => match q {
            Where::Reg(b) => a == b,
            Where::Slot(_) => false,
        },
        Where::Slot(a) => match q {
            Where::Reg(_) => false,
            Where::Slot(b) => a == b,
        },
    }
}

/// The place whose word the first of some nodes gives back.
fn given_first(rest: &[Node<Where>]) -> Option<Where>
    ensures { result ≡ given_first (nodes rest.now) }
{
    let Some((x, _)) = rest.split_first() else {
        return None;
    };
    match x {
        Node::Return(p) => *p,
        _ => None,
    }
}

/// An operator on the words of two places, whose word is given back right behind it; how many nodes behind it are done then.
fn made_both(o: &Op<Where>, given: Option<Where>) -> Option<(u32, Made)>
    ensures { result ≡ front_both (op_before o.now Stop) given }
{
    match o {
        Op::Two(o, t, a, b) => match given {
            Some(p) => {
                if is_same_place(p, *t) {
                    Some((1, Made::Both(*o, *a, *b)))
                } else {
                    None
                }
            }
            None => None,
        },
        _ => None,
    }
}

/// The same of the word of a place and one that was put into a register, where that is register 8 and spare.
fn made_known(
    s: &Scope<'_>,
    given: Option<Where>,
    t: Where,
    r: Reg,
    word: u32,
    by: Option<(Two, Where)>,
) -> Option<(u32, Made)>
    ensures { result ≡ made_known (frame s.now) given t (Some (r, word)) by }
{
    let p = given?;
    let (o, q) = by?;
    if s.registers == 8 && r.number() == 8 && is_same_place(p, t) {
        Some((2, Made::Known(o, q, word)))
    } else {
        None
    }
}

/// The same behind an operation that puts such a word there.
#[tactic(auto, using(crate::proofs::Fronts::none_made))]
fn made_with(s: &Scope<'_>, put: Option<(Reg, u32)>, rest: &[Node<Where>]) -> Option<(u32, Made)>
    ensures { result ≡ made_with (frame s.now) put (nodes rest.now) }
{
    let (r, word) = put?;
    let (x, after) = rest.split_first()?;
    match x {
        Node::Do(Op::Two(o, t, a, b)) => {
            made_known(s, given_first(after), *t, r, word, operand(*o, *a, *b))
        }
        _ => None,
    }
}

/// What makes a word in register 9 that is given back, where an operation begins that; how many nodes behind it are done then.
pub(crate) fn made_of(
    w: &Around<'_>,
    s: &Scope<'_>,
    o: &Op<Where>,
    rest: &[Node<Where>],
) -> Option<(u32, Made)>
    ensures { result ≡ op_made (whole w.now) (frame s.now) o.now (nodes rest.now) }
{
    match made_both(o, given_first(rest)) {
        Some(x) => Some(x),
        None => made_with(s, word_put(w, o), rest),
    }
}

/// Makes it there.
pub(crate) fn put_made(out: &mut Vec<AsmItem>, s: &Scope<'_>, y: Made) -> Result<(), Memory>
    ensures { OnOk result (out.new.items ≡ out.old.items ++ made_items (frame s.now) y) }
{
    match y {
        Made::Both(o, a, b) => {
            fetches(out, s, a, 9)?;
            brings(out, s, b, 10)?;
            op(out, Instr::Two(o, Reg::at(9), Src::Reg(hand(b, 10))))
        }
        Made::Known(o, a, word) => {
            let (first, i) = known(s, o, Reg::at(9), a, word, added(o, word));
            put_before(out, first)?;
            op(out, i)
        }
    }
}
