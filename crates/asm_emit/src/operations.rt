// Operations.
ghost use Rattle.std.specs.Prelude.{◌≡◌, ◌++◌, ◌∷◌, [], OnOk, IfOk};
ghost use Rattle.asm_emit.specs.inner.Listed.{do_items};
ghost use Rattle.asm_emit.specs.inner.View.{frame, whole};

use crate::calls::put_call;
use crate::hands::{aim, brings, hand, lays, op};
use crate::names::literal_label;
use crate::pieces::{changes, computes, moves, port, sets};
use crate::scope::{Around, Scope, at_or, local_word};
use asm_items::AsmItem;
use either::Either;
use kit_base::Memory;
use mid_code::{Op, Where};
use std::alloc::Global;
use v32_isa::{Instr, Mov, Plain, Reg, Src, Two};

/// The items of an operation.
#[tactic(auto, unfolding(asm_laws::specs::Operations::op_items))]
pub(crate) fn put_op(
    alloc: Global,
    out: &mut Vec<AsmItem>,
    w: &Around<'_>,
    s: &Scope<'_>,
    o: &Op<Where>,
) -> Result<(), Memory>
    ensures { OnOk result (out.new.items ≡ out.old.items ++ do_items (whole w.now) (frame s.now) o.now) }
{
    match o {
        Op::Const(t, n) => sets(out, s, *t, Either::Left(*n)),
        Op::Null(t) => sets(out, s, *t, Either::Left(0xFFFF_FFFF)),
        Op::Move(t, a) => moves(out, s, *t, *a),
        Op::One(o, t, a) => changes(out, s, *o, *t, *a),
        Op::Two(o, t, a, b) => computes(out, s, *o, *t, *a, *b),
        Op::Global(t, k) => sets(out, s, *t, Either::Left(at_or(w.globals, *k, 0))),
        Op::Local(t, k) => {
            let word = Some(Either::Left(local_word(s, *k)));
            op(out, Instr::Lea(aim(*t), Reg::at(15), word))?;
            lays(out, s, *t)
        }
        Op::Literal(t, k) => sets(out, s, *t, Either::Right(literal_label(alloc, *k)?)),
        Op::Card(t) => sets(out, s, *t, Either::Left(0x3000_0000)),
        Op::Step(t, p, n) => computes(out, s, Two::IADD, *t, *p, *n),
        Op::Apart(t, p, q) => computes(out, s, Two::ISUB, *t, *p, *q),
        Op::PtrTest(o, t, p, q) => computes(out, s, *o, *t, *p, *q),
        Op::Load(t, p) => {
            brings(out, s, *p, 9)?;
            op(out, Instr::Mov(Mov::RegAtReg(aim(*t), hand(*p, 9))))?;
            lays(out, s, *t)
        }
        Op::Store(p, a) => {
            brings(out, s, *p, 9)?;
            brings(out, s, *a, 10)?;
            op(out, Instr::Mov(Mov::AtRegReg(hand(*p, 9), hand(*a, 10))))
        }
        Op::Fresh(_) => Ok(()),
        Op::End(_) => Ok(()),
        Op::Call(t, g, args) => put_call(alloc, out, w, s, *t, *g, args.as_slice()),
        Op::In(t, p) => {
            op(out, Instr::In(aim(*t), port(*p)))?;
            lays(out, s, *t)
        }
        Op::Out(p, a) => {
            brings(out, s, *a, 9)?;
            op(out, Instr::Out(port(*p), Src::Reg(hand(*a, 9))))
        }
        Op::Wait => op(out, Instr::Plain(Plain::WAIT)),
        Op::Halt => op(out, Instr::Plain(Plain::HLT)),
    }
}
