// Calls.
ghost use Rattle.std.specs.Prelude.{◌≡◌, ◌++◌, ◌∷◌, [], OnOk, IfOk};
ghost use Rattle.asm_laws.specs.Operations.{slot_arg, slot_args, args_items, call_items};
ghost use Rattle.asm_emit.specs.inner.View.{frame, whole};

use crate::hands::{brings, hand, keeps_some, op};
use crate::moving::put_in_order;
use crate::names::function_label;
use crate::scope::{Around, Scope, arg_word, params_at, scope_at};
use asm_items::AsmItem;
use either::Either;
use kit_base::Memory;
use mid_code::Where;
use std::alloc::Global;
use v32_isa::{Go, Instr, Mov, Reg, Src};

fn put_slot_arg(
    out: &mut Vec<AsmItem>,
    s: &Scope<'_>,
    callee: &Scope<'_>,
    p: Where,
    a: Where,
) -> Result<(), Memory>
    ensures { OnOk result (out.new.items ≡ out.old.items ++ slot_arg (frame s.now) (frame callee.now) p a) }
{
    match p {
        Where::Reg(_) => Ok(()),
        Where::Slot(k) => {
            let word = arg_word(callee, k);
            brings(out, s, a, 9)?;
            op(
                out,
                Instr::Mov(Mov::AtOffReg(Reg::at(15), Either::Left(word), hand(a, 9))),
            )
        }
    }
}

fn put_slot_args(
    out: &mut Vec<AsmItem>,
    s: &Scope<'_>,
    callee: &Scope<'_>,
    ps: &[Where],
    args: &[Where],
) -> Result<(), Memory>
    ensures { OnOk result (out.new.items ≡ out.old.items ++ slot_args (frame s.now) (frame callee.now) ps.now args.now) }
{
    let mut rest = args;
    for p in ps {
        let Some((a, after)) = rest.split_first() else {
            return Ok(());
        };
        put_slot_arg(out, s, callee, *p, *a)?;
        rest = after;
    }
    Ok(())
}

fn put_args(
    alloc: Global,
    out: &mut Vec<AsmItem>,
    s: &Scope<'_>,
    callee: &Scope<'_>,
    ps: &[Where],
    args: &[Where],
) -> Result<(), Memory>
    ensures { OnOk result (out.new.items ≡ out.old.items ++ args_items (frame s.now) (frame callee.now) ps.now args.now) }
{
    put_slot_args(out, s, callee, ps, args)?;
    put_in_order(alloc, out, s, ps, args)
}

/// The instruction that calls a function.
pub(crate) fn put_call(
    alloc: Global,
    out: &mut Vec<AsmItem>,
    w: &Around<'_>,
    s: &Scope<'_>,
    t: Option<Where>,
    g: u32,
    args: &[Where],
) -> Result<(), Memory>
    ensures { OnOk result (out.new.items ≡ out.old.items ++ call_items (whole w.now) (frame s.now) t g args.now) }
{
    let callee = scope_at(w, g);
    put_args(alloc, out, s, &callee, params_at(w.functions, g), args)?;
    let label = function_label(alloc, w.names, g)?;
    op(out, Instr::Go(Go::CALL, Src::Imm(Either::Right(label))))?;
    keeps_some(out, s, t)
}
