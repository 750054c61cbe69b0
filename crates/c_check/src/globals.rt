// The globals.
ghost use Rattle.std.specs.Prelude.{◌≡◌, ◌+◌, ◌<◌, ◌≤◌, ◌++◌, ◌∷◌, [], length, map, option_map, OnOk, true};
ghost use Rattle.c_tree.specs.Tree.{VarsD};
ghost use Rattle.c_tree.specs.Count.{vars_nodes};
ghost use Rattle.c_tree.specs.View.{var};
ghost use Rattle.c_types.specs.View.{ctype, tinit, tvar};
ghost use Rattle.kit_base.specs.Gives.{Gives};
ghost use Rattle.c_stmts.specs.State.{filled_var};
ghost use Rattle.c_check.specs.Reading.{global_size, with_init};
ghost use Rattle.c_check.specs.inner.ItemTyping.{global, globals, item};
ghost use Rattle.c_check.specs.inner.Steps.{before, spent};
ghost use Rattle.c_check.specs.View.{un};

use crate::declaring::{declare, is_free};
use crate::parts::{maybe_fill_at, type_at};
use crate::reading::Reading;
use c_exprs::{CheckErr, Decl, placed};
use c_rules::Code;
use c_stmts::object_size;
use c_tree::{Span, Var};
use c_types::{CType, TInit, TStmt, TVar, copy_type};
use kit_base::{Memory, Seq};
use std::alloc::{AllocError, Global};

/// The words of a global behind those before it.
#[tactic(auto, unfolding(crate::specs::Reading::global_size))]
fn global_size(reading: &Reading, fresh: bool, ty: &CType) -> Result<u32, Code>
    ensures size { result ≡ global_size (un reading.now) fresh (ctype ty.now) }
{
    object_size(
        &reading.globals.layouts,
        &reading.globals.whole,
        3_145_728,
        reading.objects.words(),
        fresh,
        ty,
    )
}

/// Puts a global that is filled at the end; one that is not filled is left out. The error is want of memory.
fn keep(
    filled: &mut Vec<TVar>,
    object: u32,
    ty: CType,
    init: Option<TInit>,
) -> Result<(), AllocError>
    ensures kept { OnOk result (map tvar filled.new.items ≡ map tvar filled.old.items ++ filled_var true object (ctype ty) (option_map tinit init)) }
{
    if let Some(init) = init {
        filled.push(TVar {
            global: true,
            object,
            ty,
            init,
        })?;
    }
    Ok(())
}

/// Reads a global, and puts it at the end of those that are filled.
#[tactic(auto, unfolding(crate::specs::inner::ItemTyping::global))]
fn read_global(
    alloc: Global,
    reading: &mut Reading,
    filled: &mut Vec<TVar>,
    v: &Var,
) -> Result<(), CheckErr>
    requires few { length (un reading.old).globals < 200000 }
    ensures gives { Gives (λ _. (map tvar filled.new.items, un reading.new)) result
        (before (map tvar filled.old.items) (global (un reading.old) (var v.now))) }
    ensures count { OnOk result (length (un reading.new).globals ≡ length (un reading.old).globals + 1) }
{
    let object = reading.objects.next();
    let fresh = is_free(&reading.globals, &v.name);
    let ty = type_at(alloc, reading, v.span, &v.ty)?;
    let named = copy_type(&ty)?;
    declare(reading, &v.name, Decl::Object(object, named))?;
    let init = maybe_fill_at(alloc, reading, &ty, &v.init)?;
    let size = global_size(reading, fresh, &ty);
    let words = placed(v.span, size)?;
    reading.objects.add(v.name.copy()?, words)?;
    keep(filled, object, ty, init)?;
    Ok(())
}

fn read_globals(alloc: Global, reading: &mut Reading, all: &[Var]) -> Result<Vec<TVar>, CheckErr>
    requires few { length (un reading.old).globals + length all.now ≤ 200000 }
    ensures { Gives (λ r. (map tvar r.items, un reading.new)) result (globals (un reading.old) (map var all.now)) }
{
    let mut filled = Vec::new(alloc);
    for v in all {
        read_global(alloc, reading, &mut filled, v)?;
    }
    Ok(filled)
}

/// Reads the globals of an item, with the statement that fills them.
#[tactic(auto, using(crate::proofs::Spent::vars_within), unfolding(crate::specs::inner::ItemTyping::item))]
pub(crate) fn read_objects(
    alloc: Global,
    reading: &mut Reading,
    span: Span,
    all: &[Var],
) -> Result<(), CheckErr>
    requires few { spent (un reading.old) + vars_nodes (map var all.now) ≤ 200000 }
    ensures { Gives (λ r. (r, un reading.new)) result (item (un reading.old) (VarsD (map var all.now) span)) }
{
    let filled = read_globals(alloc, reading, all)?;
    reading.inits.push(TStmt::Vars(Seq::from_vec(filled)))?;
    Ok(())
}
