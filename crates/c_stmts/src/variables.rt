// The typing of the variables of a function.
ghost use Rattle.std.specs.Prelude.{◌≡◌, ◌+◌, ◌≤◌, ◌<◌, ◌^◌, ◌++◌, false, length, map, option_map, OnOk, IfOk};
ghost use Rattle.c_tree.specs.Count.{vars_nodes};
ghost use Rattle.c_tree.specs.View.{expr, init, type, var};
ghost use Rattle.c_types.specs.View.{ctype, texpr, tinit, tvar};
ghost use Rattle.kit_base.specs.Gives.{Gives};
ghost use Rattle.c_stmts.specs.State.{entered, filled_var};
ghost use Rattle.c_stmts.specs.StatementTyping.{value_in, type_in, fill_in, maybe_filled, declared, all_declared, maybe_value};
ghost use Rattle.c_stmts.specs.View.{st, fn_of, lone};

use crate::filling::fill;
use crate::objects::object_size;
use crate::scopes::{declare, is_new};
use crate::state::State;
use c_exprs::{CheckErr, Globals, placed, type_of_tree, type_value};
use c_tree::{Expr, Init, Span, TypeTree, Var};
use c_types::{CType, TExpr, TInit, TVar, copy_type};
use kit_base::{Memory, Name};
use std::alloc::Global;

/// The value of an expression in a statement.
#[tactic(auto, unfolding(crate::specs::StatementTyping::value_in))]
pub(crate) fn value_in(
    alloc: Global,
    globals: &Globals,
    state: &mut State,
    gives: &CType,
    e: &Expr,
) -> Result<TExpr, CheckErr>
    ensures gives { Gives (λ r. (texpr r, st state.new)) result (value_in (fn_of globals.now gives.now) (st state.old) (expr e.now)) }
    ensures sizes { (st state.new).sizes ≡ (st state.old).sizes }
{
    let x = type_value(alloc, globals, &state.scopes, &mut state.texts, e)?;
    Ok(x)
}

/// A value that may be missing.
#[tactic(auto, unfolding(crate::specs::StatementTyping::maybe_value))]
pub(crate) fn maybe_value(
    alloc: Global,
    globals: &Globals,
    state: &mut State,
    gives: &CType,
    e: &Option<Expr>,
) -> Result<Option<TExpr>, CheckErr>
    ensures gives { Gives (λ r. (option_map texpr r, st state.new)) result (maybe_value (fn_of globals.now gives.now) (st state.old) (option_map expr e.now)) }
    ensures sizes { (st state.new).sizes ≡ (st state.old).sizes }
{
    match e {
        Some(e) => {
            let x = value_in(alloc, globals, state, gives, e)?;
            Ok(Some(x))
        }
        None => Ok(None),
    }
}

#[tactic(auto, unfolding(crate::specs::StatementTyping::type_in))]
fn type_in(
    alloc: Global,
    globals: &Globals,
    state: &mut State,
    gives: &CType,
    span: Span,
    of: &TypeTree,
) -> Result<CType, CheckErr>
    ensures gives { Gives (λ r. (ctype r, st state.new)) result (type_in (fn_of globals.now gives.now) (st state.old) span (type of.now)) }
    ensures sizes { (st state.new).sizes ≡ (st state.old).sizes }
    ensures used { (st state.new).used ≡ (st state.old).used }
{
    let counted = type_of_tree(alloc, globals, &state.scopes, &mut state.texts, span, of)?;
    Ok(counted.ty)
}

#[tactic(auto, unfolding(crate::specs::StatementTyping::fill_in))]
fn fill_in(
    alloc: Global,
    globals: &Globals,
    state: &mut State,
    gives: &CType,
    target: &CType,
    initialiser: &Init,
) -> Result<TInit, CheckErr>
    ensures gives { Gives (λ r. (tinit r, st state.new)) result
        (fill_in (fn_of globals.now gives.now) (st state.old) (ctype target.now) (init initialiser.now)) }
    ensures sizes { (st state.new).sizes ≡ (st state.old).sizes }
    ensures used { (st state.new).used ≡ (st state.old).used }
{
    let target = Some(target);
    let x = fill(
        alloc,
        globals,
        &state.scopes,
        &mut state.texts,
        false,
        target,
        initialiser,
    )?;
    Ok(x)
}

/// An initialiser that may be missing.
#[tactic(auto, unfolding(crate::specs::StatementTyping::maybe_filled))]
fn maybe_filled(
    alloc: Global,
    globals: &Globals,
    state: &mut State,
    gives: &CType,
    target: &CType,
    initialiser: &Option<Init>,
) -> Result<Option<TInit>, CheckErr>
    ensures gives { Gives (λ r. (option_map tinit r, st state.new)) result
        (maybe_filled (fn_of globals.now gives.now) (st state.old) (ctype target.now) (option_map init initialiser.now)) }
    ensures sizes { (st state.new).sizes ≡ (st state.old).sizes }
    ensures used { (st state.new).used ≡ (st state.old).used }
{
    match initialiser {
        Some(initialiser) => {
            let x = fill_in(alloc, globals, state, gives, target, initialiser)?;
            Ok(Some(x))
        }
        None => Ok(None),
    }
}

/// Makes a name that is new the next object from here on, and gives that object's number, where there are fewer than 2^32. The error is
/// want of memory.
#[tactic(auto, unfolding(crate::specs::State::entered))]
fn enter(alloc: Global, state: &mut State, name: &Name, ty: &CType) -> Result<u32, Memory>
    requires room { length (st state.old).sizes < 2 ^ 32 }
    ensures number { IfOk result (λ number. number ≡ length (st state.old).sizes) }
    ensures entered { OnOk result (st state.new ≡ entered name.now (ctype ty.now) (st state.old)) }
    ensures sizes { (st state.new).sizes ≡ (st state.old).sizes }
    ensures used { (st state.new).used ≡ (st state.old).used }
{
    let number = state.sizes.next();
    if !is_new(name, &state.scopes) {
        return Ok(number);
    }
    let kept = copy_type(ty)?;
    declare(alloc, &mut state.scopes, name, number, kept)?;
    Ok(number)
}

/// A variable that has an initialiser.
fn filled_var(object: u32, ty: CType, init: Option<TInit>) -> Option<TVar>
    ensures { lone (option_map tvar result) ≡ filled_var false object (ctype ty) (option_map tinit init) }
{
    match init {
        Some(init) => Some(TVar {
            global: false,
            object,
            ty,
            init,
        }),
        None => None,
    }
}

/// Declares a variable: its type, its name, its initialiser, in which the name holds, and then the rules of the variable.
#[tactic(auto, unfolding(crate::specs::StatementTyping::declared))]
fn declared(
    alloc: Global,
    globals: &Globals,
    state: &mut State,
    gives: &CType,
    v: &Var,
) -> Result<Option<TVar>, CheckErr>
    requires room { length (st state.old).sizes < 2 ^ 32 }
    ensures { Gives (λ r. (lone (option_map tvar r), st state.new)) result (declared (fn_of globals.now gives.now) (st state.old) (var v.now)) }
{
    let used = state.used;
    let fresh = is_new(&v.name, &state.scopes);
    let ty = type_in(alloc, globals, state, gives, v.span, &v.ty)?;
    let number = enter(alloc, state, &v.name, &ty)?;
    let init = maybe_filled(alloc, globals, state, gives, &ty, &v.init)?;
    let size = object_size(
        &globals.layouts,
        &globals.whole,
        1_000_000,
        used as u64,
        fresh,
        &ty,
    );
    let size = placed(v.span, size)?;
    state.add_variable(size)?;
    Ok(filled_var(number, ty, init))
}

fn keep(found: &mut Vec<TVar>, v: Option<TVar>) -> Result<(), Memory>
    ensures { OnOk result (map tvar found.new.items ≡ map tvar found.old.items ++ lone (option_map tvar v)) }
{
    if let Some(v) = v {
        found.push(v)?;
    }
    Ok(())
}

/// The variables of a declaration that have an initialiser.
pub(crate) fn all_declared(
    alloc: Global,
    globals: &Globals,
    state: &mut State,
    gives: &CType,
    vs: &[Var],
) -> Result<Vec<TVar>, CheckErr>
    requires room { length (st state.old).sizes + vars_nodes (map var vs.now) ≤ 2 ^ 32 }
    ensures { Gives (λ r. (map tvar r.items, st state.new)) result (all_declared (fn_of globals.now gives.now) (st state.old) (map var vs.now)) }
{
    let mut found = Vec::new(alloc);
    for v in vs {
        let x = declared(alloc, globals, state, gives, v)?;
        keep(&mut found, x)?;
    }
    Ok(found)
}
