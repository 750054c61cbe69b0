// Assignments, steps and members.
ghost use Rattle.std.specs.Prelude.{◌≡◌};
ghost use Rattle.c_types.specs.View.{ctype, texpr};
ghost use Rattle.c_meaning.specs.Expressions.{step_operator, gives_old};
ghost use Rattle.kit_base.specs.Gives.{Gives};
ghost use Rattle.c_evaluate.specs.inner.SettingView.{setting_of};
ghost use Rattle.c_evaluate.specs.inner.StoreView.{store_of};
ghost use Rattle.c_evaluate.specs.inner.Storing.{operated_in, assigned_in, changed_in, stepped_in, second_assigned_in, member_in};

use crate::cells::{Destination, located, stored};
use crate::operands::BinaryNode;
use crate::operators::{converted, operated, read_as};
use crate::setting::Setting;
use crate::stop::Stop;
use crate::store::{Store, end_temporary};
use c_tree::{BinOp, Span, StepOp};
use c_types::{CType, TExpr, is_structure};
use obj_mem::Cell;

/// What is assigned to: the expression of the lvalue, the tokens of the assignment, and the place.
#[derive(Clone, Copy)]
pub(crate) struct Lvalue<'t> {
    pub(crate) tree: &'t TExpr,
    pub(crate) span: Span,
    pub(crate) place: Cell,
}

/// Stores a value at a place of the expression's type.
#[inline(always)]
fn assigned<'a>(
    s: &Setting<'a>,
    n: u32,
    to: &Lvalue<'_>,
    c: Cell,
    store: &mut Store<'a>,
) -> Result<Cell, Stop>
    ensures { Gives (λ z. (z, store_of store.new)) result
        (assigned_in (setting_of s.now) n (texpr to.now.tree.now) to.now.span to.now.place c (store_of store.old)) }
{
    let x = to.tree;
    let z = located(to.span, converted(&x.ty, c))?;
    let there = Destination {
        ty: &x.ty,
        span: x.span,
        place: to.place,
    };
    stored(s, n, 0, &there, z, store)?;
    Ok(z)
}

/// The old cell at a place, and what the operator makes of it.
#[inline(always)]
fn changed<'a>(
    s: &Setting<'a>,
    op: BinOp,
    to: &Lvalue<'_>,
    ty: &CType,
    c: Cell,
    store: &Store<'a>,
) -> Result<(Cell, Cell), Stop>
    ensures { Gives (λ z. z) result
        (changed_in (setting_of s.now) op (texpr to.now.tree.now) (ctype ty.now) to.now.span to.now.place c (store_of store.now)) }
{
    let x = to.tree;
    let old = located(x.span, read_as(&x.ty, &store.objects, to.place))?;
    let new = located(to.span, operated(s, op, &x.ty, ty, &store.objects, old, c))?;
    Ok((old, new))
}

#[inline(always)]
fn step_operator(op: StepOp) -> BinOp
    ensures { result ≡ step_operator op }
{
    match op {
        StepOp::PreUp | StepOp::PostUp => BinOp::Add,
        StepOp::PreDown | StepOp::PostDown => BinOp::Sub,
    }
}

#[inline(always)]
fn gives_old(op: StepOp) -> bool
    ensures { result ≡ gives_old op }
{
    match op {
        StepOp::PreUp | StepOp::PreDown => false,
        StepOp::PostUp | StepOp::PostDown => true,
    }
}

/// Steps a place.
#[inline(always)]
pub(crate) fn stepped_place<'a>(
    s: &Setting<'a>,
    n: u32,
    op: StepOp,
    x: &TExpr,
    span: Span,
    p: Cell,
    store: &mut Store<'a>,
) -> Result<Cell, Stop>
    ensures { Gives (λ z. (z, store_of store.new)) result (stepped_in (setting_of s.now) n op (texpr x.now) span p (store_of store.old)) }
{
    let to = Lvalue {
        tree: x,
        span,
        place: p,
    };
    let (old, new) = changed(s, step_operator(op), &to, &CType::Int, Cell::Num(1), store)?;
    let z = assigned(s, n, &to, new, store)?;
    Ok(if gives_old(op) { old } else { z })
}

/// Assigns a value, behind an operator where there is one.
#[inline(always)]
pub(crate) fn second_assigned<'a>(
    s: &Setting<'a>,
    n: u32,
    op: Option<BinOp>,
    to: &Lvalue<'_>,
    y: &TExpr,
    c: Cell,
    store: &mut Store<'a>,
) -> Result<Cell, Stop>
    ensures { Gives (λ z. (z, store_of store.new)) result (second_assigned_in (setting_of s.now) n op (texpr to.now.tree.now) (texpr y.now)
        to.now.span to.now.place c (store_of store.old)) }
{
    match op {
        None => assigned(s, n, to, c, store),
        Some(o) => {
            let (_, new) = changed(s, o, to, &y.ty, c, store)?;
            assigned(s, n, to, new, store)
        }
    }
}

/// The value of an operator on two values.
#[inline(always)]
pub(crate) fn second_operated<'a>(
    s: &Setting<'a>,
    of: &BinaryNode<'_>,
    c: Cell,
    d: Cell,
    store: &Store<'a>,
) -> Result<Cell, Stop>
    ensures { Gives (λ z. z) result (operated_in (setting_of s.now) of.now.op (texpr of.now.left.now) (texpr of.now.right.now)
        of.now.node.now.span c d (store_of store.now)) }
{
    let x = of.left;
    let y = of.right;
    located(
        of.node.span,
        operated(s, of.op, &x.ty, &y.ty, &store.objects, c, d),
    )
}

/// A member of a structure that is a value.
pub(crate) fn member<'a>(
    ty: &CType,
    span: Span,
    p: Cell,
    store: &mut Store<'a>,
) -> Result<Cell, Stop>
    ensures { Gives (λ z. (z, store_of store.new)) result (member_in (ctype ty.now) span p (store_of store.old)) }
{
    if is_structure(ty) {
        return Ok(p);
    }
    let c = located(span, read_as(ty, &store.objects, p))?;
    end_temporary(store, p);
    Ok(c)
}
