// The nodes over typed operands: the rules of the node, then its tree.
ghost use Rattle.std.specs.Prelude.{◌≡◌, map, Some, None, IfOk};
ghost use Rattle.c_types.specs.Typed.{Typed, UnaryK, BinaryK, AssignK, StepK, IndexK, CastK};
ghost use Rattle.c_types.specs.View.{ctype, layout, texpr};
ghost use Rattle.c_rules.specs.Nodes.{unary_rule, binary_rule, assign_rule, compound_rule, step_rule, index_rule, cast_rule};
ghost use Rattle.c_exprs.specs.Faults.{at_node};
ghost use Rattle.c_exprs.specs.Nodes.{type_of_typed, is_place};
ghost use Rattle.kit_base.specs.Gives.{Gives};

use crate::error::{CheckErr, keeping};
use crate::names::Globals;
use crate::nodes::is_place;
use crate::rules::{assign_at, binary_at, cast_at, compound_at, index_at, step_at, unary_at};
use crate::trees::node;
use c_tree::{BinOp, Span, StepOp, UnOp};
use c_types::{CType, TExpr, TKind};
use kit_base::Memory;
use std::alloc::Global;

/// Two trees in boxes. The error is want of memory.
fn boxed(alloc: Global, x: TExpr, y: TExpr) -> Result<(Box<TExpr>, Box<TExpr>), Memory>
    ensures first { IfOk result (λ r. r.0.value ≡ x) }
    ensures second { IfOk result (λ r. r.1.value ≡ y) }
{
    Ok((Box::new(alloc, x)?, Box::new(alloc, y)?))
}

pub(crate) fn unary_tree(alloc: Global, op: UnOp, x: TExpr, span: Span) -> Result<TExpr, CheckErr>
    ensures rule { Gives (λ r. ctype r.ty) result (at_node span (unary_rule op (type_of_typed (texpr x)) (is_place (texpr x)))) }
    ensures tree { IfOk result (λ r. texpr r ≡ Typed (UnaryK op (texpr x)) (ctype r.ty) span) }
{
    let ty = unary_at(alloc, span, op, &x.ty, is_place(&x));
    let (x, ty) = keeping(x, ty)?;
    let (ty, x) = keeping(ty, Box::new(alloc, x))?;
    Ok(node(TKind::Unary(op, x), ty, span))
}

pub(crate) fn binary_tree(
    alloc: Global,
    globals: &Globals,
    op: BinOp,
    x: TExpr,
    y: TExpr,
    span: Span,
) -> Result<TExpr, CheckErr>
    ensures rule { Gives (λ r. ctype r.ty) result (at_node span (binary_rule globals.now.whole.items op (type_of_typed (texpr x)) (type_of_typed (texpr y)))) }
    ensures tree { IfOk result (λ r. texpr r ≡ Typed (BinaryK op (texpr x) (texpr y)) (ctype r.ty) span) }
{
    let ty = binary_at(alloc, globals, span, op, &x.ty, &y.ty);
    let ((x, y), ty) = keeping((x, y), ty)?;
    let (ty, (x, y)) = keeping(ty, boxed(alloc, x, y))?;
    Ok(node(TKind::Binary(op, x, y), ty, span))
}

pub(crate) fn assign_tree(
    alloc: Global,
    globals: &Globals,
    x: TExpr,
    y: TExpr,
    span: Span,
) -> Result<TExpr, CheckErr>
    ensures rule { Gives (λ r. ctype r.ty) result
        (at_node span (assign_rule (map layout globals.now.layouts.items) globals.now.whole.items (type_of_typed (texpr x)) (is_place (texpr x))
        (type_of_typed (texpr y)))) }
    ensures tree { IfOk result (λ r. texpr r ≡ Typed (AssignK None (texpr x) (texpr y)) (ctype r.ty) span) }
{
    let ty = assign_at(globals, span, &x.ty, is_place(&x), &y.ty);
    let ((x, y), ty) = keeping((x, y), ty)?;
    let (ty, (x, y)) = keeping(ty, boxed(alloc, x, y))?;
    Ok(node(TKind::Assign(None, x, y), ty, span))
}

pub(crate) fn compound_tree(
    alloc: Global,
    globals: &Globals,
    op: BinOp,
    x: TExpr,
    y: TExpr,
    span: Span,
) -> Result<TExpr, CheckErr>
    ensures rule { Gives (λ r. ctype r.ty) result
        (at_node span (compound_rule globals.now.whole.items op (type_of_typed (texpr x)) (is_place (texpr x)) (type_of_typed (texpr y)))) }
    ensures tree { IfOk result (λ r. texpr r ≡ Typed (AssignK (Some op) (texpr x) (texpr y)) (ctype r.ty) span) }
{
    let ty = compound_at(alloc, globals, span, op, &x.ty, is_place(&x), &y.ty);
    let ((x, y), ty) = keeping((x, y), ty)?;
    let (ty, (x, y)) = keeping(ty, boxed(alloc, x, y))?;
    Ok(node(TKind::Assign(Some(op), x, y), ty, span))
}

pub(crate) fn step_tree(
    alloc: Global,
    globals: &Globals,
    op: StepOp,
    x: TExpr,
    span: Span,
) -> Result<TExpr, CheckErr>
    ensures rule { Gives (λ r. ctype r.ty) result (at_node span (step_rule globals.now.whole.items op (type_of_typed (texpr x)) (is_place (texpr x)))) }
    ensures tree { IfOk result (λ r. texpr r ≡ Typed (StepK op (texpr x)) (ctype r.ty) span) }
{
    let ty = step_at(alloc, globals, span, op, &x.ty, is_place(&x));
    let (x, ty) = keeping(x, ty)?;
    let (ty, x) = keeping(ty, Box::new(alloc, x))?;
    Ok(node(TKind::Step(op, x), ty, span))
}

pub(crate) fn index_tree(
    alloc: Global,
    globals: &Globals,
    x: TExpr,
    y: TExpr,
    span: Span,
) -> Result<TExpr, CheckErr>
    ensures rule { Gives (λ r. ctype r.ty) result (at_node span (index_rule globals.now.whole.items (type_of_typed (texpr x)) (type_of_typed (texpr y)))) }
    ensures tree { IfOk result (λ r. texpr r ≡ Typed (IndexK (texpr x) (texpr y)) (ctype r.ty) span) }
{
    let ty = index_at(globals, span, &x.ty, &y.ty);
    let ((x, y), ty) = keeping((x, y), ty)?;
    let (ty, (x, y)) = keeping(ty, boxed(alloc, x, y))?;
    Ok(node(TKind::Index(x, y), ty, span))
}

pub(crate) fn cast_tree(alloc: Global, to: CType, x: TExpr, span: Span) -> Result<TExpr, CheckErr>
    ensures rule { Gives (λ r. ctype r.ty) result (at_node span (cast_rule (type_of_typed (texpr x)) (ctype to))) }
    ensures tree { IfOk result (λ r. texpr r ≡ Typed (CastK (texpr x)) (ctype r.ty) span) }
{
    let ty = cast_at(span, &x.ty, &to);
    let (x, ty) = keeping(x, ty)?;
    let (ty, x) = keeping(ty, Box::new(alloc, x))?;
    Ok(node(TKind::Cast(x), ty, span))
}
