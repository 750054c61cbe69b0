// The parts of items.
ghost use Rattle.std.specs.Prelude.{◌≡◌, ◌+◌, ◌≤◌, ◌^◌, length, map, option_map};
ghost use Rattle.c_tree.specs.Count.{stmts_nodes, maybe_stmts_nodes};
ghost use Rattle.c_tree.specs.View.{expr, init, stmt, stmts, type};
ghost use Rattle.c_types.specs.View.{ctype, texpr, tinit, tstmt, tstmts};
ghost use Rattle.kit_base.specs.Gives.{Gives};
ghost use Rattle.c_check.specs.inner.ItemTyping.{value_at, type_at, fill_at, body_at, maybe_fill_at, maybe_body};
ghost use Rattle.c_check.specs.View.{un};

use crate::reading::Reading;
use c_exprs::{CheckErr, type_of_tree, type_value};
use c_rules::Counted;
use c_stmts::{fill, type_statements};
use c_tree::{Expr, Init, Span, Stmt, TypeTree};
use c_types::{CType, TExpr, TInit, TStmt};
use kit_base::Seq;
use std::alloc::Global;

/// The value of an expression outside functions.
#[tactic(auto, unfolding(crate::specs::inner::ItemTyping::value_at))]
pub(crate) fn value_at(alloc: Global, reading: &mut Reading, e: &Expr) -> Result<TExpr, CheckErr>
    ensures { Gives (λ r. (texpr r, un reading.new)) result (value_at (un reading.old) (expr e.now)) }
{
    type_value(
        alloc,
        &reading.globals,
        &reading.state.scopes,
        &mut reading.state.texts,
        e,
    )
}

/// The type that a type tree names, at a node of this span, with its elements.
#[tactic(auto, unfolding(crate::specs::inner::ItemTyping::type_at))]
pub(crate) fn counted_at(
    alloc: Global,
    reading: &mut Reading,
    span: Span,
    ty: &TypeTree,
) -> Result<Counted, CheckErr>
    ensures gives { Gives (λ r. (ctype r.ty, un reading.new)) result (type_at (un reading.old) span (type ty.now)) }
    ensures objects { (un reading.new).globals ≡ (un reading.old).globals }
    ensures sizes { (un reading.new).sizes ≡ (un reading.old).sizes }
{
    type_of_tree(
        alloc,
        &reading.globals,
        &reading.state.scopes,
        &mut reading.state.texts,
        span,
        ty,
    )
}

/// The type that a type tree names, at a node of this span.
pub(crate) fn type_at(
    alloc: Global,
    reading: &mut Reading,
    span: Span,
    ty: &TypeTree,
) -> Result<CType, CheckErr>
    ensures gives { Gives (λ r. (ctype r, un reading.new)) result (type_at (un reading.old) span (type ty.now)) }
    ensures objects { (un reading.new).globals ≡ (un reading.old).globals }
    ensures sizes { (un reading.new).sizes ≡ (un reading.old).sizes }
{
    let counted = counted_at(alloc, reading, span, ty)?;
    Ok(counted.ty)
}

/// What a global of this type is filled with.
#[tactic(auto, unfolding(crate::specs::inner::ItemTyping::fill_at))]
fn fill_at(
    alloc: Global,
    reading: &mut Reading,
    target: &CType,
    i: &Init,
) -> Result<TInit, CheckErr>
    ensures gives { Gives (λ r. (tinit r, un reading.new)) result (fill_at (un reading.old) (ctype target.now) (init i.now)) }
    ensures objects { (un reading.new).globals ≡ (un reading.old).globals }
{
    fill(
        alloc,
        &reading.globals,
        &reading.state.scopes,
        &mut reading.state.texts,
        true,
        Some(target),
        i,
    )
}

/// The same for an initialiser that may be missing.
#[tactic(auto, unfolding(crate::specs::inner::ItemTyping::maybe_fill_at))]
pub(crate) fn maybe_fill_at(
    alloc: Global,
    reading: &mut Reading,
    target: &CType,
    i: &Option<Init>,
) -> Result<Option<TInit>, CheckErr>
    ensures gives { Gives (λ r. (option_map tinit r, un reading.new)) result (maybe_fill_at (un reading.old) (ctype target.now) (option_map init i.now)) }
    ensures objects { (un reading.new).globals ≡ (un reading.old).globals }
{
    match i {
        None => Ok(None),
        Some(i) => {
            let filled = fill_at(alloc, reading, target, i)?;
            Ok(Some(filled))
        }
    }
}

/// The body of a function with this result.
#[tactic(auto, unfolding(crate::specs::inner::ItemTyping::body_at))]
fn body_at(
    alloc: Global,
    reading: &mut Reading,
    gives: &CType,
    body: &[Stmt],
) -> Result<Vec<TStmt>, CheckErr>
    requires room { length (un reading.old).sizes + stmts_nodes (stmts (map stmt body.now)) ≤ 2 ^ 32 }
    ensures { Gives (λ r. (tstmts (map tstmt r.items), un reading.new)) result (body_at (un reading.old) (ctype gives.now) (stmts (map stmt body.now))) }
{
    type_statements(alloc, &reading.globals, &mut reading.state, body, gives)
}

/// The same for a body that may be missing.
#[tactic(auto, unfolding(crate::specs::inner::ItemTyping::maybe_body))]
pub(crate) fn maybe_body(
    alloc: Global,
    reading: &mut Reading,
    gives: &CType,
    body: &Option<Seq<Stmt>>,
) -> Result<Option<Vec<TStmt>>, CheckErr>
    requires room { length (un reading.old).sizes + maybe_stmts_nodes (option_map (λ b. stmts (map stmt b)) body.now) ≤ 2 ^ 32 }
    ensures { Gives (λ r. (option_map (λ b. tstmts (map tstmt b.items)) r, un reading.new)) result
        (maybe_body (un reading.old) (ctype gives.now) (option_map (λ b. stmts (map stmt b)) body.now)) }
{
    match body {
        None => Ok(None),
        Some(body) => {
            let body = body_at(alloc, reading, gives, body.as_slice())?;
            Ok(Some(body))
        }
    }
}
