// From tokens to expressions and types.
ghost use Rattle.std.specs.Prelude.{◌≡◌, ◌≤◌, ◌<◌, ◌-◌, ◌+◌, ◌^◌, IfOk, Ok, Some, map};
ghost use Rattle.kit_base.specs.Gives.{Gives};
ghost use Rattle.c_parse.specs.declared.lead.Lead.TheVariants as main_leads;
ghost use Rattle.c_parse.specs.declared.lead.Start.TheVariants as starts;
ghost use Rattle.c_parse.specs.declared.lead.Suffix.TheVariants as suffixes;
ghost use Rattle.c_parse.specs.inner.Reader.{at_open_paren, behind, loop};
ghost use Rattle.c_parse.specs.Tok.{toks};
ghost use Rattle.c_parse.specs.inner.View.{context};
ghost use Rattle.c_parse.specs.inner.Reading.{assign_by, named_by, primary_by, selected, selection, suffix_by, unary_by, arguments_with, base};
ghost use Rattle.c_parse.specs.inner.Reading.{expr_at, level_at, operator_turn, postfix_with, primary_with, readers, run_at, type_read};
ghost use Rattle.c_parse.specs.inner.Leads as leads;
ghost use Rattle.c_tree.specs.View.{expr, exprs, type};
ghost use Rattle.c_tree.specs.Depth.{expr_depth, exprs_depth, type_depth};

use crate::fault::ReadErr;
use crate::keeping::keeping;
use crate::lead::{Lead, Start, Suffix, TypeLead, TypeMark};
use crate::leading::{
    assigner_behind, begins_expr, begins_type, is_some_suffix, lead_at, operator_at, start_at,
    suffix_at, type_at, type_mark_at,
};
use crate::scope::{Begun, Scope, span};
use crate::tokens::{
    at, bad, behind, close_bracket, close_paren, name, no_room, open_paren, raised, word,
};
use c_lex::{Punct, Token};
use c_tree::building::{
    array, arrow, assign, binary, cast, index, member, paren, pointer, step, unary,
};
use c_tree::{BinOp, Expr, Span, TypeTree};
use kit_base::{Memory, Name, Seq};
use std::alloc::Global;

#[tactic(auto, using(crate::proofs::Steps::reader_steps))]
#[cycle(expressions)]
pub(crate) fn expression<'a>(
    alloc: Global,
    scope: &Scope,
    room: u32,
    tokens: &'a [Token],
) -> Result<(Expr, u32, &'a [Token]), ReadErr>
    ensures gives { Gives (λ x. (expr x.0, toks x.2.now)) result (expr_at (context scope.now) room (toks tokens.now)) }
    ensures depth { IfOk result (λ x. x.1 ≡ expr_depth (expr x.0)) }
    ensures fits { IfOk result (λ x. x.1 ≤ room) }
{
    if room == 0 {
        return Err(no_room(begins_expr(scope, tokens), tokens));
    }
    let (left, depth, rest) = level(alloc, scope, room, 10, tokens)?;
    let Some(op) = assigner_behind(&left, rest) else {
        return Ok((left, depth, rest));
    };
    let begun = Begun { from: tokens, rest };
    assigned(alloc, scope, room, op, left, depth, &begun)
}

/// The assignment to `left`, with the operator before it or none.
#[tactic(auto, using(crate::proofs::Steps::reader_steps))]
#[cycle(expressions)]
fn assigned<'a>(
    alloc: Global,
    scope: &Scope,
    room: u32,
    op: Option<BinOp>,
    left: Expr,
    depth: u32,
    begun: &Begun<'a>,
) -> Result<(Expr, u32, &'a [Token]), ReadErr>
    requires some { 0 < room }
    requires depth { depth ≡ expr_depth (expr left) }
    ensures gives { Gives (λ x. (expr x.0, toks x.2.now)) result
        (assign_by (context scope.now) (readers (context scope.now) (room - 1)) room (toks begun.now.from.now) (expr left)
        (toks begun.now.rest.now) (Some op)) }
    ensures depth { IfOk result (λ x. x.1 ≡ expr_depth (expr x.0)) }
    ensures fits { IfOk result (λ x. x.1 ≤ room) }
{
    let (left, _) = keeping(left, raised(room, depth, begun.rest))?;
    let found = expression(alloc, scope, room - 1, behind(begun.rest));
    let (left, (right, right_depth, rest)) = keeping(left, found)?;
    let tree = assign(alloc, op, left, right, span(scope, begun.from, rest))?;
    Ok((tree, depth.max(right_depth) + 1, rest))
}

#[tactic(auto, using(crate::proofs::Steps::reader_steps))]
#[cycle(expressions)]
pub(crate) fn level<'a>(
    alloc: Global,
    scope: &Scope,
    room: u32,
    k: u32,
    tokens: &'a [Token],
) -> Result<(Expr, u32, &'a [Token]), ReadErr>
    requires known { k ≤ 10 }
    ensures gives { Gives (λ x. (expr x.0, toks x.2.now)) result (level_at (context scope.now) room k (toks tokens.now)) }
    ensures depth { IfOk result (λ x. x.1 ≡ expr_depth (expr x.0)) }
    ensures fits { IfOk result (λ x. x.1 ≤ room) }
{
    if room == 0 {
        return Err(no_room(begins_expr(scope, tokens), tokens));
    }
    let (mut left, mut depth, mut rest) = unary_expression(alloc, scope, room, tokens)?;
    let mut reached = 0;
    'levels: while reached < k {
        let begun = Begun { from: tokens, rest };
        let (tree, tree_depth, after) = operators(
            alloc, scope, room, reached, left, depth, &begun,
        )?;
        left = tree;
        depth = tree_depth;
        rest = after;
        reached += 1;
    }
    Ok((left, depth, rest))
}

/// The expression `left` with the operators of level `k + 1` behind it.
#[tactic(auto, using(crate::proofs::Steps::reader_steps))]
#[cycle(expressions)]
fn operators<'a>(
    alloc: Global,
    scope: &Scope,
    room: u32,
    k: u32,
    left: Expr,
    depth: u32,
    begun: &Begun<'a>,
) -> Result<(Expr, u32, &'a [Token]), ReadErr>
    requires some { 0 < room }
    requires known { k < 10 }
    requires depth { depth ≡ expr_depth (expr left) }
    requires fits { depth ≤ room }
    ensures gives { Gives (λ x. (expr x.0, toks x.2.now)) result
        (loop (operator_turn (context scope.now) (readers (context scope.now) (room - 1)) room k (toks begun.now.from.now)) (expr left)
        (toks begun.now.rest.now)) }
    ensures depth { IfOk result (λ x. x.1 ≡ expr_depth (expr x.0)) }
    ensures fits { IfOk result (λ x. x.1 ≤ room) }
{
    let mut left = left;
    let mut depth = depth;
    let mut rest = begun.rest;
    'operators: while let Some(op) = operator_at(k + 1, rest) {
        let (fitting, _) = keeping(left, raised(room, depth, rest))?;
        let found = level(alloc, scope, room - 1, k, behind(rest));
        let (kept, (right, right_depth, after)) = keeping(fitting, found)?;
        left = binary(alloc, op, kept, right, span(scope, begun.from, after))?;
        depth = depth.max(right_depth) + 1;
        rest = after;
    }
    Ok((left, depth, rest))
}

#[tactic(auto, using(crate::proofs::Steps::reader_steps))]
#[cycle(expressions)]
fn unary_expression<'a>(
    alloc: Global,
    scope: &Scope,
    room: u32,
    tokens: &'a [Token],
) -> Result<(Expr, u32, &'a [Token]), ReadErr>
    ensures gives { Gives (λ x. (expr x.0, toks x.2.now)) result (level_at (context scope.now) room 0 (toks tokens.now)) }
    ensures depth { IfOk result (λ x. x.1 ≡ expr_depth (expr x.0)) }
    ensures fits { IfOk result (λ x. x.1 ≤ room) }
{
    if room == 0 {
        return Err(no_room(begins_expr(scope, tokens), tokens));
    }
    match start_at(scope, tokens) {
        Start::Operator(op) => {
            let (a, depth, rest) = unary_expression(alloc, scope, room - 1, behind(tokens))?;
            let tree = unary(alloc, op, a, span(scope, tokens, rest))?;
            Ok((tree, depth + 1, rest))
        }
        Start::Step(op) => {
            let (a, depth, rest) = unary_expression(alloc, scope, room - 1, behind(tokens))?;
            let tree = step(alloc, op, a, span(scope, tokens, rest))?;
            Ok((tree, depth + 1, rest))
        }
        Start::Cast => cast_expression(alloc, scope, room, tokens),
        Start::Size => size_expression(alloc, scope, room, tokens),
        Start::Other => postfix(alloc, scope, room, tokens),
    }
}

#[tactic(auto, using(crate::proofs::Steps::reader_steps))]
#[cycle(expressions)]
fn cast_expression<'a>(
    alloc: Global,
    scope: &Scope,
    room: u32,
    tokens: &'a [Token],
) -> Result<(Expr, u32, &'a [Token]), ReadErr>
    requires some { 0 < room }
    ensures gives { Gives (λ x. (expr x.0, toks x.2.now)) result
        (unary_by (context scope.now) (readers (context scope.now) (room - 1)) room (toks tokens.now) starts.Cast) }
    ensures depth { IfOk result (λ x. x.1 ≡ expr_depth (expr x.0)) }
    ensures fits { IfOk result (λ x. x.1 ≤ room) }
{
    let (ty, ty_depth, rest) = type_tree(alloc, scope, room - 1, behind(tokens))?;
    let (ty, rest) = keeping(ty, close_paren(rest))?;
    let found = unary_expression(alloc, scope, room - 1, rest);
    let (ty, (a, depth, rest)) = keeping(ty, found)?;
    let tree = cast(alloc, ty, a, span(scope, tokens, rest))?;
    Ok((tree, ty_depth.max(depth) + 1, rest))
}

#[tactic(auto, using(crate::proofs::Steps::reader_steps))]
#[cycle(expressions)]
fn size_expression<'a>(
    alloc: Global,
    scope: &Scope,
    room: u32,
    tokens: &'a [Token],
) -> Result<(Expr, u32, &'a [Token]), ReadErr>
    requires some { 0 < room }
    ensures gives { Gives (λ x. (expr x.0, toks x.2.now)) result
        (unary_by (context scope.now) (readers (context scope.now) (room - 1)) room (toks tokens.now) starts.Size) }
    ensures depth { IfOk result (λ x. x.1 ≡ expr_depth (expr x.0)) }
    ensures fits { IfOk result (λ x. x.1 ≤ room) }
{
    let rest = open_paren(behind(tokens))?;
    let (ty, depth, rest) = type_tree(alloc, scope, room - 1, rest)?;
    let (ty, rest) = keeping(ty, close_paren(rest))?;
    Ok((Expr::SizeOf(ty, span(scope, tokens, rest)), depth + 1, rest))
}

#[tactic(auto, using(crate::proofs::Steps::reader_steps))]
#[cycle(expressions)]
fn postfix<'a>(
    alloc: Global,
    scope: &Scope,
    room: u32,
    tokens: &'a [Token],
) -> Result<(Expr, u32, &'a [Token]), ReadErr>
    requires some { 0 < room }
    ensures gives { Gives (λ x. (expr x.0, toks x.2.now)) result
        (postfix_with (context scope.now) (readers (context scope.now) (room - 1)) room (toks tokens.now)) }
    ensures depth { IfOk result (λ x. x.1 ≡ expr_depth (expr x.0)) }
    ensures fits { IfOk result (λ x. x.1 ≤ room) }
{
    let (mut left, mut depth, mut rest) = primary(alloc, scope, room, tokens)?;
    'suffixes: while is_some_suffix(suffix_at(rest)) {
        let (fitting, _) = keeping(left, raised(room, depth, rest))?;
        let begun = Begun { from: tokens, rest };
        let (tree, tree_depth, after) = suffixed(alloc, scope, room, fitting, depth, &begun)?;
        left = tree;
        depth = tree_depth;
        rest = after;
    }
    Ok((left, depth, rest))
}

/// The expression `left` with the suffix behind it.
#[tactic(auto, using(crate::proofs::Steps::reader_steps))]
#[cycle(expressions)]
fn suffixed<'a>(
    alloc: Global,
    scope: &Scope,
    room: u32,
    left: Expr,
    depth: u32,
    begun: &Begun<'a>,
) -> Result<(Expr, u32, &'a [Token]), ReadErr>
    requires depth { depth ≡ expr_depth (expr left) }
    requires some { depth < room }
    ensures gives { Gives (λ x. (expr x.0, toks x.2.now)) result
        (suffix_by (context scope.now) (readers (context scope.now) (room - 1)) (toks begun.now.from.now) (expr left)
        (toks begun.now.rest.now) (leads.suffix_at (toks begun.now.rest.now))) }
    ensures depth { IfOk result (λ x. x.1 ≡ expr_depth (expr x.0)) }
    ensures fits { IfOk result (λ x. x.1 ≤ room) }
{
    match suffix_at(begun.rest) {
        Suffix::Index => indexed(alloc, scope, room, left, depth, begun),
        Suffix::Member => selected(alloc, scope, false, left, depth, begun),
        Suffix::Arrow => selected(alloc, scope, true, left, depth, begun),
        Suffix::Step(op) => {
            let rest = behind(begun.rest);
            let tree = step(alloc, op, left, span(scope, begun.from, rest))?;
            Ok((tree, depth + 1, rest))
        }
        Suffix::Nothing => Err(bad(begun.rest)),
    }
}

#[tactic(auto, using(crate::proofs::Steps::reader_steps))]
#[cycle(expressions)]
fn indexed<'a>(
    alloc: Global,
    scope: &Scope,
    room: u32,
    left: Expr,
    depth: u32,
    begun: &Begun<'a>,
) -> Result<(Expr, u32, &'a [Token]), ReadErr>
    requires depth { depth ≡ expr_depth (expr left) }
    requires some { depth < room }
    ensures gives { Gives (λ x. (expr x.0, toks x.2.now)) result
        (suffix_by (context scope.now) (readers (context scope.now) (room - 1)) (toks begun.now.from.now) (expr left)
        (toks begun.now.rest.now) suffixes.Index) }
    ensures depth { IfOk result (λ x. x.1 ≡ expr_depth (expr x.0)) }
    ensures fits { IfOk result (λ x. x.1 ≤ room) }
{
    let found = expression(alloc, scope, room - 1, behind(begun.rest));
    let (left, (i, index_depth, rest)) = keeping(left, found)?;
    let ((left, i), rest) = keeping((left, i), close_bracket(rest))?;
    let tree = index(alloc, left, i, span(scope, begun.from, rest))?;
    Ok((tree, depth.max(index_depth) + 1, rest))
}

/// The member of that name behind an arrow or a dot.
fn selection(
    alloc: Global,
    is_arrow: bool,
    left: Expr,
    name: Name,
    span: Span,
) -> Result<Expr, Memory>
    ensures made { IfOk result (λ r. expr r ≡ selection is_arrow (expr left) name span) }
{
    if is_arrow {
        return arrow(alloc, left, name, span);
    }
    member(alloc, left, name, span)
}

/// The expression `left` with the arrow or the dot and the member's name behind it.
fn selected<'a>(
    alloc: Global,
    scope: &Scope,
    is_arrow: bool,
    left: Expr,
    depth: u32,
    begun: &Begun<'a>,
) -> Result<(Expr, u32, &'a [Token]), ReadErr>
    requires depth { depth ≡ expr_depth (expr left) }
    requires some { depth < 2 ^ 32 - 1 }
    ensures gives { Gives (λ x. (expr x.0, toks x.2.now)) result
        (selected (context scope.now) is_arrow (toks begun.now.from.now) (expr left) (toks begun.now.rest.now)) }
    ensures depth { IfOk result (λ x. x.1 ≡ expr_depth (expr x.0)) }
    ensures fits { IfOk result (λ x. x.1 ≡ depth + 1) }
{
    let found = name(alloc, scope, behind(begun.rest));
    let (left, (n, rest)) = keeping(left, found)?;
    let tree = selection(alloc, is_arrow, left, n, span(scope, begun.from, rest))?;
    Ok((tree, depth + 1, rest))
}

#[tactic(auto, using(crate::proofs::Steps::reader_steps))]
#[cycle(expressions)]
fn primary<'a>(
    alloc: Global,
    scope: &Scope,
    room: u32,
    tokens: &'a [Token],
) -> Result<(Expr, u32, &'a [Token]), ReadErr>
    requires some { 0 < room }
    ensures gives { Gives (λ x. (expr x.0, toks x.2.now)) result
        (primary_with (context scope.now) (readers (context scope.now) (room - 1)) (toks tokens.now)) }
    ensures depth { IfOk result (λ x. x.1 ≡ expr_depth (expr x.0)) }
    ensures fits { IfOk result (λ x. x.1 ≤ room) }
{
    let rest = behind(tokens);
    match lead_at(scope, tokens) {
        Lead::Name => named(alloc, scope, room, tokens),
        Lead::Value(n) => Ok((Expr::Number(n, span(scope, tokens, rest)), 1, rest)),
        Lead::Text => {
            let text = word(alloc, tokens)?;
            Ok((Expr::Text(text, span(scope, tokens, rest)), 1, rest))
        }
        Lead::Null => Ok((Expr::Null(span(scope, tokens, rest)), 1, rest)),
        Lead::Paren => parenthesised(alloc, scope, room, tokens),
        Lead::Other => Err(bad(tokens)),
    }
}

/// A name or a call, from the name on.
#[tactic(auto, using(crate::proofs::Steps::reader_steps))]
#[cycle(expressions)]
fn named<'a>(
    alloc: Global,
    scope: &Scope,
    room: u32,
    tokens: &'a [Token],
) -> Result<(Expr, u32, &'a [Token]), ReadErr>
    requires some { 0 < room }
    ensures gives { Gives (λ x. (expr x.0, toks x.2.now)) result
        (named_by (context scope.now) (readers (context scope.now) (room - 1)) (toks tokens.now) (at_open_paren (behind (toks tokens.now)))) }
    ensures depth { IfOk result (λ x. x.1 ≡ expr_depth (expr x.0)) }
    ensures fits { IfOk result (λ x. x.1 ≤ room) }
{
    let rest = behind(tokens);
    let n = word(alloc, tokens)?;
    if !at(Punct::OpenParen, rest) {
        return Ok((Expr::Name(n, span(scope, tokens, rest)), 1, rest));
    }
    let found = arguments(alloc, scope, room - 1, behind(rest));
    let (n, (args, depth, rest)) = keeping(n, found)?;
    Ok((
        Expr::Call(n, args, span(scope, tokens, rest)),
        depth + 1,
        rest,
    ))
}

#[tactic(auto, using(crate::proofs::Steps::reader_steps))]
#[cycle(expressions)]
fn parenthesised<'a>(
    alloc: Global,
    scope: &Scope,
    room: u32,
    tokens: &'a [Token],
) -> Result<(Expr, u32, &'a [Token]), ReadErr>
    requires some { 0 < room }
    ensures gives { Gives (λ x. (expr x.0, toks x.2.now)) result
        (primary_by (context scope.now) (readers (context scope.now) (room - 1)) (toks tokens.now) main_leads.Paren) }
    ensures depth { IfOk result (λ x. x.1 ≡ expr_depth (expr x.0)) }
    ensures fits { IfOk result (λ x. x.1 ≤ room) }
{
    let (e, depth, rest) = expression(alloc, scope, room - 1, behind(tokens))?;
    let (e, rest) = keeping(e, close_paren(rest))?;
    Ok((paren(alloc, e, span(scope, tokens, rest))?, depth + 1, rest))
}

/// A call's arguments, up to and with the parenthesis that closes them.
#[tactic(auto, using(crate::proofs::Steps::reader_steps))]
#[cycle(expressions)]
fn arguments<'a>(
    alloc: Global,
    scope: &Scope,
    room: u32,
    tokens: &'a [Token],
) -> Result<(Seq<Expr>, u32, &'a [Token]), ReadErr>
    ensures gives { Gives (λ x. (map expr x.0, toks x.2.now)) result (arguments_with (readers (context scope.now) room) (toks tokens.now)) }
    ensures depth { IfOk result (λ x. x.1 ≡ exprs_depth (exprs (map expr x.0))) }
    ensures fits { IfOk result (λ x. x.1 ≤ room) }
{
    let mut found = Vec::new(alloc);
    if at(Punct::CloseParen, tokens) {
        return Ok((Seq::from_vec(found), 0, behind(tokens)));
    }
    let (first, mut depth, mut rest) = expression(alloc, scope, room, tokens)?;
    found.push(first)?;
    'arguments: while at(Punct::Comma, rest) {
        let (next, next_depth, after) = expression(alloc, scope, room, behind(rest))?;
        found.push(next)?;
        depth = depth.max(next_depth);
        rest = after;
    }
    let rest = close_paren(rest)?;
    Ok((Seq::from_vec(found), depth, rest))
}

fn base<'a>(
    alloc: Global,
    scope: &Scope,
    tokens: &'a [Token],
) -> Result<(TypeTree, &'a [Token]), ReadErr>
    ensures gives { Gives (λ x. (type x.0, toks x.1.now)) result (base (context scope.now) (toks tokens.now)) }
    ensures depth { IfOk result (λ x. type_depth (type x.0) ≡ 1) }
{
    let rest = behind(tokens);
    match type_at(scope, tokens) {
        TypeLead::Int => Ok((TypeTree::Int, rest)),
        TypeLead::Bool => Ok((TypeTree::Bool, rest)),
        TypeLead::Named => Ok((TypeTree::Named(word(alloc, tokens)?), rest)),
        TypeLead::Void => {
            if !at(Punct::Star, rest) {
                return Err(bad(rest));
            }
            Ok((TypeTree::Void, rest))
        }
        TypeLead::Other => Err(bad(tokens)),
    }
}

#[tactic(auto, using(crate::proofs::Steps::reader_steps))]
#[cycle(expressions)]
pub(crate) fn type_tree<'a>(
    alloc: Global,
    scope: &Scope,
    room: u32,
    tokens: &'a [Token],
) -> Result<(TypeTree, u32, &'a [Token]), ReadErr>
    ensures gives { Gives (λ x. (type x.0, toks x.2.now)) result (type_read (context scope.now) room (toks tokens.now)) }
    ensures depth { IfOk result (λ x. x.1 ≡ type_depth (type x.0)) }
    ensures fits { IfOk result (λ x. x.1 ≤ room) }
{
    if room == 0 {
        return Err(no_room(begins_type(scope, tokens), tokens));
    }
    let (mut ty, mut rest) = base(alloc, scope, tokens)?;
    let mut depth = 1;
    'marks: loop {
        match type_mark_at(rest) {
            TypeMark::Star => {
                let (fitting, _) = keeping(ty, raised(room, depth, rest))?;
                ty = pointer(alloc, fitting)?;
                depth += 1;
                rest = behind(rest);
            }
            TypeMark::Bracket => {
                let (array, array_depth, after) = run(alloc, scope, room, ty, depth, rest)?;
                ty = array;
                depth = array_depth;
                rest = after;
            }
            TypeMark::Nothing => return Ok((ty, depth, rest)),
        }
    }
}

/// The array of the type `ty` that a run of brackets makes, the first of them the outermost.
#[tactic(auto, using(crate::proofs::Steps::reader_steps))]
#[cycle(expressions)]
fn run<'a>(
    alloc: Global,
    scope: &Scope,
    room: u32,
    ty: TypeTree,
    depth: u32,
    tokens: &'a [Token],
) -> Result<(TypeTree, u32, &'a [Token]), ReadErr>
    requires depth { depth ≡ type_depth (type ty) }
    ensures gives { Gives (λ x. (type x.0, toks x.2.now)) result (run_at (context scope.now) room (type ty) (toks tokens.now)) }
    ensures depth { IfOk result (λ x. x.1 ≡ type_depth (type x.0)) }
    ensures fits { IfOk result (λ x. x.1 ≤ room) }
{
    let (ty, _) = keeping(ty, raised(room, depth, tokens))?;
    let found = level(alloc, scope, room - 1, 10, behind(tokens));
    let (ty, (size, size_depth, rest)) = keeping(ty, found)?;
    let ((ty, size), rest) = keeping((ty, size), close_bracket(rest))?;
    if !at(Punct::OpenBracket, rest) {
        return Ok((array(alloc, ty, size)?, depth.max(size_depth) + 1, rest));
    }
    let found = run(alloc, scope, room - 1, ty, depth, rest);
    let (size, (of, of_depth, rest)) = keeping(size, found)?;
    Ok((array(alloc, of, size)?, of_depth.max(size_depth) + 1, rest))
}
