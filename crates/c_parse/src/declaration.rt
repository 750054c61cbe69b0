// From tokens to variables, members, parameters and the values of an enumeration.
ghost use Rattle.std.specs.Prelude.{◌≡◌, map, option_map};
ghost use Rattle.kit_base.specs.Gives.{Gives};
ghost use Rattle.c_parse.specs.inner.ReadingDeclarations as reading;
ghost use Rattle.c_parse.specs.inner.ReadingLists as lists;
ghost use Rattle.c_parse.specs.Tok.{toks};
ghost use Rattle.c_parse.specs.inner.View.{context};
ghost use Rattle.c_tree.specs.View.{expr, init, type, var};

use crate::expression::{expression, level, type_tree};
use crate::fault::ReadErr;
use crate::keeping::keeping;
use crate::leading::{begins_expr, begins_type};
use crate::scope::{Scope, span};
use crate::tokens::{at, at_more, at_void_word, behind, end_list, name, no_room, semicolon};
use c_lex::{Punct, Token};
use c_tree::{Expr, Init, TypeTree, Var};
use kit_base::{Name, Seq};
use std::alloc::Global;

#[tactic(auto, using(crate::proofs::CodeSteps::declaration_steps))]
#[cycle(initials)]
fn initial<'a>(
    alloc: Global,
    scope: &Scope,
    room: u32,
    tokens: &'a [Token],
) -> Result<(Init, &'a [Token]), ReadErr>
    ensures gives { Gives (λ x. (init x.0, toks x.1.now)) result (reading.init_at (context scope.now) room (toks tokens.now)) }
{
    if room == 0 {
        return Err(no_room(
            at(Punct::OpenBrace, tokens) || begins_expr(scope, tokens),
            tokens,
        ));
    }
    if !at(Punct::OpenBrace, tokens) {
        let (e, _depth, rest) = expression(alloc, scope, room - 1, tokens)?;
        return Ok((Init::One(e), rest));
    }
    let mut found = Vec::new(alloc);
    let (first, mut rest) = initial(alloc, scope, room - 1, behind(tokens))?;
    found.push(first)?;
    'initials: while at_more(rest) {
        let (next, after) = initial(alloc, scope, room - 1, behind(rest))?;
        found.push(next)?;
        rest = after;
    }
    let rest = end_list(rest)?;
    Ok((
        Init::List(Seq::from_vec(found), span(scope, tokens, rest)),
        rest,
    ))
}

/// A name with a type, and with no initial value.
fn field<'a>(
    alloc: Global,
    scope: &Scope,
    ty: TypeTree,
    tokens: &'a [Token],
) -> Result<(Var, &'a [Token]), ReadErr>
    ensures gives { Gives (λ x. (var x.0, toks x.1.now)) result (reading.field (context scope.now) (type ty) (toks tokens.now)) }
{
    let (ty, (name, rest)) = keeping(ty, name(alloc, scope, tokens))?;
    let span = span(scope, tokens, rest);
    Ok((
        Var {
            ty,
            name,
            init: None,
            span,
        },
        rest,
    ))
}

fn variable<'a>(
    alloc: Global,
    scope: &Scope,
    room: u32,
    ty: TypeTree,
    tokens: &'a [Token],
) -> Result<(Var, &'a [Token]), ReadErr>
    ensures gives { Gives (λ x. (var x.0, toks x.1.now)) result (reading.var (context scope.now) room (type ty) (toks tokens.now)) }
{
    let (ty, (name, rest)) = keeping(ty, name(alloc, scope, tokens))?;
    if !at(Punct::Assign, rest) {
        let span = span(scope, tokens, rest);
        return Ok((
            Var {
                ty,
                name,
                init: None,
                span,
            },
            rest,
        ));
    }
    let value = initial(alloc, scope, room, behind(rest));
    let ((ty, name), (value, rest)) = keeping((ty, name), value)?;
    let span = span(scope, tokens, rest);
    Ok((
        Var {
            ty,
            name,
            init: Some(value),
            span,
        },
        rest,
    ))
}

/// Variables, each with that room. The type is read again for each of them.
#[tactic(auto, using(crate::proofs::CodeSteps::declaration_steps))]
pub(crate) fn variables<'a>(
    alloc: Global,
    scope: &Scope,
    room: u32,
    tokens: &'a [Token],
) -> Result<(Seq<Var>, &'a [Token]), ReadErr>
    ensures gives { Gives (λ x. (map var x.0, toks x.1.now)) result (reading.vars_at (context scope.now) room (toks tokens.now)) }
{
    if room == 0 {
        return Err(no_room(begins_type(scope, tokens), tokens));
    }
    let (ty, _depth, rest) = type_tree(alloc, scope, room - 1, tokens)?;
    let mut found = Vec::new(alloc);
    let (first, mut rest) = variable(alloc, scope, room - 1, ty, rest)?;
    found.push(first)?;
    'variables: while at(Punct::Comma, rest) {
        let (ty, _depth, _behind_type) = type_tree(alloc, scope, room - 1, tokens)?;
        let (next, after) = variable(alloc, scope, room - 1, ty, behind(rest))?;
        found.push(next)?;
        rest = after;
    }
    Ok((Seq::from_vec(found), rest))
}

/// The members that one line declares, behind those that were found before.
#[tactic(auto, using(crate::proofs::CodeSteps::declaration_steps))]
fn member<'a>(
    alloc: Global,
    scope: &Scope,
    room: u32,
    before: Vec<Var>,
    tokens: &'a [Token],
) -> Result<(Vec<Var>, &'a [Token]), ReadErr>
    ensures gives { Gives (λ x. (map var x.0.items, toks x.1.now)) result
        (reading.behind_others (map var before.items) (reading.member_at (context scope.now) room (toks tokens.now))) }
{
    if room == 0 {
        return Err(no_room(begins_type(scope, tokens), tokens));
    }
    let (ty, _depth, rest) = type_tree(alloc, scope, room - 1, tokens)?;
    let (first, mut rest) = field(alloc, scope, ty, rest)?;
    let mut found = before;
    found.push(first)?;
    'fields: while at(Punct::Comma, rest) {
        let (ty, _depth, _behind_type) = type_tree(alloc, scope, room - 1, tokens)?;
        let (next, after) = field(alloc, scope, ty, behind(rest))?;
        found.push(next)?;
        rest = after;
    }
    let rest = semicolon(rest)?;
    Ok((found, rest))
}

pub(crate) fn members<'a>(
    alloc: Global,
    scope: &Scope,
    room: u32,
    tokens: &'a [Token],
) -> Result<(Seq<Var>, &'a [Token]), ReadErr>
    ensures gives { Gives (λ x. (map var x.0, toks x.1.now)) result (reading.members_at (context scope.now) room (toks tokens.now)) }
{
    let (mut found, mut rest) = member(alloc, scope, room, Vec::new(alloc), tokens)?;
    'members: while !at(Punct::CloseBrace, rest) {
        let (more, after) = member(alloc, scope, room, found, rest)?;
        found = more;
        rest = after;
    }
    Ok((Seq::from_vec(found), rest))
}

#[tactic(auto, using(crate::proofs::CodeSteps::declaration_steps))]
fn parameter<'a>(
    alloc: Global,
    scope: &Scope,
    room: u32,
    tokens: &'a [Token],
) -> Result<(Var, &'a [Token]), ReadErr>
    ensures gives { Gives (λ x. (var x.0, toks x.1.now)) result (reading.param_at (context scope.now) room (toks tokens.now)) }
{
    if room == 0 {
        return Err(no_room(begins_type(scope, tokens), tokens));
    }
    let (ty, _depth, rest) = type_tree(alloc, scope, room - 1, tokens)?;
    field(alloc, scope, ty, rest)
}

fn at_void(tokens: &[Token]) -> bool
    ensures { result ≡ reading.at_void (toks tokens.now) }
{
    at_void_word(tokens) && at(Punct::CloseParen, behind(tokens))
}

pub(crate) fn parameters<'a>(
    alloc: Global,
    scope: &Scope,
    room: u32,
    tokens: &'a [Token],
) -> Result<(Seq<Var>, &'a [Token]), ReadErr>
    ensures gives { Gives (λ x. (map var x.0, toks x.1.now)) result (reading.params_at (context scope.now) room (toks tokens.now)) }
{
    let mut found = Vec::new(alloc);
    if at(Punct::CloseParen, tokens) {
        return Ok((Seq::from_vec(found), tokens));
    }
    if at_void(tokens) {
        return Ok((Seq::from_vec(found), behind(tokens)));
    }
    let (first, mut rest) = parameter(alloc, scope, room, tokens)?;
    found.push(first)?;
    'parameters: while at(Punct::Comma, rest) {
        let (next, after) = parameter(alloc, scope, room, behind(rest))?;
        found.push(next)?;
        rest = after;
    }
    Ok((Seq::from_vec(found), rest))
}

fn value<'a>(
    alloc: Global,
    scope: &Scope,
    room: u32,
    tokens: &'a [Token],
) -> Result<((Name, Option<Expr>), &'a [Token]), ReadErr>
    ensures gives { Gives (λ x. ((x.0.0, option_map expr x.0.1), toks x.1.now)) result (reading.value (context scope.now) room (toks tokens.now)) }
{
    let (name, rest) = name(alloc, scope, tokens)?;
    if !at(Punct::Assign, rest) {
        return Ok(((name, None), rest));
    }
    let (e, _depth, rest) = level(alloc, scope, room, 10, behind(rest))?;
    Ok(((name, Some(e)), rest))
}

/// The values of an enumeration, up to the comma or brace that ends them.
pub(crate) fn values<'a>(
    alloc: Global,
    scope: &Scope,
    room: u32,
    tokens: &'a [Token],
) -> Result<(Seq<(Name, Option<Expr>)>, &'a [Token]), ReadErr>
    ensures gives { Gives (λ x. (map (λ v. (v.0, option_map expr v.1)) x.0, toks x.1.now)) result
        (lists.listed (reading.value (context scope.now) room) (toks tokens.now)) }
{
    let mut found = Vec::new(alloc);
    let (first, mut rest) = value(alloc, scope, room, tokens)?;
    found.push(first)?;
    'values: while at_more(rest) {
        let (next, after) = value(alloc, scope, room, behind(rest))?;
        found.push(next)?;
        rest = after;
    }
    Ok((Seq::from_vec(found), rest))
}
