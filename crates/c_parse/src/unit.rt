// From tokens to the items of a unit.
ghost use Rattle.std.specs.Prelude.{◌≡◌, ◌≤◌, ◌<◌, IfErr, IfOk, Ok, length, map};
ghost use Rattle.kit_base.specs.declared.failure.Failure.TheVariants as errors;
ghost use Rattle.kit_base.specs.Gives.{Gives};
ghost use Rattle.c_parse.specs.inner.Reader.{at_semicolon};
ghost use Rattle.c_parse.specs.inner.ReadingUnits as reading;
ghost use Rattle.c_parse.specs.Scope.{declare};
ghost use Rattle.c_parse.specs.Tok.{toks};
ghost use Rattle.c_parse.specs.Units.{behind_item};
ghost use Rattle.c_parse.specs.inner.View.{context};
ghost use Rattle.c_tree.specs.View.{item, type, unit, var};
ghost use Rattle.c_tree.specs.Depth.{type_depth};
ghost use Rattle.c_tree.specs.Tree.{VoidY};

use crate::declaration::{members, parameters, values, variables};
use crate::expression::type_tree;
use crate::fault::ReadErr;
use crate::keeping::keeping;
use crate::lead::ItemLead;
use crate::leading::item_at;
use crate::scope::{Begun, Scope, span};
use crate::statement::statements;
use crate::tokens::{
    at, behind, close_brace, close_paren, end_list, name, new, no_room, open_brace, open_paren,
    semicolon,
};
use crate::types::Types;
use c_lex::{Punct, Token};
use c_tree::{Item, TypeTree, Unit, Var};
use kit_base::{Name, Seq};
use std::alloc::Global;

/// The name is a type from here on.
fn declare(scope: &mut Scope, name: &Name) -> Result<(), ReadErr>
    ensures declared { IfOk result (λ x. context scope.new ≡ declare name.now (context scope.old)) }
    ensures memory { IfErr result (λ e. e ≡ errors.Memory) }
{
    scope.types.add(name)?;
    Ok(())
}

/// A structure or a union. Its name is a type from here on.
fn structure<'a>(
    alloc: Global,
    scope: &mut Scope,
    room: u32,
    is_union: bool,
    tokens: &'a [Token],
) -> Result<(Item, &'a [Token]), ReadErr>
    ensures gives { Gives (λ x. (item x.0, toks x.1.now)) result (reading.record_at (context scope.old) room is_union (toks tokens.now)) }
    ensures declared { IfOk result (λ x. context scope.new ≡ behind_item (item x.0) (context scope.old)) }
{
    let (name, rest) = new(alloc, behind(tokens))?;
    declare(scope, &name)?;
    if at(Punct::Semicolon, rest) {
        let rest = behind(rest);
        let span = span(scope, tokens, rest);
        return Ok((
            Item::Record {
                is_union,
                name,
                members: None,
                span,
            },
            rest,
        ));
    }
    let rest = open_brace(rest)?;
    let (members, rest) = members(alloc, scope, room, rest)?;
    let (members, rest) = keeping(members, close_brace(rest))?;
    let (members, rest) = keeping(members, semicolon(rest))?;
    let span = span(scope, tokens, rest);
    Ok((
        Item::Record {
            is_union,
            name,
            members: Some(members),
            span,
        },
        rest,
    ))
}

fn enumeration<'a>(
    alloc: Global,
    scope: &mut Scope,
    room: u32,
    tokens: &'a [Token],
) -> Result<(Item, &'a [Token]), ReadErr>
    ensures gives { Gives (λ x. (item x.0, toks x.1.now)) result (reading.enum_at (context scope.old) room (toks tokens.now)) }
    ensures declared { IfOk result (λ x. context scope.new ≡ behind_item (item x.0) (context scope.old)) }
{
    let (name, rest) = new(alloc, behind(tokens))?;
    let rest = open_brace(rest)?;
    let (values, rest) = values(alloc, scope, room, rest)?;
    let (values, rest) = keeping(values, end_list(rest))?;
    let (values, rest) = keeping(values, semicolon(rest))?;
    let span = span(scope, tokens, rest);
    let declared = declare(scope, &name);
    let ((name, values), _) = keeping((name, values), declared)?;
    Ok((Item::Enum { name, values, span }, rest))
}

fn type_name<'a>(
    alloc: Global,
    scope: &mut Scope,
    room: u32,
    tokens: &'a [Token],
) -> Result<(Item, &'a [Token]), ReadErr>
    ensures gives { Gives (λ x. (item x.0, toks x.1.now)) result (reading.typedef_at (context scope.old) room (toks tokens.now)) }
    ensures declared { IfOk result (λ x. context scope.new ≡ behind_item (item x.0) (context scope.old)) }
{
    let (ty, _depth, rest) = type_tree(alloc, scope, room, behind(tokens))?;
    let (ty, (name, rest)) = keeping(ty, new(alloc, rest))?;
    let ((ty, name), rest) = keeping((ty, name), semicolon(rest))?;
    let span = span(scope, tokens, rest);
    let declared = declare(scope, &name);
    let ((ty, name), _) = keeping((ty, name), declared)?;
    Ok((Item::Typedef(ty, name, span), rest))
}

/// A function, from behind its name.
fn function<'a>(
    alloc: Global,
    scope: &Scope,
    room: u32,
    begun: &Begun<'a>,
    ty: TypeTree,
    name: Name,
) -> Result<(Item, &'a [Token]), ReadErr>
    ensures gives { Gives (λ x. (item x.0, toks x.1.now)) result
        (reading.function_at (context scope.now) room (toks begun.now.from.now) (type ty) name (toks begun.now.rest.now)) }
    ensures declared { IfOk result (λ x. context scope.now ≡ behind_item (item x.0) (context scope.now)) }
{
    let ((ty, name), rest) = keeping((ty, name), open_paren(begun.rest))?;
    let ((ty, name), (params, rest)) = keeping((ty, name), parameters(alloc, scope, room, rest))?;
    let (head, rest) = keeping((ty, name, params), close_paren(rest))?;
    let (ty, name, params) = head;
    let begun = Begun {
        from: begun.from,
        rest,
    };
    with_body(alloc, scope, room, &begun, ty, name, params)
}

/// A function, from behind its parameters.
fn with_body<'a>(
    alloc: Global,
    scope: &Scope,
    room: u32,
    begun: &Begun<'a>,
    ty: TypeTree,
    name: Name,
    params: Seq<Var>,
) -> Result<(Item, &'a [Token]), ReadErr>
    ensures gives { Gives (λ x. (item x.0, toks x.1.now)) result
        (reading.body_by (context scope.now) room (toks begun.now.from.now) (type ty) name (map var params) (toks begun.now.rest.now)
        (at_semicolon (toks begun.now.rest.now))) }
    ensures declared { IfOk result (λ x. context scope.now ≡ behind_item (item x.0) (context scope.now)) }
{
    if at(Punct::Semicolon, begun.rest) {
        let rest = behind(begun.rest);
        let span = span(scope, begun.from, rest);
        return Ok((
            Item::Function {
                result: ty,
                name,
                params,
                body: None,
                span,
            },
            rest,
        ));
    }
    let (head, rest) = keeping((ty, name, params), open_brace(begun.rest))?;
    let (head, (body, rest)) = keeping(head, statements(alloc, scope, room, rest))?;
    let ((head, body), rest) = keeping((head, body), close_brace(rest))?;
    let (result, name, params) = head;
    let span = span(scope, begun.from, rest);
    Ok((
        Item::Function {
            result,
            name,
            params,
            body: Some(body),
            span,
        },
        rest,
    ))
}

/// The variables of an item that begins at `from`, from behind the first name; `fits` is whether there is room for their type.
fn globals<'a>(
    alloc: Global,
    scope: &Scope,
    room: u32,
    from: &'a [Token],
    fits: bool,
    tokens: &[Token],
) -> Result<(Item, &'a [Token]), ReadErr>
    ensures gives { Gives (λ x. (item x.0, toks x.1.now)) result (reading.vars_by (context scope.now) room (toks from.now) (toks tokens.now) fits) }
    ensures declared { IfOk result (λ x. context scope.now ≡ behind_item (item x.0) (context scope.now)) }
{
    if !fits {
        return Err(no_room(
            at(Punct::Semicolon, tokens) || (at(Punct::Assign, tokens) || at(Punct::Comma, tokens)),
            tokens,
        ));
    }
    let (vars, rest) = variables(alloc, scope, room, from)?;
    let (vars, rest) = keeping(vars, semicolon(rest))?;
    Ok((Item::Vars(vars, span(scope, from, rest)), rest))
}

/// A function or variables, from their type on.
fn typed<'a>(
    alloc: Global,
    scope: &Scope,
    room: u32,
    tokens: &'a [Token],
) -> Result<(Item, &'a [Token]), ReadErr>
    ensures gives { Gives (λ x. (item x.0, toks x.1.now)) result (reading.typed_at (context scope.now) room (toks tokens.now)) }
    ensures declared { IfOk result (λ x. context scope.now ≡ behind_item (item x.0) (context scope.now)) }
{
    let (ty, depth, rest) = type_tree(alloc, scope, room, tokens)?;
    let (ty, (name, rest)) = keeping(ty, name(alloc, scope, rest))?;
    if at(Punct::OpenParen, rest) {
        let begun = Begun { from: tokens, rest };
        return function(alloc, scope, room, &begun, ty, name);
    }
    globals(alloc, scope, room, tokens, depth < room, rest)
}

fn read_item<'a>(
    alloc: Global,
    scope: &mut Scope,
    room: u32,
    tokens: &'a [Token],
) -> Result<(Item, &'a [Token]), ReadErr>
    ensures gives { Gives (λ x. (item x.0, toks x.1.now)) result (reading.item_read (context scope.old) room (toks tokens.now)) }
    ensures declared { IfOk result (λ x. context scope.new ≡ behind_item (item x.0) (context scope.old)) }
{
    match item_at(tokens) {
        ItemLead::Record(is_union) => structure(alloc, scope, room, is_union, tokens),
        ItemLead::Enum => enumeration(alloc, scope, room, tokens),
        ItemLead::Typedef => type_name(alloc, scope, room, tokens),
        ItemLead::Void => {
            let (name, rest) = name(alloc, scope, behind(tokens))?;
            let begun = Begun { from: tokens, rest };
            function(alloc, scope, room, &begun, TypeTree::Void, name)
        }
        ItemLead::Other => typed(alloc, scope, room, tokens),
    }
}

/// The items of a unit, with `room` trees on a path below each.
#[tactic(auto, unfolding(crate::specs::inner::ReadingUnits::unit_at))]
pub(crate) fn read_unit(alloc: Global, room: u32, tokens: &[Token]) -> Result<Unit, ReadErr>
    requires fits { length tokens.now ≤ 200000 }
    requires some { 0 < room }
    ensures { Gives unit result (reading.unit_at room (toks tokens.now)) }
{
    let mut scope = Scope {
        total: tokens.len() as u32,
        types: Types::new(alloc),
    };
    let mut found = Vec::new(alloc);
    let mut rest = tokens;
    'items: while !rest.is_empty() {
        let (next, after) = read_item(alloc, &mut scope, room, rest)?;
        found.push(next)?;
        rest = after;
    }
    Ok(Unit {
        items: Seq::from_vec(found),
    })
}
