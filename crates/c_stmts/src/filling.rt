// The typing of initialisers.
ghost use Rattle.std.specs.Prelude.{◌≡◌, ℕ, [], List, map, option_map, length, IfOk, OnErr, Err};
ghost use Rattle.std.specs.Option.{option_map_or};
ghost use Rattle.c_tree.specs.View.{init, inits};
ghost use Rattle.c_types.specs.Typed.{TInitT};
ghost use Rattle.c_types.specs.View.{ctype, layout, texpr, tinit, tinits};
ghost use Rattle.c_rules.specs.Kinds.{is_int, element_count};
ghost use Rattle.kit_base.specs.declared.failure.Failure.TheVariants.{Cause};
ghost use Rattle.c_exprs.specs.Env.{Text};
ghost use Rattle.c_exprs.specs.declared.error.Fault.{Fault};
ghost use Rattle.c_exprs.specs.Faults.{at, placed};
ghost use Rattle.c_exprs.specs.Nodes.{type_of_typed, kind_of_typed};
ghost use Rattle.c_exprs.specs.View.{ctx};
ghost use Rattle.kit_base.specs.Gives.{Gives};
ghost use Rattle.c_exprs.specs.Gives.{read};
ghost use Rattle.c_stmts.specs.Slots.{slots_for, item_count, has_room, literal_of, is_null_or_text, is_fixed, text_fills, local_fills, global_fills};
ghost use Rattle.c_stmts.specs.Slots.{value_fills, fills, filled};
ghost use Rattle.c_stmts.specs.InitTyping.{filled_by, all_filled_by};
ghost use Rattle.c_stmts.specs.InitTypes.{Fills};
ghost use Rattle.c_stmts.specs.InitBreaks.{NoFill};

use crate::slots::{has_room, slot_at};
use c_exprs::{
    CheckErr, Fault, Globals, Scope, Texts, constant, demanded, kept_texts, span_of, type_value,
};
use c_rules::{Code, converts};
use c_tree::{Init, Span};
use c_types::{CType, Layout, TExpr, TInit, TKind, is_structure};
use kit_base::Seq;
use std::alloc::Global;

/// The code at a node of this span.
fn refused(span: Span, code: Code) -> CheckErr
    ensures { result ≡ Cause (at span code) }
{
    CheckErr::Cause(Fault { code, span })
}

fn is_int(ty: &CType) -> bool
    ensures { result ≡ is_int (ctype ty.now) }
{
    match ty {
        CType::Int => true,
        CType::Void | CType::Bool | CType::Enum(_) | CType::Struct(_) | CType::Union(_) => false,
        CType::Pointer(_) | CType::Array(_, _) => false,
    }
}

/// How many elements an array has; none of another type.
fn elements(ty: &CType) -> u32
    ensures { result ≡ option_map_or (λ n. n) (element_count (ctype ty.now)) 0 }
{
    match ty {
        CType::Array(_, count) => *count,
        CType::Void | CType::Int | CType::Bool | CType::Enum(_) | CType::Pointer(_) => 0,
        CType::Struct(_) | CType::Union(_) => 0,
    }
}

/// The number of a text.
fn literal_of(x: &TExpr) -> Option<u32>
    ensures { result ≡ literal_of (kind_of_typed (texpr x.now)) }
{
    match &x.kind {
        TKind::Literal(number) => Some(*number),
        TKind::Number(_) | TKind::Null | TKind::Global(_) | TKind::Local(_) => None,
        TKind::Unary(_, _) | TKind::Binary(_, _, _) | TKind::Assign(_, _, _) => None,
        TKind::Step(_, _) | TKind::Index(_, _) | TKind::Member(_, _) | TKind::Arrow(_, _) => None,
        TKind::Cast(_) | TKind::Call(_, _) | TKind::In(_) | TKind::Out(_, _) => None,
        TKind::Wait | TKind::Halt | TKind::Card => None,
    }
}

fn is_null_or_text(x: &TExpr) -> bool
    ensures { result ≡ is_null_or_text (kind_of_typed (texpr x.now)) }
{
    match &x.kind {
        TKind::Null | TKind::Literal(_) => true,
        TKind::Number(_) | TKind::Global(_) | TKind::Local(_) => false,
        TKind::Unary(_, _) | TKind::Binary(_, _, _) | TKind::Assign(_, _, _) => false,
        TKind::Step(_, _) | TKind::Index(_, _) | TKind::Member(_, _) | TKind::Arrow(_, _) => false,
        TKind::Cast(_) | TKind::Call(_, _) | TKind::In(_) | TKind::Out(_, _) => false,
        TKind::Wait | TKind::Halt | TKind::Card => false,
    }
}

/// What a global may be filled with: a constant, NULL, a text.
fn is_fixed(x: &TExpr) -> bool
    ensures { result ≡ is_fixed (texpr x.now) }
{
    constant(x).is_some() || is_null_or_text(x)
}

/// An array of int is filled with a text that has room with its 0.
fn text_fills(span: Span, of: &CType, count: u32, x: &TExpr) -> Result<TInit, CheckErr>
    ensures { Gives tinit result (placed span (text_fills (ctype of.now) count (literal_of (kind_of_typed (texpr x.now))) (type_of_typed (texpr x.now)))) }
{
    match literal_of(x) {
        Some(number) => {
            if !(is_int(of) && elements(&x.ty) <= count) {
                return Err(refused(span, Code::WrongType));
            }
            Ok(TInit::Text(number))
        }
        None => Err(refused(span, Code::WrongType)),
    }
}

fn local_fills(span: Span, ty: &CType, x: TExpr) -> Result<TInit, CheckErr>
    ensures { Gives tinit result (placed span (local_fills (ctype ty.now) (texpr x))) }
{
    if !converts(&x.ty, ty) {
        return Err(refused(span, Code::WrongType));
    }
    Ok(TInit::One(x))
}

fn global_fills(span: Span, ty: &CType, x: TExpr) -> Result<TInit, CheckErr>
    ensures { Gives tinit result (placed span (global_fills (ctype ty.now) (texpr x))) }
{
    if !(converts(&x.ty, ty) && !is_structure(ty)) {
        return Err(refused(span, Code::WrongType));
    }
    if !is_fixed(&x) {
        return Err(refused(span, Code::NotConstant));
    }
    Ok(TInit::One(x))
}

fn value_fills(span: Span, global: bool, ty: &CType, x: TExpr) -> Result<TInit, CheckErr>
    ensures { Gives tinit result (placed span (value_fills global (ctype ty.now) (texpr x))) }
{
    if global {
        global_fills(span, ty, x)
    } else {
        local_fills(span, ty, x)
    }
}

fn fills(span: Span, global: bool, ty: &CType, x: TExpr) -> Result<TInit, CheckErr>
    ensures { Gives tinit result (placed span (fills global (ctype ty.now) (texpr x))) }
{
    match ty {
        CType::Array(of, count) => text_fills(span, of.ty(), *count, &x),
        CType::Void | CType::Int | CType::Bool | CType::Enum(_) => value_fills(span, global, ty, x),
        CType::Struct(_) | CType::Union(_) | CType::Pointer(_) => value_fills(span, global, ty, x),
    }
}

/// What a value fills a target with. One that has no target is refused with its list.
#[tactic(auto, unfolding(crate::specs::Slots::filled))]
fn filled(span: Span, global: bool, target: Option<&CType>, x: TExpr) -> Result<TInit, CheckErr>
    ensures { Gives tinit result (placed span (filled global (option_map (λ t. ctype t.now) target.entry) (texpr x))) }
{
    match target {
        Some(ty) => fills(span, global, ty, x),
        None => Ok(TInit::One(x)),
    }
}

/// Whether the items of a brace list have a place each.
fn have_room(layouts: &[Layout], target: Option<&CType>, items: &[Init]) -> bool
    ensures { result ≡ has_room (item_count (inits (map init items.now))) (slots_for (map layout layouts.now) (option_map (λ t. ctype t.now) target.entry)) }
{
    has_room(layouts, target, items.len())
}

#[cycle(filling)]
fn filled_by(
    alloc: Global,
    globals: &Globals,
    scopes: &[Scope],
    texts: &mut Texts,
    initialiser: &Init,
    global: bool,
    target: Option<&CType>,
) -> Result<TInit, CheckErr>
    ensures { Gives (λ r. (tinit r, texts.new)) result
        (filled_by (ctx globals.now scopes.now) texts.old global (option_map (λ t. ctype t.now) target.entry) (init initialiser.now)) }
{
    match initialiser {
        Init::One(e) => {
            let x = type_value(alloc, globals, scopes, texts, e)?;
            let x = filled(span_of(e), global, target, x)?;
            Ok(x)
        }
        Init::List(items, span) => {
            let items = items.as_slice();
            let xs = all_filled_by(alloc, globals, scopes, texts, items, global, target)?;
            let room = have_room(&globals.layouts, target, items);
            demanded(*span, Code::WrongType, room)?;
            Ok(TInit::List(Seq::from_vec(xs)))
        }
    }
}

/// The items of a brace list, each for the next place.
#[cycle(filling)]
#[tactic(auto, using(crate::proofs::InitFronts::init_steps))]
fn all_filled_by(
    alloc: Global,
    globals: &Globals,
    scopes: &[Scope],
    texts: &mut Texts,
    items: &[Init],
    global: bool,
    target: Option<&CType>,
) -> Result<Vec<TInit>, CheckErr>
    ensures { Gives (λ r. (tinits (map tinit r.items), texts.new)) result
        (all_filled_by (ctx globals.now scopes.now) texts.old global
        (slots_for (map layout globals.now.layouts.items) (option_map (λ t. ctype t.now) target.entry)) (inits (map init items.now))) }
{
    let mut found = Vec::new(alloc);
    for i in items {
        let slot = slot_at(&globals.layouts, target, found.len());
        let x = filled_by(alloc, globals, scopes, texts, i, global, slot)?;
        found.push(x)?;
    }
    Ok(found)
}

/// What a target of this type is filled with, a global's or that of a variable of a function. An item of a brace list that has no
/// place has no target. The texts of the initialiser are added to those so far; after a refusal
/// there are none.
pub fn fill(
    alloc: Global,
    globals: &Globals,
    scopes: &[Scope],
    texts: &mut Texts,
    global: bool,
    target: Option<&CType>,
    initialiser: &Init,
) -> Result<TInit, CheckErr>
    ensures gives { Gives (λ r. (tinit r, texts.new)) result
        (filled_by (ctx globals.now scopes.now) texts.old global (option_map (λ t. ctype t.now) target.entry) (init initialiser.now)) }
    // What is answered fills so by the rules.
    ensures types { IfOk result (λ r. Fills (ctx globals.now scopes.now) texts.old global (option_map (λ t. ctype t.now) target.entry)
        (init initialiser.now) (tinit r) texts.new) }
    // What fills by the rules is answered, unless memory runs out.
    ensures only { (x : TInitT) (us : List Text)
        → Fills (ctx globals.now scopes.now) texts.old global (option_map (λ t. ctype t.now) target.entry) (init initialiser.now) x us
        → Gives (λ r. (tinit r, texts.new)) result (read x us) }
    // A refusal names the first broken rule.
    ensures first { (f : Fault) → result ≡ Err (Cause f)
        → NoFill (ctx globals.now scopes.now) texts.old global (option_map (λ t. ctype t.now) target.entry) (init initialiser.now) f }
    // After a refusal there are no texts: the unit is read no further.
    ensures refused { OnErr result (texts.new ≡ []) }
{
    let answer = filled_by(alloc, globals, scopes, texts, initialiser, global, target);
    kept_texts(alloc, texts, answer)
}
