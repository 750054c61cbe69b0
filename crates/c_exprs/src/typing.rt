// The typing of expressions.
ghost use Rattle.std.specs.Prelude.{◌≡◌, [], List, IfOk, OnErr, Err, map};
ghost use Rattle.c_tree.specs.Tree.{ArrowE, CallE, MemberE, SizeOfE, StepE, UnaryE};
ghost use Rattle.c_tree.specs.View.{expr, exprs, type};
ghost use Rattle.c_types.specs.Types.{PointerY, VoidY, Ty};
ghost use Rattle.c_types.specs.Typed.{NullK, TExprT, Typed};
ghost use Rattle.c_types.specs.View.{ctype, texpr, texprs};
ghost use Rattle.c_rules.specs.Nodes.{needs_place};
ghost use Rattle.c_rules.specs.declared.code.Code.TheVariants.{NotConstant};
ghost use Rattle.kit_base.specs.declared.failure.Failure.TheVariants.{Cause};
ghost use Rattle.c_exprs.specs.Env.{Text};
ghost use Rattle.c_exprs.specs.declared.error.Fault.{Fault};
ghost use Rattle.c_exprs.specs.Faults.{known};
ghost use Rattle.c_exprs.specs.Nodes.{span_of, constant};
ghost use Rattle.c_exprs.specs.Typing.{as_value, text_tree, typed, all_valued, type_of};
ghost use Rattle.c_exprs.specs.Types.{Types, Values, Names};
ghost use Rattle.c_exprs.specs.Breaks.{Breaks, NoValue, NoName};
ghost use Rattle.c_exprs.specs.View.{ctx};
ghost use Rattle.kit_base.specs.Gives.{Gives};
ghost use Rattle.c_exprs.specs.Gives.{read};

use crate::calls::{call_node, names_port};
use crate::error::{CheckErr, keeping, known};
use crate::making::{
    assign_tree, binary_tree, cast_tree, compound_tree, index_tree, step_tree, unary_tree,
};
use crate::names::{Globals, Scope};
use crate::nodes::{constant, span_of};
use crate::rules::{array_at, size_at, value_at};
use crate::texts::{Texts, kept_texts};
use crate::trees::{arrow_tree, member_tree, name_tree, named_type, node};
use c_rules::{Code, Counted, array_of, pointer_to, with_elements};
use c_tree::{Expr, Span, StepOp, TypeTree, UnOp};
use c_types::{CType, TExpr, TKind, shared};
use kit_base::{Memory, Name};
use std::alloc::Global;

fn text_tree(alloc: Global, texts: &mut Texts, text: &Name, span: Span) -> Result<TExpr, CheckErr>
    ensures { Gives (λ r. (texpr r, texts.new)) result (text_tree span texts.old text.now) }
{
    let number = texts.add(text, span)?;
    let ty = array_of(alloc, &CType::Int, text.bytes().len() as u32 + 1)?;
    Ok(node(TKind::Literal(number), ty, span))
}

/// How many elements an array has whose count is of this tree.
fn count_at(span: Span, x: TExpr) -> Result<u32, CheckErr>
    ensures { Gives (λ k. k) result (known span NotConstant (constant (texpr x))) }
{
    known(span, Code::NotConstant, constant(&x))
}

/// Whether an operator's operand is kept as a place, and its value not asked for.
fn needs_place(op: UnOp) -> bool
    ensures { result ≡ needs_place op }
{
    match op {
        UnOp::Address => true,
        UnOp::Minus | UnOp::Plus | UnOp::Not | UnOp::Flip | UnOp::Deref => false,
    }
}

/// The null pointer.
fn null_tree(alloc: Global, span: Span) -> Result<TExpr, Memory>
    ensures { IfOk result (λ r. texpr r ≡ Typed NullK (PointerY VoidY) span) }
{
    let ty = pointer_to(alloc, &CType::Void)?;
    Ok(node(TKind::Null, ty, span))
}

#[cycle(typing)]
fn typed(
    alloc: Global,
    globals: &Globals,
    scopes: &[Scope],
    texts: &mut Texts,
    e: &Expr,
) -> Result<TExpr, CheckErr>
    ensures { Gives (λ r. (texpr r, texts.new)) result (typed (ctx globals.now scopes.now) texts.old (expr e.now)) }
{
    match e {
        Expr::Name(name, span) => Ok(name_tree(globals, scopes, name, *span)?),
        Expr::Number(n, span) => Ok(node(TKind::Number(*n), CType::Int, *span)),
        Expr::Text(text, span) => text_tree(alloc, texts, text, *span),
        Expr::Null(span) => Ok(null_tree(alloc, *span)?),
        Expr::Paren(a, _) => Ok(typed(alloc, globals, scopes, texts, a)?),
        Expr::Unary(op, a, span) => unary(alloc, globals, scopes, texts, *op, a, *span),
        Expr::Binary(op, a, b, span) => {
            let x = valued(alloc, globals, scopes, texts, a)?;
            let y = valued(alloc, globals, scopes, texts, b);
            let (x, y) = keeping(x, y)?;
            Ok(binary_tree(alloc, globals, *op, x, y, *span)?)
        }
        Expr::Assign(None, a, b, span) => {
            let x = typed(alloc, globals, scopes, texts, a)?;
            let y = valued(alloc, globals, scopes, texts, b);
            let (x, y) = keeping(x, y)?;
            Ok(assign_tree(alloc, globals, x, y, *span)?)
        }
        Expr::Assign(Some(op), a, b, span) => {
            let x = typed(alloc, globals, scopes, texts, a)?;
            let y = valued(alloc, globals, scopes, texts, b);
            let (x, y) = keeping(x, y)?;
            Ok(compound_tree(alloc, globals, *op, x, y, *span)?)
        }
        Expr::Step(op, a, span) => step(alloc, globals, scopes, texts, *op, a, *span),
        Expr::Index(a, b, span) => {
            let x = valued(alloc, globals, scopes, texts, a)?;
            let y = valued(alloc, globals, scopes, texts, b);
            let (x, y) = keeping(x, y)?;
            Ok(index_tree(alloc, globals, x, y, *span)?)
        }
        Expr::Member(a, name, span) => member(alloc, globals, scopes, texts, a, name, *span),
        Expr::Arrow(a, name, span) => arrow(alloc, globals, scopes, texts, a, name, *span),
        Expr::Call(name, args, span) => {
            call(alloc, globals, scopes, texts, name, args.as_slice(), *span)
        }
        Expr::Cast(to, a, span) => {
            let to = counted_type(alloc, globals, scopes, texts, *span, to)?;
            let x = valued(alloc, globals, scopes, texts, a);
            let (to, x) = keeping(to, x)?;
            Ok(cast_tree(alloc, to.ty, x, *span)?)
        }
        Expr::SizeOf(of, span) => size(alloc, globals, scopes, texts, of, *span),
    }
}

/// A unary operator and its operand.
#[cycle(typing)]
#[tactic(auto, unfolding(crate::specs::Typing::as_used))]
fn unary(
    alloc: Global,
    globals: &Globals,
    scopes: &[Scope],
    texts: &mut Texts,
    op: UnOp,
    a: &Expr,
    span: Span,
) -> Result<TExpr, CheckErr>
    ensures { Gives (λ r. (texpr r, texts.new)) result (typed (ctx globals.now scopes.now) texts.old (UnaryE op (expr a.now) span)) }
{
    let x = if needs_place(op) {
        typed(alloc, globals, scopes, texts, a)?
    } else {
        valued(alloc, globals, scopes, texts, a)?
    };
    Ok(unary_tree(alloc, op, x, span)?)
}

/// A step up or down.
#[cycle(typing)]
fn step(
    alloc: Global,
    globals: &Globals,
    scopes: &[Scope],
    texts: &mut Texts,
    op: StepOp,
    a: &Expr,
    span: Span,
) -> Result<TExpr, CheckErr>
    ensures { Gives (λ r. (texpr r, texts.new)) result (typed (ctx globals.now scopes.now) texts.old (StepE op (expr a.now) span)) }
{
    let x = typed(alloc, globals, scopes, texts, a)?;
    Ok(step_tree(alloc, globals, op, x, span)?)
}

/// A member of a structure or union.
#[cycle(typing)]
#[tactic(auto, unfolding(crate::specs::Nodes::member_tree))]
fn member(
    alloc: Global,
    globals: &Globals,
    scopes: &[Scope],
    texts: &mut Texts,
    a: &Expr,
    name: &Name,
    span: Span,
) -> Result<TExpr, CheckErr>
    ensures { Gives (λ r. (texpr r, texts.new)) result (typed (ctx globals.now scopes.now) texts.old (MemberE (expr a.now) name.now span)) }
{
    let x = typed(alloc, globals, scopes, texts, a)?;
    Ok(member_tree(alloc, &globals.layouts, x, name, span)?)
}

/// A member of the structure or union behind a pointer.
#[cycle(typing)]
#[tactic(auto, unfolding(crate::specs::Nodes::arrow_tree))]
fn arrow(
    alloc: Global,
    globals: &Globals,
    scopes: &[Scope],
    texts: &mut Texts,
    a: &Expr,
    name: &Name,
    span: Span,
) -> Result<TExpr, CheckErr>
    ensures { Gives (λ r. (texpr r, texts.new)) result (typed (ctx globals.now scopes.now) texts.old (ArrowE (expr a.now) name.now span)) }
{
    let x = valued(alloc, globals, scopes, texts, a)?;
    Ok(arrow_tree(alloc, &globals.layouts, x, name, span)?)
}

/// A call.
#[cycle(typing)]
fn call(
    alloc: Global,
    globals: &Globals,
    scopes: &[Scope],
    texts: &mut Texts,
    name: &Name,
    args: &[Expr],
    span: Span,
) -> Result<TExpr, CheckErr>
    ensures { Gives (λ r. (texpr r, texts.new)) result (typed (ctx globals.now scopes.now) texts.old (CallE name.now (exprs (map expr args.now)) span)) }
{
    let named = names_port(globals, scopes, name);
    let xs = all_valued(alloc, globals, scopes, texts, named, args)?;
    let (kind, ty) = call_node(alloc, globals, scopes, name, args, xs, span)?;
    Ok(node(kind, ty, span))
}

/// The size of a type.
#[cycle(typing)]
fn size(
    alloc: Global,
    globals: &Globals,
    scopes: &[Scope],
    texts: &mut Texts,
    of: &TypeTree,
    span: Span,
) -> Result<TExpr, CheckErr>
    ensures { Gives (λ r. (texpr r, texts.new)) result (typed (ctx globals.now scopes.now) texts.old (SizeOfE (type of.now) span)) }
{
    let found = counted_type(alloc, globals, scopes, texts, span, of)?;
    let n = size_at(globals, span, found.ty)?;
    Ok(node(TKind::Number(n), CType::Int, span))
}

/// The typed tree of an expression whose value is asked for.
#[cycle(typing)]
#[tactic(auto, unfolding(crate::specs::Typing::as_value))]
fn valued(
    alloc: Global,
    globals: &Globals,
    scopes: &[Scope],
    texts: &mut Texts,
    e: &Expr,
) -> Result<TExpr, CheckErr>
    ensures { Gives (λ r. (texpr r, texts.new)) result
        (as_value (ctx globals.now scopes.now) (span_of (expr e.now)) (typed (ctx globals.now scopes.now) texts.old (expr e.now))) }
{
    let x = typed(alloc, globals, scopes, texts, e)?;
    let checked = value_at(globals, span_of(e), &x.ty);
    let (x, _) = keeping(x, checked)?;
    Ok(x)
}

/// The arguments of a call whose first one, where it names a port, has no type.
#[cycle(typing)]
#[tactic(auto, unfolding(crate::specs::Typing::as_value))]
fn all_valued(
    alloc: Global,
    globals: &Globals,
    scopes: &[Scope],
    texts: &mut Texts,
    named: bool,
    es: &[Expr],
) -> Result<Vec<TExpr>, CheckErr>
    ensures { Gives (λ r. (texprs (map texpr r.items), texts.new)) result (all_valued (ctx globals.now scopes.now) texts.old named (exprs (map expr es.now))) }
{
    let mut found = Vec::new(alloc);
    let mut named = named;
    for e in es {
        if named {
            named = false;
            continue;
        }
        let x = valued(alloc, globals, scopes, texts, e)?;
        found.push(x)?;
    }
    Ok(found)
}

/// A pointer to a type, with its elements.
fn counted_pointer(alloc: Global, to: Counted) -> Result<Counted, Memory>
    ensures { IfOk result (λ r. ctype r.ty ≡ PointerY (ctype to.ty)) }
{
    Ok(with_elements(CType::Pointer(shared(alloc, to.ty)?)))
}

/// The type that a type tree names, with its elements: no array of it, and no use of a type's name, needs a walk down the type.
#[cycle(typing)]
#[tactic(auto, unfolding(crate::specs::Typing::as_value))]
fn counted_type(
    alloc: Global,
    globals: &Globals,
    scopes: &[Scope],
    texts: &mut Texts,
    span: Span,
    ty: &TypeTree,
) -> Result<Counted, CheckErr>
    ensures { Gives (λ r. (ctype r.ty, texts.new)) result (type_of (ctx globals.now scopes.now) texts.old span (type ty.now)) }
{
    match ty {
        TypeTree::Int => Ok(with_elements(CType::Int)),
        TypeTree::Bool => Ok(with_elements(CType::Bool)),
        TypeTree::Void => Ok(with_elements(CType::Void)),
        TypeTree::Named(name) => named_type(globals, scopes, name, span),
        TypeTree::Pointer(to) => {
            let to = counted_type(alloc, globals, scopes, texts, span, to)?;
            Ok(counted_pointer(alloc, to)?)
        }
        TypeTree::Array(of, n) => {
            let x = valued(alloc, globals, scopes, texts, n)?;
            let count = count_at(span_of(n), x)?;
            let of = counted_type(alloc, globals, scopes, texts, span, of)?;
            Ok(array_at(alloc, globals, span_of(n), of, count)?)
        }
    }
}

/// The typed tree of an expression. Its texts are added to those so far; after a refusal there are none.
pub fn type_expr(
    alloc: Global,
    globals: &Globals,
    scopes: &[Scope],
    texts: &mut Texts,
    e: &Expr,
) -> Result<TExpr, CheckErr>
    ensures gives { Gives (λ r. (texpr r, texts.new)) result (typed (ctx globals.now scopes.now) texts.old (expr e.now)) }
    // What is answered is typed so by the rules.
    ensures types { IfOk result (λ r. Types (ctx globals.now scopes.now) texts.old (expr e.now) (texpr r) texts.new) }
    // What the rules type is answered, unless memory runs out.
    ensures only { (x : TExprT) (us : List Text) → Types (ctx globals.now scopes.now) texts.old (expr e.now) x us
        → Gives (λ r. (texpr r, texts.new)) result (read x us) }
    // A refusal names the first broken rule.
    ensures first { (f : Fault) → result ≡ Err (Cause f) → Breaks (ctx globals.now scopes.now) texts.old (expr e.now) f }
    // After a refusal there are no texts: the unit is read no further.
    ensures refused { OnErr result (texts.new ≡ []) }
{
    let answer = typed(alloc, globals, scopes, texts, e);
    kept_texts(alloc, texts, answer)
}

/// The typed tree of an expression whose value is asked for. Its texts are added to those so far; after a refusal there are none.
pub fn type_value(
    alloc: Global,
    globals: &Globals,
    scopes: &[Scope],
    texts: &mut Texts,
    e: &Expr,
) -> Result<TExpr, CheckErr>
    ensures gives { Gives (λ r. (texpr r, texts.new)) result
        (as_value (ctx globals.now scopes.now) (span_of (expr e.now)) (typed (ctx globals.now scopes.now) texts.old (expr e.now))) }
    ensures types { IfOk result (λ r. Values (ctx globals.now scopes.now) texts.old (expr e.now) (texpr r) texts.new) }
    ensures only { (x : TExprT) (us : List Text) → Values (ctx globals.now scopes.now) texts.old (expr e.now) x us
        → Gives (λ r. (texpr r, texts.new)) result (read x us) }
    ensures first { (f : Fault) → result ≡ Err (Cause f) → NoValue (ctx globals.now scopes.now) texts.old (expr e.now) f }
    // After a refusal there are no texts: the unit is read no further.
    ensures refused { OnErr result (texts.new ≡ []) }
{
    let answer = valued(alloc, globals, scopes, texts, e);
    kept_texts(alloc, texts, answer)
}

/// The type that a type tree names, in a node of this span, with its elements. The texts of its counts are added to those so far;
/// after a refusal there are none.
pub fn type_of_tree(
    alloc: Global,
    globals: &Globals,
    scopes: &[Scope],
    texts: &mut Texts,
    span: Span,
    ty: &TypeTree,
) -> Result<Counted, CheckErr>
    ensures gives { Gives (λ r. (ctype r.ty, texts.new)) result (type_of (ctx globals.now scopes.now) texts.old span (type ty.now)) }
    ensures types { IfOk result (λ r. Names (ctx globals.now scopes.now) texts.old span (type ty.now) (ctype r.ty) texts.new) }
    ensures only { (t : Ty) (us : List Text) → Names (ctx globals.now scopes.now) texts.old span (type ty.now) t us
        → Gives (λ r. (ctype r.ty, texts.new)) result (read t us) }
    ensures first { (f : Fault) → result ≡ Err (Cause f) → NoName (ctx globals.now scopes.now) texts.old span (type ty.now) f }
    // After a refusal there are no texts: the unit is read no further.
    ensures refused { OnErr result (texts.new ≡ []) }
{
    let answer = counted_type(alloc, globals, scopes, texts, span, ty);
    kept_texts(alloc, texts, answer)
}
