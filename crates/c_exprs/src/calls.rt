// Calls of functions with a body, and of those that every unit has.
ghost use Rattle.std.specs.Prelude.{◌≡◌, ◌∷◌, [], Ok, Err, map, option_map, IfSome, IfNone};
ghost use Rattle.c_tree.specs.View.{expr, exprs};
ghost use Rattle.c_types.specs.Types.{IntY, PointerY, VoidY};
ghost use Rattle.c_types.specs.Typed.{OutK};
ghost use Rattle.c_types.specs.View.{ctype, texpr, texprs};
ghost use Rattle.c_exprs.specs.Faults.{placed};
ghost use Rattle.c_rules.specs.declared.code.Code.TheVariants.{WrongType, BadCall};
ghost use Rattle.c_rules.specs.Kinds.{is_number};
ghost use Rattle.c_exprs.specs.Nodes.{type_of_typed};
ghost use Rattle.c_exprs.specs.Calls.{IntrinsicC, ensured, takes_port, names_port, all_convert, with_body, function_call, first_port, read_port};
ghost use Rattle.c_exprs.specs.Calls.{written_port, port_in_call, port_out_call, plain_call, intrinsic_call, call_node};
ghost use Rattle.c_exprs.specs.View.{called, ctx, tkind};
ghost use Rattle.kit_base.specs.Gives.{Gives};

use crate::error::{CheckErr, keeping};
use crate::intrinsics::{Intrinsic, intrinsic_of};
use crate::names::{Decl, Globals, Scope, find_local};
use crate::ports::named_port;
use crate::trees::refused;
use c_rules::{Code, converts, is_number, pointer_to};
use c_tree::{Expr, Span};
use c_types::{CType, TExpr, TKind, copy_type};
use kit_base::{Name, Seq};
use std::alloc::Global;

fn takes_port(intrinsic: Intrinsic) -> bool
    ensures { result ≡ takes_port (Ok (IntrinsicC intrinsic)) }
{
    match intrinsic {
        Intrinsic::PortIn | Intrinsic::PortOut => true,
        Intrinsic::WaitFrame | Intrinsic::Halt | Intrinsic::CardMemory => false,
    }
}

/// Whether the first argument of a call names a port, and so has no type.
#[tactic(auto, unfolding(crate::specs::Calls::names_port, crate::specs::Calls::callee))]
pub(crate) fn names_port(globals: &Globals, scopes: &[Scope], name: &Name) -> bool
    ensures { result ≡ names_port (ctx globals.now scopes.now) name.now }
{
    if find_local(name, scopes).is_some() {
        return false;
    }
    if globals.find(name).is_some() {
        return false;
    }
    match intrinsic_of(name.bytes()) {
        Some(intrinsic) => takes_port(intrinsic),
        None => false,
    }
}

fn next<T>(xs: &[T]) -> Option<(&T, &[T])>
    ensures some { IfSome result (λ x. xs.now ≡ x.0.now ∷ x.1.now) }
    ensures none { IfNone result (xs.now ≡ []) }
{
    xs.split_first()
}

/// Whether each argument is one that its parameter takes, as far as there are both.
fn all_convert(args: &[TExpr], params: &[CType]) -> bool
    ensures { result ≡ all_convert (map texpr args.now) (map ctype params.now) }
{
    let mut left = args;
    let mut types = params;
    while let Some((x, more)) = next(left) {
        let Some((ty, rest)) = next(types) else {
            return true;
        };
        if !converts(&x.ty, ty) {
            return false;
        }
        left = more;
        types = rest;
    }
    true
}

fn with_body(
    gives: &CType,
    number: Option<u32>,
    xs: Vec<TExpr>,
    span: Span,
) -> Result<(TKind, CType), CheckErr>
    ensures { Gives called result (placed span (with_body (ctype gives.now) (texprs (map texpr xs.items)) number)) }
{
    match number {
        Some(number) => {
            let ty = copy_type(gives)?;
            Ok((TKind::Call(number, Seq::from_vec(xs)), ty))
        }
        None => Err(refused(span, Code::BadCall)),
    }
}

/// A call of a function with these parameters, whose number is none where it has no body.
#[tactic(auto, using(crate::proofs::Arguments::arguments), unfolding(crate::specs::Calls::function_call))]
fn function_call(
    params: &[CType],
    gives: &CType,
    number: Option<u32>,
    xs: Vec<TExpr>,
    span: Span,
) -> Result<(TKind, CType), CheckErr>
    ensures { Gives called result (placed span (function_call (map ctype params.now) (ctype gives.now) number (texprs (map texpr xs.items)))) }
{
    if !all_convert(&xs, params) {
        return Err(refused(span, Code::WrongType));
    }
    if xs.len() != params.len() {
        return Err(refused(span, Code::BadCall));
    }
    with_body(gives, number, xs, span)
}

fn read_port(args: &[Expr], span: Span) -> Result<(TKind, CType), CheckErr>
    ensures { Gives called result (placed span (read_port (first_port (exprs (map expr args.now))))) }
{
    let Some((first, _)) = next(args) else {
        return Err(refused(span, Code::BadCall));
    };
    let Some(port) = named_port(first) else {
        return Err(refused(span, Code::BadPort));
    };
    if !port.readable {
        return Err(refused(span, Code::BadPort));
    }
    Ok((TKind::In(port.number), CType::Int))
}

/// The number of the port that the word `x` goes to.
fn written_port(args: &[Expr], x: &TExpr, span: Span) -> Result<u32, CheckErr>
    ensures { Gives (λ n. (OutK n (texpr x.now), VoidY)) result
        (placed span (ensured WrongType (is_number (type_of_typed (texpr x.now))) (written_port (texpr x.now) (first_port (exprs (map expr args.now)))))) }
{
    if !is_number(&x.ty) {
        return Err(refused(span, Code::WrongType));
    }
    let Some((first, _)) = next(args) else {
        return Err(refused(span, Code::BadCall));
    };
    let Some(port) = named_port(first) else {
        return Err(refused(span, Code::BadPort));
    };
    if !port.writable {
        return Err(refused(span, Code::BadPort));
    }
    Ok(port.number)
}

fn write_port(
    alloc: Global,
    args: &[Expr],
    x: TExpr,
    span: Span,
) -> Result<(TKind, CType), CheckErr>
    ensures { Gives called result (placed span
        (ensured WrongType (is_number (type_of_typed (texpr x))) (written_port (texpr x) (first_port (exprs (map expr args.now)))))) }
{
    let number = written_port(args, &x, span);
    let (x, number) = keeping(x, number)?;
    Ok((TKind::Out(number, Box::new(alloc, x)?), CType::Void))
}

fn port_in_call(args: &[Expr], xs: &[TExpr], span: Span) -> Result<(TKind, CType), CheckErr>
    ensures { Gives called result (placed span (port_in_call (exprs (map expr args.now)) (map texpr xs.now))) }
{
    match next(xs) {
        Some(_) => Err(refused(span, Code::BadCall)),
        None => read_port(args, span),
    }
}

/// More words than one are refused.
fn more_words(first: &TExpr, span: Span) -> Result<(TKind, CType), CheckErr>
    ensures { Gives called result (placed span (ensured WrongType (is_number (type_of_typed (texpr first.now))) (Err BadCall))) }
{
    if !is_number(&first.ty) {
        return Err(refused(span, Code::WrongType));
    }
    Err(refused(span, Code::BadCall))
}

#[tactic(auto, using(crate::proofs::Arguments::out_more))]
fn port_out_call(
    alloc: Global,
    args: &[Expr],
    mut xs: Vec<TExpr>,
    span: Span,
) -> Result<(TKind, CType), CheckErr>
    ensures { Gives called result (placed span (port_out_call (exprs (map expr args.now)) (map texpr xs.items))) }
{
    let Some(last) = xs.pop() else {
        return Err(refused(span, Code::BadCall));
    };
    match next(&xs) {
        Some((first, _)) => more_words(first, span),
        None => write_port(alloc, args, last, span),
    }
}

fn plain_call(kind: TKind, ty: CType, xs: &[TExpr], span: Span) -> Result<(TKind, CType), CheckErr>
    ensures { Gives called result (placed span (plain_call (tkind kind) (ctype ty) (map texpr xs.now))) }
{
    if xs.is_empty() {
        Ok((kind, ty))
    } else {
        Err(refused(span, Code::BadCall))
    }
}

#[tactic(auto, unfolding(crate::specs::Calls::intrinsic_call))]
fn intrinsic_call(
    alloc: Global,
    intrinsic: Intrinsic,
    args: &[Expr],
    xs: Vec<TExpr>,
    span: Span,
) -> Result<(TKind, CType), CheckErr>
    ensures { Gives called result (placed span (intrinsic_call intrinsic (exprs (map expr args.now)) (map texpr xs.items))) }
{
    match intrinsic {
        Intrinsic::PortIn => port_in_call(args, &xs, span),
        Intrinsic::PortOut => port_out_call(alloc, args, xs, span),
        Intrinsic::WaitFrame => plain_call(TKind::Wait, CType::Void, &xs, span),
        Intrinsic::Halt => plain_call(TKind::Halt, CType::Void, &xs, span),
        Intrinsic::CardMemory => {
            let ty = pointer_to(alloc, &CType::Int)?;
            plain_call(TKind::Card, ty, &xs, span)
        }
    }
}

/// What a call is, and the type of what it gives. The arguments behind a port's name are typed.
#[tactic(auto, using(crate::proofs::Arguments::arguments), unfolding(crate::specs::Calls::call_node, crate::specs::Calls::callee))]
pub(crate) fn call_node(
    alloc: Global,
    globals: &Globals,
    scopes: &[Scope],
    name: &Name,
    args: &[Expr],
    xs: Vec<TExpr>,
    span: Span,
) -> Result<(TKind, CType), CheckErr>
    ensures { Gives called result (placed span (call_node (ctx globals.now scopes.now) name.now (exprs (map expr args.now)) (texprs (map texpr xs.items)))) }
{
    if find_local(name, scopes).is_some() {
        return Err(refused(span, Code::WrongType));
    }
    match globals.find(name) {
        Some(Decl::Alias(_)) => Err(refused(span, Code::Twice)),
        Some(Decl::Constant(_)) => Err(refused(span, Code::WrongType)),
        Some(Decl::Object(_, _)) => Err(refused(span, Code::WrongType)),
        Some(Decl::Function(params, gives)) => {
            let number = globals.body(name);
            function_call(params.as_slice(), gives, number, xs, span)
        }
        None => match intrinsic_of(name.bytes()) {
            Some(intrinsic) => intrinsic_call(alloc, intrinsic, args, xs, span),
            None => Err(refused(span, Code::UnknownName)),
        },
    }
}
