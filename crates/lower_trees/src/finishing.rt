// What comes behind the operands of an expression, and expressions without operands.
ghost use Rattle.std.specs.Prelude.{◌≡◌, ◌≤◌, ◌+◌, ◌++◌, ◌∷◌, [], map, false, if◌then◌else◌, IfOk, OnOk};
ghost use Rattle.c_types.specs.View.{ctype, texpr, or_void};
ghost use Rattle.c_types.specs.Kinds.{is_void};
ghost use Rattle.mid_code.specs.Functions.{node};
ghost use Rattle.lower_trees.specs.Shape.{words};
ghost use Rattle.lower_trees.specs.Counts.{one_size, size_temps};
ghost use Rattle.lower_trees.specs.Pieces.{◌▸◌, DoP, listing};
ghost use Rattle.lower_trees.specs.Parts.{as_flag, converted, stored, stepped, operated, moved_by, structure_read};
ghost use Rattle.lower_trees.specs.Expressions.{later_types, step_by, stepped_to, member_of, led, called_with, converted_to};
ghost use Rattle.lower_trees.specs.inner.Adding.{Adds, AddsCode, HasRoom};
ghost use Rattle.lower_trees.specs.inner.Enclosed.{lazy_choice};
ghost use Rattle.lower_trees.specs.inner.MaybeTypes.{or_none};
ghost use Rattle.lower_trees.specs.inner.Operands.{leaf, done, behind, ahead, left, combined, assigned_at, assigned, second_at};
ghost use Rattle.lower_trees.specs.View.{shape_of, tkind};

use crate::cells::{alone, move_by, put, put_choice, read_structure, store};
use crate::kinds::{counts_up, gives_old, is_flag, is_place, is_scalar};
use crate::operands::{After, First, Operands, Second};
use crate::operating::{convert, negate_as, operate, put_flag, step_by, step_one, test_as};
use crate::output::{Nodes, Output};
use crate::reading::Reading;
use c_exprs::keeping;
use c_tree::BinOp;
use c_types::{CType, TExpr, TKind, is_structure, is_void};
use kit_base::{Memory, Seq};
use mid_code::Op;
use std::alloc::Global;

/// The structure at the place in t, whose type this is, is copied to a local of its own.
pub(crate) fn take_structure(
    s: &Reading<'_>,
    ty: &CType,
    t: u32,
    out: &mut Output,
) -> Result<(), Memory>
    requires room { HasRoom out.old 0 (words (shape_of s.now) (ctype ty.now) ∷ []) }
    ensures adds { OnOk result (Adds out.old out.new (λ n m. structure_read (words (shape_of s.now) (ctype ty.now)) m t)
        0 (words (shape_of s.now) (ctype ty.now) ∷ [])) }
{
    let size = s.words(ty);
    let local = out.local();
    out.locals.push(size)?;
    read_structure(s.alloc, &mut out.nodes, size, local, t)
}

/// Computes an expression that has no operands into temporary `t`.
pub(crate) fn leaf(nodes: &mut Nodes, of: &TKind, t: u32) -> Result<(), Memory>
    ensures { OnOk result (AddsCode nodes.old nodes.new (leaf (tkind of.now) t)) }
{
    match of {
        TKind::Number(n) => put(nodes, Op::Const(t, *n)),
        TKind::Null => put(nodes, Op::Null(t)),
        TKind::Literal(number) => put(nodes, Op::Literal(t, *number)),
        TKind::Global(number) => put(nodes, Op::Global(t, *number)),
        TKind::Local(number) => put(nodes, Op::Local(t, *number)),
        TKind::In(port) => put(nodes, Op::In(t, *port)),
        TKind::Wait => put(nodes, Op::Wait),
        TKind::Halt => put(nodes, Op::Halt),
        TKind::Card => put(nodes, Op::Card(t)),
        TKind::Unary(_, _)
        | TKind::Binary(_, _, _)
        | TKind::Assign(_, _, _)
        | TKind::Step(_, _)
        | TKind::Index(_, _)
        | TKind::Member(_, _)
        | TKind::Arrow(_, _)
        | TKind::Cast(_)
        | TKind::Call(_, _)
        | TKind::Out(_, _) => Ok(()),
    }
}

/// Puts the pointer in `a`, moved on by the number of elements of a type in `b`, into `t`. The size of an element comes to the next temporary.
fn step_on(
    s: &Reading<'_>,
    ty: &CType,
    t: u32,
    a: u32,
    b: u32,
    out: &mut Output,
) -> Result<(), Memory>
    requires next { out.old.next + size_temps (ctype ty.now) ≤ 1000000 }
    ensures adds { OnOk result (Adds out.old out.new (λ n m. stepped (words (shape_of s.now) (ctype ty.now)) t a b n) (size_temps (ctype ty.now)) []) }
{
    let k = Operands {
        target: t,
        first: a,
        second: b,
        scale: out.next,
    };
    step_by(&mut out.nodes, s.words(ty), k)?;
    if is_scalar(ty) {
        return Ok(());
    }
    out.take(1);
    Ok(())
}

/// What `&&` (true) or `||` (false) comes to where the second operand is skipped.
fn skipped_word(and: bool) -> u32
    ensures { result ≡ (if and then 0 else 1) }
{
    if and { 0 } else { 1 }
}

/// Chooses by the first operand of `&&` or `||` whether the second one is run.
fn put_lazy(alloc: Global, nodes: &mut Nodes, and: bool, t: u32, last: Nodes) -> Result<(), Memory>
    ensures { OnOk result (map node nodes.new.items ≡ map node nodes.old.items ++ lazy_choice and t (map node last.items)) }
{
    let known = alone(alloc, Op::Const(t, skipped_word(and)));
    let (last, known) = keeping(last, known)?;
    if and {
        put_choice(nodes, t, last, known)
    } else {
        put_choice(nodes, t, known, last)
    }
}

/// Chooses by the first operand of `&&` or `||` whether the second one is run, whose word is made 0 or 1 where it is not known to be.
pub(crate) fn choose_lazy(
    alloc: Global,
    nodes: &mut Nodes,
    and: bool,
    flag: bool,
    t: u32,
    last: Nodes,
) -> Result<(), Memory>
    ensures { OnOk result (map node nodes.new.items ≡ map node nodes.old.items ++ lazy_choice and t (map node last.items ++ listing (as_flag flag t))) }
{
    let mut last = last;
    put_flag(&mut last, flag, t)?;
    put_lazy(alloc, nodes, and, t, last)
}

/// The value in t is stored at the place in p, whose type this is.
fn assign(
    s: &Reading<'_>,
    nodes: &mut Nodes,
    ty: &CType,
    known: bool,
    p: u32,
    t: u32,
) -> Result<(), Memory>
    ensures { OnOk result (AddsCode nodes.old nodes.new (converted (ctype ty.now) known t ▸ stored (shape_of s.now) (ctype ty.now) p t)) }
{
    convert(nodes, ty, known, t)?;
    store(s, nodes, ty, p, t)
}

/// The cell at the place in p is loaded, operated on and stored there again.
fn compound(
    s: &Reading<'_>,
    nodes: &mut Nodes,
    op: BinOp,
    ty: &CType,
    other: &CType,
    k: Operands,
    p: u32,
) -> Result<(), Memory>
    ensures { OnOk result (AddsCode nodes.old nodes.new (DoP (Op.Load k.first p)
        ▸ operated (shape_of s.now) op (ctype ty.now) (ctype other.now) k.target k.first k.second k.scale
        ▸ converted (ctype ty.now) false k.target ▸ DoP (Op.Store p k.target))) }
{
    put(nodes, Op::Load(k.first, p))?;
    operate(s, nodes, op, ty, other, k)?;
    convert(nodes, ty, false, k.target)?;
    put(nodes, Op::Store(p, k.target))
}

fn step_to(
    s: &Reading<'_>,
    nodes: &mut Nodes,
    up: bool,
    ty: &CType,
    new: u32,
    old: u32,
    p: u32,
) -> Result<(), Memory>
    requires next { p + 1 ≤ 1000000 }
    ensures nodes { OnOk result (AddsCode nodes.old nodes.new (stepped_to (shape_of s.now) up (ctype ty.now) new old p)) }
{
    put(nodes, Op::Load(old, p))?;
    step_one(s, nodes, up, ty, new, old, p + 1)?;
    convert(nodes, ty, false, new)?;
    put(nodes, Op::Store(p, new))
}

/// The cell at the place in p goes one up or down; t takes the new cell, or the old one. The temporary behind p takes the difference, and then the
/// new cell where t takes the old one.
fn step(
    s: &Reading<'_>,
    nodes: &mut Nodes,
    old: bool,
    up: bool,
    ty: &CType,
    t: u32,
    p: u32,
) -> Result<(), Memory>
    requires next { p + 1 ≤ 1000000 }
    ensures nodes { OnOk result (AddsCode nodes.old nodes.new (step_by (shape_of s.now) old up (ctype ty.now) t p)) }
{
    if old {
        step_to(s, nodes, up, ty, p + 1, t, p)
    } else {
        step_to(s, nodes, up, ty, t, t, p)
    }
}

fn load_member(nodes: &mut Nodes, place: bool, ty: &CType, t: u32) -> Result<(), Memory>
    ensures { OnOk result (AddsCode nodes.old nodes.new (member_of place (ctype ty.now) t)) }
{
    if place {
        return Ok(());
    }
    if is_structure(ty) {
        Ok(())
    } else {
        put(nodes, Op::Load(t, t))
    }
}

/// Puts the member `offset` words behind the structure in `p` into `t`; a scalar of a structure that is no place is read.
fn member(
    nodes: &mut Nodes,
    place: bool,
    ty: &CType,
    t: u32,
    p: u32,
    offset: u32,
) -> Result<(), Memory>
    ensures { OnOk result (AddsCode nodes.old nodes.new (moved_by t p offset ▸ member_of place (ctype ty.now) t)) }
{
    move_by(nodes, t, p, offset)?;
    load_member(nodes, place, ty, t)
}

/// What is done to an operand that came to `r`; it comes to `t`.
pub(crate) fn finish(
    s: &Reading<'_>,
    nodes: &mut Nodes,
    after: After<'_>,
    x: &TExpr,
    r: u32,
    t: u32,
) -> Result<(), Memory>
    requires next { behind after r ≤ 1000000 }
    ensures nodes { OnOk result (AddsCode nodes.old nodes.new (done (shape_of s.now) after.entry (texpr x.now) r t)) }
{
    match after {
        After::One(op) => put(nodes, Op::One(op, t, t)),
        After::Out(port) => put(nodes, Op::Out(port, t)),
        After::Test => test_as(nodes, &x.ty, t),
        After::Negate => negate_as(nodes, &x.ty, t),
        After::Convert(ty) => convert(nodes, ty, is_flag(x), t),
        After::ConvertFirst(types) => convert_first(nodes, types, is_flag(x), t),
        After::Step(op) => step(s, nodes, gives_old(op), counts_up(op), &x.ty, t, r),
        After::Offset(offset) => move_by(nodes, t, r, offset),
        After::Member(ty, offset) => member(nodes, is_place(x), ty, t, r, offset),
    }
}

/// What is done to both operands, where `r` is the first temporary that the first has not.
pub(crate) fn combine(
    s: &Reading<'_>,
    of: Second<'_>,
    first: First<'_>,
    y: &TExpr,
    t: u32,
    r: u32,
    out: &mut Output,
) -> Result<(), Memory>
    requires next { out.old.next + left of ≤ 1000000 }
    requires own { r + ahead of ≤ 1000000 }
    ensures adds { OnOk result (Adds out.old out.new (λ n m. combined (shape_of s.now) of.entry first.entry (texpr y.now) t r n) (left of.entry) []) }
{
    match of {
        Second::Operate(op) => {
            let scale = out.take(1);
            let k = Operands {
                target: t,
                first: first.temporary,
                second: r,
                scale,
            };
            operate(s, &mut out.nodes, op, first.ty, &y.ty, k)
        }
        Second::Element(ty) => step_on(s, ty, t, first.temporary, r, out),
        Second::Assign(op) => assign_by(s, &mut out.nodes, op, first, y, t, r),
    }
}

/// Where the value comes to that is assigned: a compound assignment reads the old cell to `t`.
fn assigned_at(op: Option<BinOp>, t: u32, r: u32) -> u32
    ensures { result ≡ assigned_at op t r }
{
    match op {
        None => t,
        Some(_) => r,
    }
}

/// The value is stored at the place; a compound assignment operates on the cell first.
fn assign_by(
    s: &Reading<'_>,
    nodes: &mut Nodes,
    op: Option<BinOp>,
    place: First<'_>,
    y: &TExpr,
    t: u32,
    r: u32,
) -> Result<(), Memory>
    requires next { r + 1 ≤ 1000000 }
    ensures nodes { OnOk result (AddsCode nodes.old nodes.new (assigned (shape_of s.now) op place.entry (texpr y.now) t r)) }
{
    match op {
        None => assign(s, nodes, place.ty, is_flag(y), place.temporary, t),
        Some(op) => {
            let k = Operands {
                target: t,
                first: t,
                second: r,
                scale: r + 1,
            };
            compound(s, nodes, op, place.ty, &y.ty, k, place.temporary)
        }
    }
}

/// How many temporaries are taken before the second operand.
pub(crate) fn ahead(of: Second<'_>) -> u32
    ensures { result ≡ ahead of.entry }
{
    match of {
        Second::Operate(_) => 1,
        Second::Element(_) => 1,
        Second::Assign(_) => 2,
    }
}

/// Where the second operand comes to.
pub(crate) fn second_at(of: Second<'_>, t: u32, r: u32) -> u32
    ensures { result ≡ second_at of.entry t r }
{
    match of {
        Second::Operate(_) => r,
        Second::Element(_) => r,
        Second::Assign(op) => assigned_at(op, t, r),
    }
}

/// The function that is called, and the temporary that its result comes to.
#[derive(Clone, Copy)]
pub(crate) struct Callee {
    pub(crate) function: u32,
    pub(crate) target: u32,
}

/// The temporaries of a call's arguments, of which the place of a structure that is returned is the first.
pub(crate) fn lead(alloc: Global, ty: Option<&CType>, t: u32) -> Result<Vec<u32>, Memory>
    ensures { IfOk result (λ r. r.items ≡ led (or_void ty.entry) t) }
{
    let mut spots = Vec::new(alloc);
    if let Some(ty) = ty {
        if is_structure(ty) {
            spots.push(t)?;
        }
    }
    Ok(spots)
}

fn target_of(ty: &CType, t: u32) -> Option<u32>
    ensures { result ≡ (if is_void (ctype ty.now) then None else Some t) }
{
    if is_void(ty) { None } else { Some(t) }
}

/// Calls a function whose result has this type.
fn call_giving(
    s: &Reading<'_>,
    ty: &CType,
    to: Callee,
    args: Vec<u32>,
    out: &mut Output,
) -> Result<(), Memory>
    requires room { HasRoom out.old 0 (one_size (shape_of s.now) (ctype ty.now)) }
    ensures adds { OnOk result (Adds out.old out.new (λ n m. called_with (ctype ty.now) to.function m to.target args.items)
        0 (one_size (shape_of s.now) (ctype ty.now))) }
{
    let args = Seq::from_vec(args);
    if is_structure(ty) {
        let local = out.local();
        out.locals.push(s.words(ty))?;
        put(&mut out.nodes, Op::Fresh(local))?;
        put(&mut out.nodes, Op::Local(to.target, local))?;
        put(&mut out.nodes, Op::Call(None, to.function, args))
    } else {
        put(
            &mut out.nodes,
            Op::Call(target_of(ty, to.target), to.function, args),
        )
    }
}

/// Calls a function whose result has this type, or which is not there.
pub(crate) fn call(
    s: &Reading<'_>,
    ty: Option<&CType>,
    to: Callee,
    args: Vec<u32>,
    out: &mut Output,
) -> Result<(), Memory>
    requires room { HasRoom out.old 0 (one_size (shape_of s.now) (or_void ty)) }
    ensures adds { OnOk result (Adds out.old out.new (λ n m. called_with (or_void ty.entry) to.function m to.target args.items)
        0 (one_size (shape_of s.now) (or_void ty.entry))) }
{
    match ty {
        None => put(
            &mut out.nodes,
            Op::Call(None, to.function, Seq::from_vec(args)),
        ),
        Some(ty) => call_giving(s, ty, to, args, out),
    }
}

/// The first of these types, where there is one, is what the value in t is converted to.
fn convert_first(
    nodes: &mut Nodes,
    types: Option<&[CType]>,
    known: bool,
    t: u32,
) -> Result<(), Memory>
    ensures { OnOk result (AddsCode nodes.old nodes.new (converted_to (or_none types.entry) known t)) }
{
    match types {
        None => Ok(()),
        Some(types) => match types.split_first() {
            None => Ok(()),
            Some((ty, _)) => convert(nodes, ty, known, t),
        },
    }
}

/// The types behind the first.
pub(crate) fn later<'a>(types: Option<&'a [CType]>) -> Option<&'a [CType]>
    ensures { or_none result ≡ later_types (or_none types.entry) }
{
    match types {
        None => None,
        Some(types) => match types.split_first() {
            None => None,
            Some((_, rest)) => Some(rest),
        },
    }
}
