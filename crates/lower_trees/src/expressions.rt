// Expressions, lowered.

ghost use Rattle.std.specs.Prelude.{◌≡◌, ◌≤◌, ◌+◌, ◌++◌, ◌∷◌, [], length, map, false, IfOk, OnOk};
ghost use Rattle.c_types.specs.View.{ctype, texpr, texprs};
ghost use Rattle.c_meaning.specs.Kinds.{type_of};
ghost use Rattle.lower_trees.specs.Shape.{words, params_of, result_of};
ghost use Rattle.lower_trees.specs.Flags.{tests_flag};
ghost use Rattle.lower_trees.specs.Counts.{unary_temps, temps, temps_of, temps_all, value_temps};
ghost use Rattle.lower_trees.specs.Counts.{unary_sizes, sizes, sizes_of, sizes_all, value_sizes, one_size};
ghost use Rattle.lower_trees.specs.Pieces.{◌▸◌, DoP};
ghost use Rattle.lower_trees.specs.Parts.{structure_read, as_flag};
ghost use Rattle.lower_trees.specs.Expressions.{spots, unary, low, low_kind, low_value, low_test, low_args};
ghost use Rattle.lower_trees.specs.Expressions.{called, lazy_choice};
ghost use Rattle.lower_trees.specs.inner.Adding.{Adds, HasRoom};
ghost use Rattle.lower_trees.specs.inner.Operands.{operand, operand_temps, operand_sizes, done, behind, ahead, left, combined, second_at};
ghost use Rattle.lower_trees.specs.View.{shape_of, tkind};

use crate::cells::put;
use crate::finishing::{
    Callee, ahead, call, choose_lazy, combine, finish, later, lead, leaf, second_at, take_structure,
};
use crate::kinds::{is_place, lazy_of, tests_flag};
use crate::operands::{After, First, Second};
use crate::output::Output;
use crate::reading::Reading;
use c_exprs::keeping;
use c_tree::UnOp;
use c_types::{CType, TExpr, TKind};
use kit_base::Memory;
use mid_code::Op;
use std::mem;
use v32_isa::One;

/// Computes an expression's value into temporary `t`.
pub(crate) fn value(s: &Reading<'_>, x: &TExpr, t: u32, out: &mut Output) -> Result<(), Memory>
    requires room { HasRoom out.old (value_temps (texpr x.now)) (value_sizes (shape_of s.now) (texpr x.now)) }
    ensures adds { OnOk result (Adds out.old out.new (low_value (shape_of s.now) (texpr x.now) t)
        (value_temps (texpr x.now)) (value_sizes (shape_of s.now) (texpr x.now))) }
{
    operand(s, x, false, t, out)
}

/// A condition as a word.
pub(crate) fn test(s: &Reading<'_>, x: &TExpr, t: u32, out: &mut Output) -> Result<(), Memory>
    requires room { HasRoom out.old (value_temps (texpr x.now)) (value_sizes (shape_of s.now) (texpr x.now)) }
    ensures adds { OnOk result (Adds out.old out.new (low_test (shape_of s.now) (texpr x.now) t)
        (value_temps (texpr x.now)) (value_sizes (shape_of s.now) (texpr x.now))) }
{
    operand_then(s, x, false, After::Test, t, t, out)
}

/// Computes an expression's place, or its value, into temporary `t`.
#[cycle(lower)]
fn operand(s: &Reading<'_>, x: &TExpr, place: bool, t: u32, out: &mut Output) -> Result<(), Memory>
    requires room { HasRoom out.old (operand_temps place (texpr x.now)) (operand_sizes (shape_of s.now) place (texpr x.now)) }
    ensures adds { OnOk result (Adds out.old out.new (operand (shape_of s.now) place (texpr x.now) t)
        (operand_temps place (texpr x.now)) (operand_sizes (shape_of s.now) place (texpr x.now))) }
{
    if place || !is_place(x) {
        return kind(s, &x.kind, &x.ty, t, out);
    }
    match &x.ty {
        CType::Array(_, _) | CType::Void => kind(s, &x.kind, &x.ty, t, out),
        CType::Struct(_) | CType::Union(_) => structure(s, x, t, out),
        CType::Int | CType::Bool | CType::Enum(_) | CType::Pointer(_) => cell(s, x, t, out),
    }
}

/// A copy of the structure to whose place an expression comes.
#[cycle(lower)]
fn structure(s: &Reading<'_>, x: &TExpr, t: u32, out: &mut Output) -> Result<(), Memory>
    requires room { HasRoom out.old (temps (texpr x.now)) (sizes (shape_of s.now) (texpr x.now) ++ words (shape_of s.now) (type_of (texpr x.now)) ∷ []) }
    ensures adds { OnOk result (Adds out.old out.new (λ n m. low (shape_of s.now) (texpr x.now) t n m
        ▸ structure_read (words (shape_of s.now) (type_of (texpr x.now))) (m + length (sizes (shape_of s.now) (texpr x.now))) t)
        (temps (texpr x.now)) (sizes (shape_of s.now) (texpr x.now) ++ words (shape_of s.now) (type_of (texpr x.now)) ∷ [])) }
{
    kind(s, &x.kind, &x.ty, t, out)?;
    take_structure(s, &x.ty, t, out)
}

/// The cell to whose place an expression comes.
#[cycle(lower)]
fn cell(s: &Reading<'_>, x: &TExpr, t: u32, out: &mut Output) -> Result<(), Memory>
    requires room { HasRoom out.old (temps (texpr x.now) + 1) (sizes (shape_of s.now) (texpr x.now)) }
    ensures adds { OnOk result (Adds out.old out.new (λ n m. low (shape_of s.now) (texpr x.now) n (n + 1) m ▸ DoP (Op.Load t n))
        (temps (texpr x.now) + 1) (sizes (shape_of s.now) (texpr x.now))) }
{
    let place = out.take(1);
    kind(s, &x.kind, &x.ty, place, out)?;
    put(&mut out.nodes, Op::Load(t, place))
}

/// Computes an expression of this kind and type into temporary `t`.
#[cycle(lower)]
fn kind(s: &Reading<'_>, of: &TKind, ty: &CType, t: u32, out: &mut Output) -> Result<(), Memory>
    requires room { HasRoom out.old (temps_of (tkind of.now) (ctype ty.now)) (sizes_of (shape_of s.now) (tkind of.now)) }
    ensures adds { OnOk result (Adds out.old out.new (low_kind (shape_of s.now) (tkind of.now) (ctype ty.now) t)
        (temps_of (tkind of.now) (ctype ty.now)) (sizes_of (shape_of s.now) (tkind of.now))) }
{
    match of {
        TKind::Number(_)
        | TKind::Null
        | TKind::Literal(_)
        | TKind::Global(_)
        | TKind::Local(_)
        | TKind::In(_)
        | TKind::Wait
        | TKind::Halt
        | TKind::Card => leaf(&mut out.nodes, of, t),
        TKind::Unary(op, x) => unary(s, *op, x, t, out),
        TKind::Binary(op, x, y) => match lazy_of(*op) {
            None => {
                let first = first_operand(s, x, false, out)?;
                second_operand(s, y, Second::Operate(*op), first, t, out)
            }
            Some(and) => {
                operand_then(s, x, false, After::Test, t, t, out)?;
                choice(s, y, and, t, out)
            }
        },
        TKind::Assign(op, x, y) => {
            let place = first_operand(s, x, true, out)?;
            second_operand(s, y, Second::Assign(*op), place, t, out)
        }
        TKind::Step(op, x) => {
            let place = out.take(2);
            operand_then(s, x, true, After::Step(*op), place, t, out)
        }
        TKind::Index(x, y) => {
            let first = first_operand(s, x, false, out)?;
            second_operand(s, y, Second::Element(ty), first, t, out)
        }
        TKind::Member(x, offset) => {
            let place = out.take(1);
            operand_then(s, x, true, After::Member(ty, *offset), place, t, out)
        }
        TKind::Arrow(x, offset) => {
            let pointer = out.take(1);
            operand_then(s, x, false, After::Offset(*offset), pointer, t, out)
        }
        TKind::Cast(x) => operand_then(s, x, false, After::Convert(ty), t, t, out),
        TKind::Call(f, xs) => call_of(s, *f, xs.as_slice(), t, out),
        TKind::Out(port, x) => operand_then(s, x, false, After::Out(*port), t, t, out),
    }
}

/// The value of a unary operator.
#[cycle(lower)]
fn unary(s: &Reading<'_>, op: UnOp, x: &TExpr, t: u32, out: &mut Output) -> Result<(), Memory>
    requires room { HasRoom out.old (unary_temps op (texpr x.now) (temps (texpr x.now)))
        (unary_sizes (shape_of s.now) op (texpr x.now) (sizes (shape_of s.now) (texpr x.now))) }
    ensures adds { OnOk result (Adds out.old out.new (unary (shape_of s.now) op (texpr x.now) (low (shape_of s.now) (texpr x.now)) t)
        (unary_temps op (texpr x.now) (temps (texpr x.now))) (unary_sizes (shape_of s.now) op (texpr x.now) (sizes (shape_of s.now) (texpr x.now)))) }
{
    match op {
        UnOp::Deref | UnOp::Plus => operand(s, x, false, t, out),
        UnOp::Address => operand(s, x, true, t, out),
        UnOp::Not => operand_then(s, x, false, After::Negate, t, t, out),
        UnOp::Minus => operand_then(s, x, false, After::One(One::ISGN), t, t, out),
        UnOp::Flip => operand_then(s, x, false, After::One(One::NOT), t, t, out),
    }
}

/// Computes an operand into temporary `r`, and then does this to it, which comes to `t`.
#[cycle(lower)]
fn operand_then(
    s: &Reading<'_>,
    x: &TExpr,
    place: bool,
    after: After<'_>,
    r: u32,
    t: u32,
    out: &mut Output,
) -> Result<(), Memory>
    requires room { HasRoom out.old (operand_temps place (texpr x.now)) (operand_sizes (shape_of s.now) place (texpr x.now)) }
    requires next { behind after r ≤ 1000000 }
    ensures adds { OnOk result (Adds out.old out.new (λ n m. operand (shape_of s.now) place (texpr x.now) r n m ▸ done (shape_of s.now) after.entry (texpr x.now) r t)
        (operand_temps place (texpr x.now)) (operand_sizes (shape_of s.now) place (texpr x.now))) }
{
    operand(s, x, place, r, out)?;
    finish(s, &mut out.nodes, after, x, r, t)
}

/// Computes the first of two operands into the first free temporary.
#[cycle(lower)]
fn first_operand<'x>(
    s: &Reading<'_>,
    x: &'x TExpr,
    place: bool,
    out: &mut Output,
) -> Result<First<'x>, Memory>
    requires room { HasRoom out.old (operand_temps place (texpr x.now) + 1) (operand_sizes (shape_of s.now) place (texpr x.now)) }
    ensures adds { OnOk result (Adds out.old out.new (λ n m. operand (shape_of s.now) place (texpr x.now) n (n + 1) m)
        (operand_temps place (texpr x.now) + 1) (operand_sizes (shape_of s.now) place (texpr x.now))) }
    ensures ty { IfOk result (λ r. ctype r.ty.now ≡ type_of (texpr x.now)) }
    ensures temporary { IfOk result (λ r. r.temporary ≡ out.old.next) }
{
    let temporary = out.take(1);
    operand(s, x, place, temporary, out)?;
    Ok(First {
        ty: &x.ty,
        temporary,
    })
}

/// The second operand, and then what is done to both.
#[cycle(lower)]
fn second_operand(
    s: &Reading<'_>,
    y: &TExpr,
    of: Second<'_>,
    first: First<'_>,
    t: u32,
    out: &mut Output,
) -> Result<(), Memory>
    requires room { HasRoom out.old (value_temps (texpr y.now) + ahead of + left of) (value_sizes (shape_of s.now) (texpr y.now)) }
    ensures adds { OnOk result (Adds out.old out.new (λ n m. low_value (shape_of s.now) (texpr y.now) (second_at of.entry t n) (n + ahead of.entry) m
        ▸ combined (shape_of s.now) of.entry first.entry (texpr y.now) t n (n + ahead of.entry + value_temps (texpr y.now)))
        (value_temps (texpr y.now) + ahead of.entry + left of.entry) (value_sizes (shape_of s.now) (texpr y.now))) }
{
    let r = out.take(ahead(of));
    operand(s, y, false, second_at(of, t, r), out)?;
    combine(s, of, first, y, t, r, out)
}

/// The second operand of `&&` or `||`, which is run where the word in t asks for it.
#[cycle(lower)]
fn choice(s: &Reading<'_>, y: &TExpr, and: bool, t: u32, out: &mut Output) -> Result<(), Memory>
    requires room { HasRoom out.old (value_temps (texpr y.now) + 3) (value_sizes (shape_of s.now) (texpr y.now)) }
    ensures adds { OnOk result (Adds out.old out.new (λ n m.
        lazy_choice and t (low_test (shape_of s.now) (texpr y.now) t (n + 1) m ▸ as_flag (tests_flag (texpr y.now)) t))
        (value_temps (texpr y.now) + 3) (value_sizes (shape_of s.now) (texpr y.now))) }
{
    let before = mem::replace(&mut out.nodes, Vec::new(s.alloc));
    out.take(1);
    let answer = operand_then(s, y, false, After::Test, t, t, out);
    let inside = mem::replace(&mut out.nodes, before);
    let (inside, _) = keeping(inside, answer)?;
    out.take(2);
    choose_lazy(s.alloc, &mut out.nodes, and, tests_flag(y), t, inside)
}

/// A call of the function f.
#[cycle(lower)]
fn call_of(s: &Reading<'_>, f: u32, xs: &[TExpr], t: u32, out: &mut Output) -> Result<(), Memory>
    requires room { HasRoom out.old (temps_all (texprs (map texpr xs.now)))
        (sizes_all (shape_of s.now) (texprs (map texpr xs.now)) ++ one_size (shape_of s.now) (result_of (shape_of s.now) f)) }
    ensures adds { OnOk result (Adds out.old out.new (λ n m. low_args (shape_of s.now) (params_of (shape_of s.now) f) (texprs (map texpr xs.now)) n m
        ▸ called (result_of (shape_of s.now) f) f (m + length (sizes_all (shape_of s.now) (texprs (map texpr xs.now)))) t
        (spots (texprs (map texpr xs.now)) n)) (temps_all (texprs (map texpr xs.now)))
        (sizes_all (shape_of s.now) (texprs (map texpr xs.now)) ++ one_size (shape_of s.now) (result_of (shape_of s.now) f))) }
{
    let mut places = lead(s.alloc, s.result(f), t)?;
    let answer = args(s, f, xs, &mut places, out);
    let (places, _) = keeping(places, answer)?;
    let to = Callee {
        function: f,
        target: t,
    };
    call(s, s.result(f), to, places, out)
}

/// Arguments come each to a temporary of its own, converted to the types of the function's parameters.
#[cycle(lower)]
fn args(
    s: &Reading<'_>,
    f: u32,
    xs: &[TExpr],
    places: &mut Vec<u32>,
    out: &mut Output,
) -> Result<(), Memory>
    requires room { HasRoom out.old (temps_all (texprs (map texpr xs.now))) (sizes_all (shape_of s.now) (texprs (map texpr xs.now))) }
    ensures adds { OnOk result (Adds out.old out.new (low_args (shape_of s.now) (params_of (shape_of s.now) f) (texprs (map texpr xs.now)))
        (temps_all (texprs (map texpr xs.now))) (sizes_all (shape_of s.now) (texprs (map texpr xs.now)))) }
    ensures spots { OnOk result (places.new.items ≡ places.old.items ++ spots (texprs (map texpr xs.now)) out.old.next) }
{
    let mut types = s.params(f);
    for x in xs {
        let spot = out.take(1);
        places.push(spot)?;
        operand_then(s, x, false, After::ConvertFirst(types), spot, spot, out)?;
        types = later(types);
    }
    Ok(())
}
