// Operands that come at once.
ghost use Rattle.std.specs.Prelude.{◌≡◌, Some, not};
ghost use Rattle.c_types.specs.View.{ctype, texpr};
ghost use Rattle.obj_mem.specs.Queries.{truth};
ghost use Rattle.c_types.specs.Kinds.{decayed};
ghost use Rattle.c_meaning.specs.Operators.{is_true};
ghost use Rattle.c_meaning.specs.Setting.{global_at};
ghost use Rattle.c_evaluate.specs.inner.SettingView.{setting_of};
ghost use Rattle.c_evaluate.specs.inner.StoreView.{store_of};
ghost use Rattle.c_evaluate.specs.declared.frame.Outcome.TheVariants.{Value};
ghost use Rattle.c_evaluate.specs.inner.Swift.{answered, arrow_at_once, at_once, binary_at_once, cast_at_once, comes, index_at_once};
ghost use Rattle.c_evaluate.specs.inner.Swift.{is_strict, local_at_once, member_at_once, place_at_once, place_of, seen, seen_at, unary_at_once};
ghost use Rattle.c_evaluate.specs.inner.Swift.{value_at_once, with_some};

use crate::frame::Outcome;
use crate::operators::{cell_unary, converted, is_true, operated, read_as, stepped, truth};
use crate::setting::Setting;
use crate::store::Store;
use c_tree::{BinOp, UnOp};
use c_types::{CType, TExpr, TKind};
use obj_mem::{Cell, Refusal, local_object, step};

/// How deep operators may nest in what comes at once.
const DEPTH: u32 = 6;

#[inline(always)]
pub(crate) fn global_at(number: u32) -> Cell
    ensures { result ≡ global_at number }
{
    Cell::Ptr {
        object: u64::from(number),
        offset: 0,
    }
}

#[inline(always)]
fn local_at_once(at: Option<u64>) -> Option<Outcome>
    ensures { result ≡ local_at_once at }
{
    match at {
        None => None,
        Some(object) => Some(Outcome::Place(Cell::Ptr { object, offset: 0 })),
    }
}

#[inline(always)]
fn answered(answer: Result<Cell, Refusal>) -> Option<Cell>
    ensures { result ≡ answered answer }
{
    match answer {
        Ok(c) => Some(c),
        Err(_) => None,
    }
}

#[inline(always)]
fn value_at_once(answer: Result<Cell, Refusal>) -> Option<Outcome>
    ensures { result ≡ value_at_once answer }
{
    match answer {
        Ok(c) => Some(Outcome::Value(c)),
        Err(_) => None,
    }
}

#[inline(always)]
fn place_at_once(answer: Result<Cell, Refusal>) -> Option<Outcome>
    ensures { result ≡ place_at_once answer }
{
    match answer {
        Ok(p) => Some(Outcome::Place(p)),
        Err(_) => None,
    }
}

/// The value at a place. A structure takes an object of its own, so it does not come at once.
#[inline(always)]
fn seen_at<'a>(ty: &CType, p: Cell, store: &Store<'a>) -> Option<Cell>
    ensures { result ≡ seen_at (ctype ty.now) p (store_of store.now) }
{
    match ty {
        CType::Int | CType::Bool | CType::Enum(_) | CType::Pointer(_) => answered(read_as(
            ty,
            &store.objects,
            p,
        )),
        CType::Array(_, _) => Some(p),
        CType::Void | CType::Struct(_) | CType::Union(_) => None,
    }
}

/// The value of what came.
#[inline(always)]
#[tactic(auto, unfolding(crate::specs::inner::Swift::seen))]
fn seen<'a>(ty: &CType, v: Outcome, store: &Store<'a>) -> Option<Cell>
    ensures { result ≡ seen (ctype ty.now) v (store_of store.now) }
{
    match v {
        Outcome::Value(c) => Some(c),
        Outcome::Place(p) => seen_at(ty, p, store),
        Outcome::Nothing => None,
    }
}

#[inline(always)]
fn place_of(v: Outcome) -> Option<Cell>
    ensures { result ≡ place_of v }
{
    match v {
        Outcome::Place(p) => Some(p),
        Outcome::Value(_) | Outcome::Nothing => None,
    }
}

fn negated<'a>(ty: &CType, c: Cell, store: &Store<'a>) -> Option<Outcome>
    ensures { result ≡ with_some (answered (is_true (store_of store.now).objects (decayed (ctype ty.now)) c)) (λ b. Some (Value (truth (not b)))) }
{
    match is_true(&store.objects, ty, c) {
        Ok(b) => Some(Outcome::Value(truth(!b))),
        Err(_) => None,
    }
}

#[tactic(auto, unfolding(crate::specs::inner::Swift::unary_at_once))]
fn unary_at_once<'a>(op: UnOp, ty: &CType, v: Outcome, store: &Store<'a>) -> Option<Outcome>
    ensures { result ≡ unary_at_once op (ctype ty.now) v (store_of store.now) }
{
    match op {
        UnOp::Deref => match seen(ty, v, store) {
            None => None,
            Some(c) => Some(Outcome::Place(c)),
        },
        UnOp::Address => match place_of(v) {
            None => None,
            Some(p) => Some(Outcome::Value(p)),
        },
        UnOp::Not => match seen(ty, v, store) {
            None => None,
            Some(c) => negated(ty, c, store),
        },
        UnOp::Minus | UnOp::Plus | UnOp::Flip => match seen(ty, v, store) {
            None => None,
            Some(c) => value_at_once(cell_unary(op, c)),
        },
    }
}

/// Whether an operator always has both of its operands.
#[inline(always)]
pub(crate) fn is_strict(op: BinOp) -> bool
    ensures { result ≡ is_strict op }
{
    match op {
        BinOp::AndAlso | BinOp::OrElse => false,
        BinOp::Mul
        | BinOp::Div
        | BinOp::Mod
        | BinOp::Add
        | BinOp::Sub
        | BinOp::Shl
        | BinOp::Shr
        | BinOp::Less
        | BinOp::LessEq => true,
        BinOp::More
        | BinOp::MoreEq
        | BinOp::Equal
        | BinOp::NotEqual
        | BinOp::BitAnd
        | BinOp::BitXor
        | BinOp::BitOr => true,
    }
}

#[inline(always)]
#[tactic(auto, unfolding(crate::specs::inner::Swift::binary_at_once))]
fn binary_at_once<'a>(
    s: &Setting<'a>,
    op: BinOp,
    ta: &CType,
    tb: &CType,
    v: Outcome,
    w: Outcome,
    store: &Store<'a>,
) -> Option<Outcome>
    ensures { result ≡ binary_at_once (setting_of s.now) op (ctype ta.now) (ctype tb.now) v w (store_of store.now) }
{
    match seen(ta, v, store) {
        None => None,
        Some(c) => match seen(tb, w, store) {
            None => None,
            Some(d) => value_at_once(operated(s, op, ta, tb, &store.objects, c, d)),
        },
    }
}

#[inline(always)]
#[tactic(auto, unfolding(crate::specs::inner::Swift::index_at_once))]
fn index_at_once<'a>(
    s: &Setting<'a>,
    ty: &CType,
    ta: &CType,
    tb: &CType,
    v: Outcome,
    w: Outcome,
    store: &Store<'a>,
) -> Option<Outcome>
    ensures { result ≡ index_at_once (setting_of s.now) (ctype ty.now) (ctype ta.now) (ctype tb.now) v w (store_of store.now) }
{
    match seen(ta, v, store) {
        None => None,
        Some(c) => match seen(tb, w, store) {
            None => None,
            Some(d) => place_at_once(stepped(s.words(ty), c, d)),
        },
    }
}

/// The same, where the second operand may have come.
#[inline(always)]
fn binary_with<'a>(
    s: &Setting<'a>,
    op: BinOp,
    ta: &CType,
    tb: &CType,
    v: Outcome,
    w: Option<Outcome>,
    store: &Store<'a>,
) -> Option<Outcome>
    ensures { result ≡ with_some w (λ z. binary_at_once (setting_of s.now) op (ctype ta.now) (ctype tb.now) v z (store_of store.now)) }
{
    match w {
        None => None,
        Some(z) => binary_at_once(s, op, ta, tb, v, z, store),
    }
}

#[inline(always)]
fn index_with<'a>(
    s: &Setting<'a>,
    ty: &CType,
    ta: &CType,
    tb: &CType,
    v: Outcome,
    w: Option<Outcome>,
    store: &Store<'a>,
) -> Option<Outcome>
    ensures { result ≡ with_some w (λ z. index_at_once (setting_of s.now) (ctype ty.now) (ctype ta.now) (ctype tb.now) v z (store_of store.now)) }
{
    match w {
        None => None,
        Some(z) => index_at_once(s, ty, ta, tb, v, z, store),
    }
}

#[tactic(auto, unfolding(crate::specs::inner::Swift::member_at_once))]
fn member_at_once(offset: u32, v: Outcome) -> Option<Outcome>
    ensures { result ≡ member_at_once offset v }
{
    match place_of(v) {
        None => None,
        Some(p) => place_at_once(step(p, offset)),
    }
}

#[tactic(auto, unfolding(crate::specs::inner::Swift::arrow_at_once))]
fn arrow_at_once<'a>(ty: &CType, offset: u32, v: Outcome, store: &Store<'a>) -> Option<Outcome>
    ensures { result ≡ arrow_at_once (ctype ty.now) offset v (store_of store.now) }
{
    match seen(ty, v, store) {
        None => None,
        Some(c) => place_at_once(step(c, offset)),
    }
}

#[tactic(auto, unfolding(crate::specs::inner::Swift::cast_at_once))]
fn cast_at_once<'a>(to: &CType, ty: &CType, v: Outcome, store: &Store<'a>) -> Option<Outcome>
    ensures { result ≡ cast_at_once (ctype to.now) (ctype ty.now) v (store_of store.now) }
{
    match seen(ty, v, store) {
        None => None,
        Some(c) => value_at_once(converted(to, c)),
    }
}

/// What comes of an expression without operators; none of others.
#[tactic(auto, unfolding(crate::specs::inner::Swift::comes))]
fn leaf_at_once<'a>(s: &Setting<'a>, x: &TExpr, store: &Store<'a>) -> Option<Outcome>
    ensures { result ≡ comes (setting_of s.now) 0 (texpr x.now) (store_of store.now) }
{
    match &x.kind {
        TKind::Number(n) => Some(Outcome::Value(Cell::Num(*n))),
        TKind::Null => Some(Outcome::Value(Cell::Null)),
        TKind::Literal(number) => Some(Outcome::Place(s.literal_at(*number))),
        TKind::Global(number) => Some(Outcome::Place(global_at(*number))),
        TKind::Local(number) => local_at_once(local_object(&store.locals, *number as usize)),
        TKind::Unary(_, _)
        | TKind::Binary(_, _, _)
        | TKind::Index(_, _)
        | TKind::Member(_, _)
        | TKind::Arrow(_, _)
        | TKind::Cast(_)
        | TKind::Assign(_, _, _)
        | TKind::Step(_, _)
        | TKind::Call(_, _)
        | TKind::In(_)
        | TKind::Out(_, _)
        | TKind::Wait
        | TKind::Halt
        | TKind::Card => None,
    }
}

/// What comes of an expression whose operators nest to a depth at most; none of others, which take steps.
#[tactic(auto, unfolding(crate::specs::inner::Swift::comes))]
fn comes<'a>(s: &Setting<'a>, depth: u32, x: &TExpr, store: &Store<'a>) -> Option<Outcome>
    ensures { result ≡ comes (setting_of s.now) depth (texpr x.now) (store_of store.now) }
{
    if depth == 0 {
        return leaf_at_once(s, x, store);
    }
    match &x.kind {
        TKind::Unary(op, a) => match comes(s, depth - 1, a, store) {
            None => None,
            Some(v) => unary_at_once(*op, &a.ty, v, store),
        },
        TKind::Binary(op, a, b) => {
            if !is_strict(*op) {
                return None;
            }
            match comes(s, depth - 1, a, store) {
                None => None,
                Some(v) => {
                    let w = comes(s, depth - 1, b, store);
                    binary_with(s, *op, &a.ty, &b.ty, v, w, store)
                }
            }
        }
        TKind::Index(a, b) => match comes(s, depth - 1, a, store) {
            None => None,
            Some(v) => {
                let w = comes(s, depth - 1, b, store);
                index_with(s, &x.ty, &a.ty, &b.ty, v, w, store)
            }
        },
        TKind::Member(a, offset) => match comes(s, depth - 1, a, store) {
            None => None,
            Some(v) => member_at_once(*offset, v),
        },
        TKind::Arrow(a, offset) => match comes(s, depth - 1, a, store) {
            None => None,
            Some(v) => arrow_at_once(&a.ty, *offset, v, store),
        },
        TKind::Cast(a) => match comes(s, depth - 1, a, store) {
            None => None,
            Some(v) => cast_at_once(&x.ty, &a.ty, v, store),
        },
        TKind::Number(_) | TKind::Null | TKind::Literal(_) | TKind::Global(_) | TKind::Local(_) =>
            leaf_at_once(s, x, store),
        TKind::Assign(_, _, _) | TKind::Step(_, _) => None,
        TKind::Call(_, _) | TKind::In(_) | TKind::Out(_, _) => None,
        TKind::Wait | TKind::Halt | TKind::Card => None,
    }
}

/// What comes of an operand without a step; none of others, which take steps.
#[tactic(auto, unfolding(crate::specs::inner::Swift::at_once))]
pub(crate) fn at_once<'a>(s: &Setting<'a>, x: &TExpr, store: &Store<'a>) -> Option<Outcome>
    ensures { result ≡ at_once (setting_of s.now) (texpr x.now) (store_of store.now) }
{
    comes(s, DEPTH, x, store)
}

/// How many nodes an expression has that came at once: each was evaluated once.
pub(crate) fn nodes(x: &TExpr) -> u64 {
    match &x.kind {
        TKind::Unary(_, a) | TKind::Member(a, _) | TKind::Arrow(a, _) | TKind::Cast(a) => {
            nodes(a).saturating_add(1)
        }
        TKind::Binary(_, a, b) | TKind::Index(a, b) => {
            nodes(a).saturating_add(nodes(b)).saturating_add(1)
        }
        TKind::Number(_) | TKind::Null | TKind::Literal(_) | TKind::Global(_) | TKind::Local(_) =>
            1,
        TKind::Assign(_, _, _) | TKind::Step(_, _) => 1,
        TKind::Call(_, _) | TKind::In(_) | TKind::Out(_, _) => 1,
        TKind::Wait | TKind::Halt | TKind::Card => 1,
    }
}
