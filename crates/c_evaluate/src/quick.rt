// Calls of functions of words that return an expression of their parameters.
ghost use Rattle.std.specs.Prelude.{◌≡◌, map, slice_get, Option, option_map, ltb};
ghost use Rattle.c_types.specs.View.{ctype, texpr, function, tstmt, tstmts};
ghost use Rattle.c_evaluate.specs.inner.SettingView.{setting_of};
ghost use Rattle.c_evaluate.specs.inner.StoreView.{store_of};
ghost use Rattle.c_evaluate.specs.inner.Swift.{answered, unary_worth, binary_worth, with_some, when, is_word, word_held, word_at, worth, are_words};
ghost use Rattle.c_evaluate.specs.inner.Swift.{returned_of, returned_by, quick_of, quick};

use crate::leaf::{is_strict, nodes};
use crate::operators::{bool_word, word_binary, word_unary};
use crate::setting::Setting;
use crate::stack::next;
use crate::store::Store;
use c_tree::{BinOp, UnOp};
use c_types::{CType, TExpr, TFunction, TKind, TStmt};
use obj_mem::{Cell, Refusal};

/// How deep operators may nest in what is returned.
const DEPTH: u32 = 6;

/// Whether the values of a type are words.
#[inline(always)]
fn is_word(ty: &CType) -> bool
    ensures { result ≡ is_word (ctype ty.now) }
{
    match ty {
        CType::Int | CType::Bool | CType::Enum(_) => true,
        CType::Void | CType::Struct(_) | CType::Union(_) | CType::Pointer(_) | CType::Array(_, _) =>
            false,
    }
}

#[inline(always)]
fn answered(answer: Result<u32, Refusal>) -> Option<u32>
    ensures { result ≡ answered answer }
{
    match answer {
        Ok(x) => Some(x),
        Err(_) => None,
    }
}

#[inline(always)]
fn word_of(c: Cell) -> Option<u32>
    ensures { result ≡ word_held (Some c) }
{
    match c {
        Cell::Num(x) => Some(x),
        Cell::Unwritten | Cell::Ptr { .. } | Cell::Null => None,
    }
}

/// The word that a parameter has.
#[inline(always)]
fn parameter(ty: &CType, args: &[Cell], k: usize) -> Option<u32>
    ensures { result ≡ when (is_word (ctype ty.now)) (word_held (slice_get args.now k)) }
{
    if !is_word(ty) {
        return None;
    }
    match args.get(k) {
        None => None,
        Some(c) => word_of(*c),
    }
}

/// A word as it is stored at a type of words.
#[inline(always)]
fn word_at(ty: &CType, x: u32) -> u32
    ensures { result ≡ word_at (ctype ty.now) x }
{
    match ty {
        CType::Bool => bool_word(x != 0),
        CType::Void | CType::Int | CType::Enum(_) | CType::Struct(_) => x,
        CType::Union(_) | CType::Pointer(_) | CType::Array(_, _) => x,
    }
}

/// The value of a unary operator.
#[inline(always)]
#[tactic(auto, unfolding(crate::specs::inner::Swift::unary_worth))]
fn unary_worth(op: UnOp, x: u32) -> Option<u32>
    ensures { result ≡ unary_worth op x }
{
    answered(word_unary(op, x))
}

/// The value of a binary operator.
#[inline(always)]
#[tactic(auto, unfolding(crate::specs::inner::Swift::binary_worth))]
fn binary_worth(op: BinOp, x: u32, y: u32) -> Option<u32>
    ensures { result ≡ binary_worth op x y }
{
    answered(word_binary(op, x, y))
}

/// The same, where the second operand may have a value.
#[inline(always)]
fn binary_with(op: BinOp, x: u32, y: Option<u32>) -> Option<u32>
    ensures { result ≡ with_some y (λ b. binary_worth op x b) }
{
    match y {
        None => None,
        Some(b) => binary_worth(op, x, b),
    }
}

/// The value of an expression of words, where the parameters have these arguments; none of others.
#[tactic(auto, unfolding(crate::specs::inner::Swift::worth))]
fn worth(depth: u32, args: &[Cell], x: &TExpr) -> Option<u32>
    ensures { result ≡ worth depth args.now (texpr x.now) }
{
    match &x.kind {
        TKind::Number(n) => Some(*n),
        TKind::Local(number) => parameter(&x.ty, args, *number as usize),
        TKind::Unary(op, a) => {
            if depth == 0 {
                return None;
            }
            match worth(depth - 1, args, a) {
                None => None,
                Some(v) => unary_worth(*op, v),
            }
        }
        TKind::Binary(op, a, b) => {
            if depth == 0 {
                return None;
            }
            if !is_strict(*op) {
                return None;
            }
            if !is_word(&a.ty) {
                return None;
            }
            match worth(depth - 1, args, a) {
                None => None,
                Some(v) => binary_with(*op, v, worth(depth - 1, args, b)),
            }
        }
        TKind::Cast(a) => {
            if depth == 0 {
                return None;
            }
            match worth(depth - 1, args, a) {
                None => None,
                Some(v) => Some(word_at(&x.ty, v)),
            }
        }
        TKind::Null | TKind::Literal(_) | TKind::Global(_) | TKind::Index(_, _) => None,
        TKind::Member(_, _) | TKind::Arrow(_, _) | TKind::Assign(_, _, _) | TKind::Step(_, _) =>
            None,
        TKind::Call(_, _) | TKind::In(_) | TKind::Out(_, _) => None,
        TKind::Wait | TKind::Halt | TKind::Card => None,
    }
}

/// Whether the parameters are words, as many as the arguments, and each is an object of one word in order, and no other is made.
fn are_words(params: &[CType], made: &[u32], sizes: &[u32], args: &[Cell]) -> bool
    ensures { result ≡ are_words 0 (map ctype params.now) made.now sizes.now args.now }
{
    let mut k: usize = 0;
    let mut types = params;
    let mut numbers = made;
    let mut words = sizes;
    let mut cells = args;
    'params: while let Some((ty, later)) = next(types) {
        let Some((j, others)) = next(numbers) else {
            return false;
        };
        let Some((w, rest)) = next(words) else {
            return false;
        };
        let Some((_, after)) = next(cells) else {
            return false;
        };
        if !(is_word(ty) && k == *j as usize && *w == 1) {
            return false;
        }
        types = later;
        numbers = others;
        words = rest;
        cells = after;
        k += 1;
    }
    numbers.is_empty() && cells.is_empty()
}

/// What a statement returns.
#[inline(always)]
fn returned_of(a: &TStmt) -> Option<&TExpr>
    ensures { option_map (λ x. texpr x.now) result ≡ returned_of (tstmt a.now) }
{
    match a {
        TStmt::Return(Some(x)) => Some(x),
        TStmt::Return(None)
        | TStmt::Block(_, _)
        | TStmt::Empty
        | TStmt::Vars(_)
        | TStmt::Do(_)
        | TStmt::If(_, _, None)
        | TStmt::If(_, _, Some(_))
        | TStmt::While(_, _)
        | TStmt::DoWhile(_, _)
        | TStmt::For(_, None, _, _, _)
        | TStmt::For(_, Some(_), _, _, _)
        | TStmt::Switch(_, _, _)
        | TStmt::Break
        | TStmt::Continue => None,
    }
}

/// What a function returns first of all.
#[inline(always)]
fn returned_by(body: &[TStmt]) -> Option<&TExpr>
    ensures { option_map (λ x. texpr x.now) result ≡ returned_by (tstmts (map tstmt body.now)) }
{
    match next(body) {
        None => None,
        Some((a, _)) => returned_of(a),
    }
}

/// What a function of words returns for these arguments; none where it takes steps.
#[tactic(auto, unfolding(crate::specs::inner::Swift::quick_of))]
fn quick_of(sizes: &[u32], g: &TFunction, args: &[Cell]) -> Option<u32>
    ensures { result ≡ quick_of sizes.now (function g.now) args.now }
{
    let Some(x) = returned_by(g.body.as_slice()) else {
        return None;
    };
    if !is_word(&g.result) {
        return None;
    }
    if !are_words(g.params.as_slice(), g.made.as_slice(), sizes, args) {
        return None;
    }
    match worth(DEPTH, args, x) {
        None => None,
        Some(a) => Some(word_at(&g.result, a)),
    }
}

/// What a call returns at once, where there is bound and room for it; none where it takes steps.
#[tactic(auto, unfolding(crate::specs::inner::Swift::quick))]
pub(crate) fn quick<'a>(
    s: &Setting<'a>,
    n: u32,
    f: u32,
    args: &[Cell],
    store: &Store<'a>,
) -> Option<u32>
    ensures { result ≡ quick (setting_of s.now) n f args.now (store_of store.now) }
{
    if !(0 < n) {
        return None;
    }
    if !s.has_room(f, store.used) {
        return None;
    }
    match s.function(f) {
        None => None,
        Some(g) => quick_of(s.locals(f), g, args),
    }
}

/// The work of a call that came at once: its `return`, and the nodes of what is returned.
pub(crate) fn quick_work<'a>(s: &Setting<'a>, f: u32) -> u64 {
    let Some(g) = s.function(f) else {
        return 0;
    };
    match returned_by(g.body.as_slice()) {
        None => 0,
        Some(x) => nodes(x).saturating_add(1),
    }
}
