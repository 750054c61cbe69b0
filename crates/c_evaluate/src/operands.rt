// What came of the operands of expressions.
ghost use Rattle.std.specs.Prelude.{List};
ghost use Rattle.c_types.specs.View.{ctype, texpr};
ghost use Rattle.kit_base.specs.declared.event.Event.TheVariants.{Out};
ghost use Rattle.obj_mem.specs.Queries.{word_of, truth};
ghost use Rattle.c_meaning.specs.Kinds.{span_of};
ghost use Rattle.c_meaning.specs.Operators.{converted};
ghost use Rattle.c_evaluate.specs.declared.frame.Outcome.TheVariants.{Nothing, Value};
ghost use Rattle.c_evaluate.specs.inner.Machine.{FrameT, Going, MadeF};
ghost use Rattle.c_evaluate.specs.inner.Storing.{at_span, placed_in, taken, tested_in};
ghost use Rattle.c_evaluate.specs.inner.Results.{Leads};
ghost use Rattle.c_evaluate.specs.inner.FocusView.{at, stack_of};
ghost use Rattle.c_evaluate.specs.inner.SettingView.{setting_of};
ghost use Rattle.c_evaluate.specs.inner.StoreView.{store_of};
ghost use Rattle.c_evaluate.specs.inner.Steps.{on, outcome, value_here, combined, unary_first, member_first, binary_second, second_of};
ghost use Rattle.c_evaluate.specs.inner.Swift.{binary_on, first_of_on, second_on};

use crate::assigning::{Lvalue, member, second_assigned, second_operated, stepped_place};
use crate::cells::located;
use crate::frame::{Focus, Frame, Outcome};
use crate::leaf::{at_once, nodes};
use crate::operators::{cell_unary, converted, stepped, truth};
use crate::setting::Setting;
use crate::stack::push;
use crate::stop::Stop;
use crate::store::{Store, spend};
use crate::using::{placed, taken, tested};
use c_meaning::End;
use c_tree::{BinOp, Span, UnOp};
use c_types::{CType, TExpr, TKind};
use kit_base::Event;
use obj_mem::{Cell, further, step, word_of};

/// An expression of two operands: its operator, the whole expression, and the operands.
#[derive(Clone, Copy)]
pub(crate) struct BinaryNode<'a> {
    pub(crate) op: BinOp,
    pub(crate) node: &'a TExpr,
    pub(crate) left: &'a TExpr,
    pub(crate) right: &'a TExpr,
}

/// A node of a unary operator: the operator, its operand and the node's tokens.
#[derive(Clone, Copy)]
struct UnaryNode<'a> {
    op: UnOp,
    operand: &'a TExpr,
    span: Span,
}

/// What came of the operand of a unary operator.
#[inline(always)]
fn unary<'a>(
    s: &Setting<'a>,
    n: u32,
    of: &UnaryNode<'_>,
    v: Outcome,
    stack: &Vec<Frame<'a>>,
    store: &mut Store<'a>,
) -> Result<Focus<'a>, Stop>
    ensures { Leads (λ f. at f (stack_of stack.now.items) (store_of store.new)) result
        (unary_first (setting_of s.now) n of.now.op (texpr of.now.operand.now) of.now.span v (stack_of stack.now.items) (store_of store.old)) }
{
    match of.op {
        UnOp::Deref => {
            let p = taken(s, n, of.operand, v, store)?;
            Ok(Focus::Outcome(Outcome::Place(p)))
        }
        UnOp::Address => {
            let p = placed(of.span, v)?;
            Ok(Focus::Outcome(Outcome::Value(p)))
        }
        UnOp::Not => {
            let b = tested(s, n, of.operand, v, store)?;
            Ok(Focus::Outcome(Outcome::Value(truth(!b))))
        }
        UnOp::Minus | UnOp::Plus | UnOp::Flip => {
            let c = taken(s, n, of.operand, v, store)?;
            let z = located(of.span, cell_unary(of.op, c))?;
            Ok(Focus::Outcome(Outcome::Value(z)))
        }
    }
}

/// The second operand of an expression, whose first came to a cell.
fn second<'a>(
    s: &Setting<'a>,
    n: u32,
    e: &'a TExpr,
    y: &'a TExpr,
    c: Cell,
    stack: &mut Vec<Frame<'a>>,
    store: &mut Store<'a>,
) -> Result<Focus<'a>, Stop>
    ensures { Leads (λ f. at f (stack_of stack.new.items) (store_of store.new)) result
        (second_on (setting_of s.now) n (texpr e.now) (texpr y.now) c (stack_of stack.old.items) (store_of store.old)) }
{
    match at_once(s, y, store) {
        Some(v) => {
            spend(store, nodes(y));
            with_second(s, n, e, c, v, stack, store)
        }
        None => {
            push(stack, Frame::Second(n, e, c))?;
            Ok(Focus::Eval(n, y))
        }
    }
}

/// The structure or pointer of a member came.
#[inline(always)]
fn member_of<'a>(
    ty: &CType,
    x: &TExpr,
    span: Span,
    offset: u32,
    v: Outcome,
    store: &mut Store<'a>,
) -> Result<Focus<'a>, Stop>
    ensures { (k : List FrameT) → Leads (λ f. at f k (store_of store.new)) result
        (member_first (ctype ty.now) (texpr x.now) span offset v k (store_of store.old)) }
{
    match v {
        Outcome::Place(p) => {
            let q = located(span, step(p, offset))?;
            Ok(Focus::Outcome(Outcome::Place(q)))
        }
        Outcome::Value(p) => {
            let c = member(ty, span, further(p, offset), store)?;
            Ok(Focus::Outcome(Outcome::Value(c)))
        }
        Outcome::Nothing => Err(Stop::Cause(End::Stray(x.span))),
    }
}

/// The value that is cast came.
#[inline(always)]
fn cast<'a>(
    s: &Setting<'a>,
    n: u32,
    e: &TExpr,
    x: &TExpr,
    v: Outcome,
    stack: &Vec<Frame<'a>>,
    store: &mut Store<'a>,
) -> Result<Focus<'a>, Stop>
    ensures { Leads (λ f. at f (stack_of stack.now.items) (store_of store.new)) result
        (on (taken (setting_of s.now) n (texpr x.now) v (store_of store.old))
        (λ t. value_here (at_span e.now.span (converted (ctype e.now.ty) t.0)) (stack_of stack.now.items) t.1)) }
{
    let c = taken(s, n, x, v, store)?;
    let z = located(e.span, converted(&e.ty, c))?;
    Ok(Focus::Outcome(Outcome::Value(z)))
}

/// A word goes out at a port.
fn output<'a>(
    s: &Setting<'a>,
    n: u32,
    port: u32,
    x: &TExpr,
    v: Outcome,
    stack: &Vec<Frame<'a>>,
    store: &mut Store<'a>,
) -> Result<Focus<'a>, Stop>
    ensures { Leads (λ f. at f (stack_of stack.now.items) (store_of store.new)) result
        (on (taken (setting_of s.now) n (texpr x.now) v (store_of store.old)) (λ t.
        on (at_span (span_of (texpr x.now)) (word_of t.0)) (λ z. Going (MadeF (Out port z) Nothing) (stack_of stack.now.items) t.1))) }
{
    let c = taken(s, n, x, v, store)?;
    let word = located(x.span, word_of(c))?;
    Ok(Focus::Made(Event::Out(port, word), Outcome::Nothing))
}

/// The place that is assigned to came.
#[inline(always)]
fn assignment<'a>(
    s: &Setting<'a>,
    n: u32,
    e: &'a TExpr,
    y: &'a TExpr,
    v: Outcome,
    stack: &mut Vec<Frame<'a>>,
    store: &mut Store<'a>,
) -> Result<Focus<'a>, Stop>
    ensures { Leads (λ f. at f (stack_of stack.new.items) (store_of store.new)) result
        (on (placed_in e.now.span v)
        (λ p. second_on (setting_of s.now) n (texpr e.now) (texpr y.now) p (stack_of stack.old.items) (store_of store.old))) }
{
    let p = placed(e.span, v)?;
    second(s, n, e, y, p, stack, store)
}

/// The value of the first operand of an operator other than `&&` and `||` came.
#[inline(always)]
fn strict_first<'a>(
    s: &Setting<'a>,
    n: u32,
    of: &BinaryNode<'a>,
    v: Outcome,
    stack: &mut Vec<Frame<'a>>,
    store: &mut Store<'a>,
) -> Result<Focus<'a>, Stop>
    ensures { Leads (λ f. at f (stack_of stack.new.items) (store_of store.new)) result
        (on (taken (setting_of s.now) n (texpr of.now.left.now) v (store_of store.old))
        (λ t. second_on (setting_of s.now) n (texpr of.now.node.now) (texpr of.now.right.now) t.0 (stack_of stack.old.items) t.1)) }
{
    let c = taken(s, n, of.left, v, store)?;
    second(s, n, of.node, of.right, c, stack, store)
}

/// What came of the first operand of a binary operator.
#[inline(always)]
fn binary<'a>(
    s: &Setting<'a>,
    n: u32,
    of: &BinaryNode<'a>,
    v: Outcome,
    stack: &mut Vec<Frame<'a>>,
    store: &mut Store<'a>,
) -> Result<Focus<'a>, Stop>
    ensures { Leads (λ f. at f (stack_of stack.new.items) (store_of store.new)) result
        (binary_on (setting_of s.now) n of.now.op (texpr of.now.node.now) (texpr of.now.left.now) (texpr of.now.right.now) v
        (stack_of stack.old.items) (store_of store.old)) }
{
    match of.op {
        BinOp::AndAlso => {
            if tested(s, n, of.left, v, store)? {
                second(s, n, of.node, of.right, Cell::Unwritten, stack, store)
            } else {
                Ok(Focus::Outcome(Outcome::Value(truth(false))))
            }
        }
        BinOp::OrElse => {
            if tested(s, n, of.left, v, store)? {
                Ok(Focus::Outcome(Outcome::Value(truth(true))))
            } else {
                second(s, n, of.node, of.right, Cell::Unwritten, stack, store)
            }
        }
        BinOp::Mul
        | BinOp::Div
        | BinOp::Mod
        | BinOp::Add
        | BinOp::Sub
        | BinOp::Shl
        | BinOp::Shr
        | BinOp::Less
        | BinOp::LessEq
        | BinOp::More
        | BinOp::MoreEq
        | BinOp::Equal
        | BinOp::NotEqual
        | BinOp::BitAnd
        | BinOp::BitXor
        | BinOp::BitOr => strict_first(s, n, of, v, stack, store),
    }
}

/// The truth of the second operand of `&&` or `||`, which came.
#[inline(always)]
fn truth_second<'a>(
    s: &Setting<'a>,
    n: u32,
    y: &TExpr,
    v: Outcome,
    stack: &Vec<Frame<'a>>,
    store: &mut Store<'a>,
) -> Result<Focus<'a>, Stop>
    ensures { Leads (λ f. at f (stack_of stack.now.items) (store_of store.new)) result
        (on (tested_in (setting_of s.now) n (texpr y.now) v (store_of store.old)) (λ t. outcome (Value (truth t.0)) (stack_of stack.now.items) t.1)) }
{
    let b = tested(s, n, y, v, store)?;
    Ok(Focus::Outcome(Outcome::Value(truth(b))))
}

/// The value of an operator other than `&&` and `||`, whose second operand came.
#[inline(always)]
fn combined<'a>(
    s: &Setting<'a>,
    n: u32,
    of: &BinaryNode<'_>,
    c: Cell,
    v: Outcome,
    stack: &Vec<Frame<'a>>,
    store: &mut Store<'a>,
) -> Result<Focus<'a>, Stop>
    ensures { Leads (λ f. at f (stack_of stack.now.items) (store_of store.new)) result
        (combined (setting_of s.now) n of.now.op (texpr of.now.left.now) (texpr of.now.right.now) of.now.node.now.span c v
        (stack_of stack.now.items) (store_of store.old)) }
{
    let d = taken(s, n, of.right, v, store)?;
    let z = second_operated(s, of, c, d, store)?;
    Ok(Focus::Outcome(Outcome::Value(z)))
}

/// What came of the second operand of a binary operator.
#[inline(always)]
fn binary_second<'a>(
    s: &Setting<'a>,
    n: u32,
    of: &BinaryNode<'_>,
    c: Cell,
    v: Outcome,
    stack: &Vec<Frame<'a>>,
    store: &mut Store<'a>,
) -> Result<Focus<'a>, Stop>
    ensures { Leads (λ f. at f (stack_of stack.now.items) (store_of store.new)) result
        (binary_second (setting_of s.now) n of.now.op (texpr of.now.left.now) (texpr of.now.right.now) of.now.node.now.span c v
        (stack_of stack.now.items) (store_of store.old)) }
{
    match of.op {
        BinOp::AndAlso | BinOp::OrElse => truth_second(s, n, of.right, v, stack, store),
        BinOp::Mul
        | BinOp::Div
        | BinOp::Mod
        | BinOp::Add
        | BinOp::Sub
        | BinOp::Shl
        | BinOp::Shr
        | BinOp::Less
        | BinOp::LessEq
        | BinOp::More
        | BinOp::MoreEq
        | BinOp::Equal
        | BinOp::NotEqual
        | BinOp::BitAnd
        | BinOp::BitXor
        | BinOp::BitOr => combined(s, n, of, c, v, stack, store),
    }
}

/// What came of the first operand.
#[inline(always)]
#[tactic(auto, unfolding(crate::specs::inner::Swift::first_on, crate::specs::inner::Steps::first_step))]
pub(crate) fn first<'a>(
    s: &Setting<'a>,
    n: u32,
    e: &'a TExpr,
    v: Outcome,
    stack: &mut Vec<Frame<'a>>,
    store: &mut Store<'a>,
) -> Result<Focus<'a>, Stop>
    ensures { Leads (λ f. at f (stack_of stack.new.items) (store_of store.new)) result
        (first_of_on (setting_of s.now) n (texpr e.now) v (stack_of stack.old.items) (store_of store.old)) }
{
    match &e.kind {
        TKind::Unary(op, x) => {
            let of = UnaryNode {
                op: *op,
                operand: x,
                span: e.span,
            };
            unary(s, n, &of, v, stack, store)
        }
        TKind::Binary(op, x, y) => {
            let of = BinaryNode {
                op: *op,
                node: e,
                left: x,
                right: y,
            };
            binary(s, n, &of, v, stack, store)
        }
        TKind::Assign(_, _, y) => assignment(s, n, e, y, v, stack, store),
        TKind::Step(op, x) => {
            let p = placed(e.span, v)?;
            let z = stepped_place(s, n, *op, x, e.span, p, store)?;
            Ok(Focus::Outcome(Outcome::Value(z)))
        }
        TKind::Index(x, y) => {
            let of = BinaryNode {
                op: BinOp::Add,
                node: e,
                left: x,
                right: y,
            };
            strict_first(s, n, &of, v, stack, store)
        }
        TKind::Member(x, offset) => member_of(&e.ty, x, e.span, *offset, v, store),
        TKind::Arrow(x, offset) => {
            let p = taken(s, n, x, v, store)?;
            let q = located(e.span, step(p, *offset))?;
            Ok(Focus::Outcome(Outcome::Place(q)))
        }
        TKind::Cast(x) => cast(s, n, e, x, v, stack, store),
        TKind::Out(port, x) => output(s, n, *port, x, v, stack, store),
        TKind::Number(_) | TKind::Null | TKind::Literal(_) | TKind::Global(_) | TKind::Local(_) =>
            Ok(Focus::Outcome(v)),
        TKind::Call(_, _) | TKind::In(_) | TKind::Wait | TKind::Halt | TKind::Card => Ok(
            Focus::Outcome(v),
        ),
    }
}

/// What came of the second operand, where the first came to a cell.
#[inline(always)]
#[tactic(auto, unfolding(crate::specs::inner::Steps::second_step))]
pub(crate) fn with_second<'a>(
    s: &Setting<'a>,
    n: u32,
    e: &'a TExpr,
    c: Cell,
    v: Outcome,
    stack: &Vec<Frame<'a>>,
    store: &mut Store<'a>,
) -> Result<Focus<'a>, Stop>
    ensures { Leads (λ f. at f (stack_of stack.now.items) (store_of store.new)) result
        (second_of (setting_of s.now) n (texpr e.now) c v (stack_of stack.now.items) (store_of store.old)) }
{
    match &e.kind {
        TKind::Binary(op, x, y) => {
            let of = BinaryNode {
                op: *op,
                node: e,
                left: x,
                right: y,
            };
            binary_second(s, n, &of, c, v, stack, store)
        }
        TKind::Assign(op, x, y) => {
            let d = taken(s, n, y, v, store)?;
            let to = Lvalue {
                tree: x,
                span: e.span,
                place: c,
            };
            let z = second_assigned(s, n, *op, &to, y, d, store)?;
            Ok(Focus::Outcome(Outcome::Value(z)))
        }
        TKind::Index(_, y) => {
            let d = taken(s, n, y, v, store)?;
            let q = located(e.span, stepped(s.words(&e.ty), c, d))?;
            Ok(Focus::Outcome(Outcome::Place(q)))
        }
        TKind::Number(_)
        | TKind::Null
        | TKind::Literal(_)
        | TKind::Global(_)
        | TKind::Local(_)
        | TKind::Unary(_, _)
        | TKind::Step(_, _)
        | TKind::Member(_, _)
        | TKind::Arrow(_, _)
        | TKind::Cast(_)
        | TKind::Call(_, _)
        | TKind::In(_)
        | TKind::Out(_, _)
        | TKind::Wait
        | TKind::Halt
        | TKind::Card => Ok(Focus::Outcome(v)),
    }
}
