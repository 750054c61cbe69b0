// Statements begun.
ghost use Rattle.std.specs.Prelude.{◌≡◌, ◌∷◌, map, option_map};
ghost use Rattle.c_types.specs.View.{texpr, tstmt, tstmts, tarm, tarms};
ghost use Rattle.obj_mem.specs.Stores as stores;
ghost use Rattle.c_evaluate.specs.inner.Results.{Leads};
ghost use Rattle.c_evaluate.specs.inner.FocusView.{at, stmt_frame, stack_of};
ghost use Rattle.c_evaluate.specs.inner.SettingView.{setting_of};
ghost use Rattle.c_evaluate.specs.inner.StoreView.{store_of};
ghost use Rattle.c_evaluate.specs.inner.Steps.{rest_of, arms_of, turn_of, asks, on};
ghost use Rattle.c_evaluate.specs.inner.Swift.{asks_on, assigned_on, assigns_on, does_on, exec_on, steps_on};
ghost use Rattle.c_evaluate.specs.inner.Machine.{DoF, EvalF, Going, SecondW, ValueW};
ghost use Rattle.c_evaluate.specs.inner.Storing.{placed_in};
ghost use Rattle.c_meaning.specs.Kinds.{span_of};

use crate::assigning::{Lvalue, second_assigned, stepped_place};
use crate::filling::vars;
use crate::frame::{Focus, Frame, How, Outcome, Stage};
use crate::leaf::{at_once, nodes};
use crate::setting::Setting;
use crate::stack::{next, push};
use crate::statements::{Statement, outcome_value};
use crate::stop::Stop;
use crate::store::{Store, fresh_all, released, spend};
use crate::using::{placed, taken};
use c_tree::{BinOp, StepOp};
use c_types::{TArm, TExpr, TKind, TStmt};
use obj_mem::Cell;

/// On to the next statement of a list.
#[inline(always)]
pub(crate) fn rest<'a>(
    n: u32,
    r: Cell,
    xs: &'a [TStmt],
    stack: &mut Vec<Frame<'a>>,
) -> Result<Focus<'a>, Stop>
    ensures { (u : stores.Store) → Leads (λ x. at x (stack_of stack.new.items) u) result
        (rest_of n r (tstmts (map tstmt xs.now)) (stack_of stack.old.items) u) }
{
    match next(xs) {
        None => Ok(Focus::Exit(How::On)),
        Some((a, later)) => {
            push(stack, Frame::Rest(n, r, later))?;
            Ok(Focus::Do(n, r, a))
        }
    }
}

/// On to the next statement of the arms of a switch, without the first `before`.
pub(crate) fn arms<'a>(
    n: u32,
    r: Cell,
    before: usize,
    xs: &'a [TArm],
    stack: &mut Vec<Frame<'a>>,
) -> Result<Focus<'a>, Stop>
    ensures { (u : stores.Store) → Leads (λ x. at x (stack_of stack.new.items) u) result
        (arms_of n r before (tarms (map tarm xs.now)) (stack_of stack.old.items) u) }
{
    let mut skipped = before;
    let mut left = xs;
    'arms: while let Some((z, later)) = next(left) {
        if skipped > 0 {
            skipped -= 1;
        } else {
            if let TArm::Stmt(a) = z {
                push(stack, Frame::Arms(n, r, later))?;
                return Ok(Focus::Do(n, r, a));
            }
        }
        left = later;
    }
    Ok(Focus::Exit(How::On))
}

/// Begins a turn of a `while` or a `for`.
#[inline(always)]
pub(crate) fn turn<'a>(
    n: u32,
    r: Cell,
    a: &'a TStmt,
    test: Option<&'a TExpr>,
    body: &'a TStmt,
    stack: &mut Vec<Frame<'a>>,
) -> Result<Focus<'a>, Stop>
    ensures { (u : stores.Store) → Leads (λ x. at x (stack_of stack.new.items) u) result
        (turn_of n r (tstmt a.now) (option_map (λ x. texpr x.now) test.entry) (tstmt body.now) (stack_of stack.old.items) u) }
{
    match test {
        None => {
            push(stack, Frame::InStmt(Stage::Body, n, r, a))?;
            Ok(Focus::Do(n, r, body))
        }
        Some(x) => {
            push(stack, Frame::InStmt(Stage::Value, n, r, a))?;
            Ok(Focus::Eval(n, x))
        }
    }
}

/// Asks for the value that a statement needs first.
#[inline(always)]
pub(crate) fn ask<'a>(
    n: u32,
    r: Cell,
    a: &'a TStmt,
    x: &'a TExpr,
    stack: &mut Vec<Frame<'a>>,
) -> Result<Focus<'a>, Stop>
    ensures { (u : stores.Store) → Leads (λ f. at f (stack_of stack.new.items) u) result (asks n r (tstmt a.now) (texpr x.now) (stack_of stack.old.items) u) }
{
    push(stack, Frame::InStmt(Stage::Value, n, r, a))?;
    Ok(Focus::Eval(n, x))
}

/// Asks for the value that a statement needs first, and goes on with it where it comes at once.
pub(crate) fn asked<'a>(
    s: &Setting<'a>,
    n: u32,
    r: Cell,
    a: &'a TStmt,
    x: &'a TExpr,
    stack: &mut Vec<Frame<'a>>,
    store: &mut Store<'a>,
) -> Result<Focus<'a>, Stop>
    ensures { Leads (λ f. at f (stack_of stack.new.items) (store_of store.new)) result
        (asks_on (setting_of s.now) n r (tstmt a.now) (texpr x.now) (stack_of stack.old.items) (store_of store.old)) }
{
    match at_once(s, x, store) {
        Some(v) => {
            spend(store, nodes(x));
            let of = Statement {
                bound: n,
                result: r,
                tree: a,
            };
            outcome_value(s, &of, v, stack, store)
        }
        None => ask(n, r, a, x, stack),
    }
}

/// An assignment: the whole expression, the operator before the `=` where there is one, the lvalue and the expression that is assigned.
#[derive(Clone, Copy)]
struct Assignment<'a> {
    node: &'a TExpr,
    op: Option<BinOp>,
    left: &'a TExpr,
    right: &'a TExpr,
}

/// An increment or a decrement: the whole expression, the operator and the lvalue.
#[derive(Clone, Copy)]
struct Increment<'a> {
    node: &'a TExpr,
    op: StepOp,
    operand: &'a TExpr,
}

/// An assignment whose place came at once: on to its value.
fn assigned_behind<'a>(
    n: u32,
    r: Cell,
    a: &'a TStmt,
    of: &Assignment<'a>,
    v: Outcome,
    stack: &mut Vec<Frame<'a>>,
    store: &Store<'a>,
) -> Result<Focus<'a>, Stop>
    ensures { Leads (λ f. at f (stack_of stack.new.items) (store_of store.now)) result
        (on (placed_in (span_of (texpr of.now.node.now)) v)
        (λ p. Going (EvalF n (texpr of.now.right.now)) (SecondW n (texpr of.now.node.now) p ∷ (ValueW n r (tstmt a.now) ∷ stack_of stack.old.items))
        (store_of store.now))) }
{
    let p = placed(of.node.span, v)?;
    push(stack, Frame::InStmt(Stage::Value, n, r, a))?;
    push(stack, Frame::Second(n, of.node, p))?;
    Ok(Focus::Eval(n, of.right))
}

/// An assignment whose place and value came at once is done, and its value dropped.
#[inline(always)]
fn assigned_at_once<'a>(
    s: &Setting<'a>,
    n: u32,
    of: &Assignment<'_>,
    v: Outcome,
    w: Outcome,
    stack: &Vec<Frame<'a>>,
    store: &mut Store<'a>,
) -> Result<Focus<'a>, Stop>
    ensures { Leads (λ f. at f (stack_of stack.now.items) (store_of store.new)) result
        (assigned_on (setting_of s.now) n (texpr of.now.node.now) of.now.op (texpr of.now.left.now) (texpr of.now.right.now) v w
        (stack_of stack.now.items) (store_of store.old)) }
{
    let e = of.node;
    let y = of.right;
    let place = placed(e.span, v)?;
    spend(store, nodes(y));
    let d = taken(s, n, y, w, store)?;
    let to = Lvalue {
        tree: of.left,
        span: e.span,
        place,
    };
    let z = second_assigned(s, n, of.op, &to, y, d, store)?;
    released(store, &e.ty, z);
    Ok(Focus::Exit(How::On))
}

/// An assignment whose place and value may come at once.
fn assigns<'a>(
    s: &Setting<'a>,
    n: u32,
    r: Cell,
    a: &'a TStmt,
    of: &Assignment<'a>,
    stack: &mut Vec<Frame<'a>>,
    store: &mut Store<'a>,
) -> Result<Focus<'a>, Stop>
    ensures { Leads (λ f. at f (stack_of stack.new.items) (store_of store.new)) result
        (assigns_on (setting_of s.now) n r (tstmt a.now) (texpr of.now.node.now) of.now.op (texpr of.now.left.now) (texpr of.now.right.now)
        (stack_of stack.old.items) (store_of store.old)) }
{
    match at_once(s, of.left, store) {
        None => ask(n, r, a, of.node, stack),
        Some(v) => {
            spend(store, nodes(of.left).saturating_add(1));
            match at_once(s, of.right, store) {
                None => assigned_behind(n, r, a, of, v, stack, store),
                Some(w) => assigned_at_once(s, n, of, v, w, stack, store),
            }
        }
    }
}

/// A place that may come at once is stepped, and the value dropped.
fn steps<'a>(
    s: &Setting<'a>,
    n: u32,
    r: Cell,
    a: &'a TStmt,
    of: &Increment<'a>,
    stack: &mut Vec<Frame<'a>>,
    store: &mut Store<'a>,
) -> Result<Focus<'a>, Stop>
    ensures { Leads (λ f. at f (stack_of stack.new.items) (store_of store.new)) result
        (steps_on (setting_of s.now) n r (tstmt a.now) (texpr of.now.node.now) of.now.op (texpr of.now.operand.now)
        (stack_of stack.old.items) (store_of store.old)) }
{
    let e = of.node;
    let Some(v) = at_once(s, of.operand, store) else {
        return ask(n, r, a, e, stack);
    };
    spend(store, nodes(of.operand).saturating_add(1));
    let p = placed(e.span, v)?;
    let z = stepped_place(s, n, of.op, of.operand, e.span, p, store)?;
    released(store, &e.ty, z);
    Ok(Focus::Exit(How::On))
}

/// An expression whose value is dropped.
#[tactic(auto, unfolding(crate::specs::inner::Swift::does_on))]
fn does<'a>(
    s: &Setting<'a>,
    n: u32,
    r: Cell,
    a: &'a TStmt,
    e: &'a TExpr,
    stack: &mut Vec<Frame<'a>>,
    store: &mut Store<'a>,
) -> Result<Focus<'a>, Stop>
    ensures { Leads (λ f. at f (stack_of stack.new.items) (store_of store.new)) result
        (does_on (setting_of s.now) n r (tstmt a.now) (texpr e.now) (stack_of stack.old.items) (store_of store.old)) }
{
    match &e.kind {
        TKind::Assign(op, x, y) => {
            let of = Assignment {
                node: e,
                op: *op,
                left: x,
                right: y,
            };
            assigns(s, n, r, a, &of, stack, store)
        }
        TKind::Step(op, x) => {
            let of = Increment {
                node: e,
                op: *op,
                operand: x,
            };
            steps(s, n, r, a, &of, stack, store)
        }
        TKind::Number(_) | TKind::Null | TKind::Literal(_) | TKind::Global(_) | TKind::Local(_) =>
            ask(n, r, a, e, stack),
        TKind::Unary(_, _) | TKind::Binary(_, _, _) | TKind::Index(_, _) => ask(n, r, a, e, stack),
        TKind::Member(_, _) | TKind::Arrow(_, _) | TKind::Cast(_) => ask(n, r, a, e, stack),
        TKind::Call(_, _) | TKind::In(_) | TKind::Out(_, _) => ask(n, r, a, e, stack),
        TKind::Wait | TKind::Halt | TKind::Card => ask(n, r, a, e, stack),
    }
}

/// Does a part of a statement first.
#[inline(always)]
pub(crate) fn part<'a>(
    stage: Stage,
    n: u32,
    r: Cell,
    a: &'a TStmt,
    b: &'a TStmt,
    stack: &mut Vec<Frame<'a>>,
) -> Result<Focus<'a>, Stop>
    ensures { (u : stores.Store) → Leads (λ f. at f (stack_of stack.new.items) u) result
        (Going (DoF n r (tstmt b.now)) (stmt_frame stage n r (tstmt a.now) ∷ stack_of stack.old.items) u) }
{
    push(stack, Frame::InStmt(stage, n, r, a))?;
    Ok(Focus::Do(n, r, b))
}

/// Begins a statement.
#[inline(always)]
#[tactic(auto, unfolding(crate::specs::inner::Swift::exec_on, crate::specs::inner::Steps::exec))]
pub(crate) fn exec<'a>(
    s: &Setting<'a>,
    n: u32,
    r: Cell,
    a: &'a TStmt,
    stack: &mut Vec<Frame<'a>>,
    store: &mut Store<'a>,
) -> Result<Focus<'a>, Stop>
    ensures { Leads (λ x. at x (stack_of stack.new.items) (store_of store.new)) result
        (exec_on (setting_of s.now) n r (tstmt a.now) (stack_of stack.old.items) (store_of store.old)) }
{
    match a {
        TStmt::Block(made, body) => {
            fresh_all(s, store, made.as_slice())?;
            push(stack, Frame::End(made.as_slice()))?;
            rest(n, r, body.as_slice(), stack)
        }
        TStmt::Empty => Ok(Focus::Exit(How::On)),
        TStmt::Vars(vs) => {
            push(stack, Frame::Filled)?;
            vars(n, vs.as_slice(), stack, store)
        }
        TStmt::Do(x) => does(s, n, r, a, x, stack, store),
        TStmt::If(x, _, None)
        | TStmt::If(x, _, Some(_))
        | TStmt::While(x, _)
        | TStmt::Switch(x, _, _)
        | TStmt::Return(Some(x)) => asked(s, n, r, a, x, stack, store),
        TStmt::DoWhile(body, _) => part(Stage::Body, n, r, a, body, stack),
        TStmt::For(made, first, test, _, body) => {
            fresh_all(s, store, made.as_slice())?;
            push(stack, Frame::End(made.as_slice()))?;
            match first {
                None => turn(n, r, a, test.as_ref(), body, stack),
                Some(b) => part(Stage::Begin, n, r, a, b, stack),
            }
        }
        TStmt::Return(None) => Ok(Focus::Exit(How::Return(None))),
        TStmt::Break => Ok(Focus::Exit(How::Break)),
        TStmt::Continue => Ok(Focus::Exit(How::Continue)),
    }
}
