// What came of the parts of statements.
ghost use Rattle.std.specs.Prelude.{◌≡◌, map, option_map};
ghost use Rattle.c_types.specs.View.{ctype, texpr, tstmt, tarm, tarms};
ghost use Rattle.obj_mem.specs.Stores as stores;
ghost use Rattle.c_meaning.specs.Statements.{arms_before_case, arms_before_default, arms_before};
ghost use Rattle.kit_base.specs.Gives.{Gives};
ghost use Rattle.c_evaluate.specs.inner.Results.{Leads};
ghost use Rattle.c_evaluate.specs.inner.FocusView.{at, stack_of};
ghost use Rattle.c_evaluate.specs.inner.SettingView.{setting_of};
ghost use Rattle.c_evaluate.specs.inner.StoreView.{store_of};
ghost use Rattle.c_evaluate.specs.inner.Storing.{returned_in};
ghost use Rattle.c_evaluate.specs.inner.Steps.{after_body, after_on, again, do_again, turn_of, step_of, value_looped, value_switched};
ghost use Rattle.c_evaluate.specs.inner.Steps.{step_dropped, value_returned, value_step, step_step, begin_step};
ghost use Rattle.c_evaluate.specs.inner.Swift.{again_on, body_on};

use crate::cells::{cells, located};
use crate::exec::{arms, ask, asked, part, turn};
use crate::filling::nowhere;
use crate::frame::{Focus, Frame, How, Outcome, Stage};
use crate::operators::converted;
use crate::setting::Setting;
use crate::stack::{next, push};
use crate::stop::Stop;
use crate::store::{Store, fresh_all, released, spend};
use crate::using::{dropped, taken, tested};
use c_meaning::End;
use c_types::{CType, TArm, TExpr, TStmt, is_structure};
use obj_mem::{Cell, word_of};

/// A statement that is being done: the bound, the place of the structure that its function gives, and its tree.
#[derive(Clone, Copy)]
pub(crate) struct Statement<'a> {
    pub(crate) bound: u32,
    pub(crate) result: Cell,
    pub(crate) tree: &'a TStmt,
}

/// The parts of a switch, which makes the locals `made` anew.
#[derive(Clone, Copy)]
struct SwitchParts<'a> {
    value: &'a TExpr,
    made: &'a [u32],
    arms: &'a [TArm],
}

/// How many arms of a switch stand before the label of a word.
fn before_case(word: u32, xs: &[TArm]) -> Option<usize>
    ensures { result ≡ arms_before_case word (tarms (map tarm xs.now)) }
{
    let mut left = xs;
    let mut count = 0;
    'arms: while let Some((z, later)) = next(left) {
        if let TArm::Case(label) = z {
            if word == *label {
                return Some(count);
            }
        }
        left = later;
        count += 1;
    }
    None
}

/// How many stand before `default`.
fn before_default(xs: &[TArm]) -> usize
    ensures { result ≡ arms_before_default (tarms (map tarm xs.now)) }
{
    let mut left = xs;
    let mut count = 0;
    'arms: while let Some((z, later)) = next(left) {
        if let TArm::Default = z {
            return count;
        }
        left = later;
        count += 1;
    }
    count
}

fn before(word: u32, xs: &[TArm]) -> usize
    ensures { result ≡ arms_before word (tarms (map tarm xs.now)) }
{
    match before_case(word, xs) {
        Some(count) => count,
        None => before_default(xs),
    }
}

/// How many labels there are.
fn labels(xs: &[TArm]) -> u64 {
    let mut count: u64 = 0;
    for z in xs {
        match z {
            TArm::Case(_) | TArm::Default => count = count.saturating_add(1),
            TArm::Stmt(_) => {}
        }
    }
    count
}

/// A further turn of a `while` or a `for`.
#[inline(always)]
fn again<'a>(
    n: u32,
    r: Cell,
    a: &'a TStmt,
    test: Option<&'a TExpr>,
    body: &'a TStmt,
    stack: &mut Vec<Frame<'a>>,
) -> Result<Focus<'a>, Stop>
    ensures { (u : stores.Store) → Leads (λ f. at f (stack_of stack.new.items) u) result
        (again n r (tstmt a.now) (option_map (λ x. texpr x.now) test.entry) (tstmt body.now) (stack_of stack.old.items) u) }
{
    if n == 0 {
        return Err(Stop::Cause(End::OutOfBound));
    }
    turn(n - 1, r, a, test, body, stack)
}

/// A further turn of a `do`.
#[inline(always)]
fn do_again<'a>(
    n: u32,
    r: Cell,
    a: &'a TStmt,
    body: &'a TStmt,
    stack: &mut Vec<Frame<'a>>,
) -> Result<Focus<'a>, Stop>
    ensures { (u : stores.Store) → Leads (λ f. at f (stack_of stack.new.items) u) result
        (do_again n r (tstmt a.now) (tstmt body.now) (stack_of stack.old.items) u) }
{
    if n == 0 {
        return Err(Stop::Cause(End::OutOfBound));
    }
    push(stack, Frame::InStmt(Stage::Body, n - 1, r, a))?;
    Ok(Focus::Do(n - 1, r, body))
}

/// The step of a `for`, and the next turn.
#[inline(always)]
fn step<'a>(
    n: u32,
    r: Cell,
    a: &'a TStmt,
    test: Option<&'a TExpr>,
    step: Option<&'a TExpr>,
    body: &'a TStmt,
    stack: &mut Vec<Frame<'a>>,
) -> Result<Focus<'a>, Stop>
    ensures { (u : stores.Store) → Leads (λ f. at f (stack_of stack.new.items) u) result
        (step_of n r (tstmt a.now) (option_map (λ x. texpr x.now) test.entry) (option_map (λ x. texpr x.now) step.entry) (tstmt body.now)
        (stack_of stack.old.items) u) }
{
    match step {
        None => again(n, r, a, test, body, stack),
        Some(y) => {
            push(stack, Frame::InStmt(Stage::Step, n, r, a))?;
            Ok(Focus::Eval(n, y))
        }
    }
}

/// What is returned; a structure by its place.
fn returned<'a>(
    s: &Setting<'a>,
    n: u32,
    ty: &CType,
    r: Cell,
    c: Cell,
    store: &mut Store<'a>,
) -> Result<Cell, Stop>
    ensures { Gives (λ z. (z, store_of store.new)) result (returned_in (setting_of s.now) n (ctype ty.now) r c (store_of store.old)) }
{
    if is_structure(ty) {
        cells(nowhere(), 1, n, u64::from(s.words(ty)), Some(c), r, store)?;
        released(store, ty, c);
        return Ok(r);
    }
    Ok(c)
}

/// The value of a `return` came.
fn returns<'a>(
    s: &Setting<'a>,
    n: u32,
    r: Cell,
    x: &TExpr,
    v: Outcome,
    stack: &Vec<Frame<'a>>,
    store: &mut Store<'a>,
) -> Result<Focus<'a>, Stop>
    ensures { Leads (λ f. at f (stack_of stack.now.items) (store_of store.new)) result
        (value_returned (setting_of s.now) n r (texpr x.now) v (stack_of stack.now.items) (store_of store.old)) }
{
    let c = taken(s, n, x, v, store)?;
    let void = CType::Void;
    let ty = match s.result_of(store.function) {
        None => &void,
        Some(ty) => ty,
    };
    let z = located(x.span, converted(ty, c))?;
    let w = returned(s, n, ty, r, z, store)?;
    Ok(Focus::Exit(How::Return(Some(w))))
}

/// The value of a switch came.
fn switches<'a>(
    s: &Setting<'a>,
    n: u32,
    r: Cell,
    of: &SwitchParts<'a>,
    v: Outcome,
    stack: &mut Vec<Frame<'a>>,
    store: &mut Store<'a>,
) -> Result<Focus<'a>, Stop>
    ensures { Leads (λ f. at f (stack_of stack.new.items) (store_of store.new)) result
        (value_switched (setting_of s.now) n r (texpr of.now.value.now) of.now.made.now (tarms (map tarm of.now.arms.now)) v
        (stack_of stack.old.items) (store_of store.old)) }
{
    let x = of.value;
    let c = taken(s, n, x, v, store)?;
    let word = located(x.span, word_of(c))?;
    spend(store, labels(of.arms));
    fresh_all(s, store, of.made)?;
    push(stack, Frame::End(of.made))?;
    push(stack, Frame::Switch)?;
    arms(n, r, before(word, of.arms), of.arms, stack)
}

/// A condition came: the body of the loop, or on.
#[inline(always)]
fn loops<'a>(
    s: &Setting<'a>,
    of: &Statement<'a>,
    x: &TExpr,
    body: &'a TStmt,
    v: Outcome,
    stack: &mut Vec<Frame<'a>>,
    store: &mut Store<'a>,
) -> Result<Focus<'a>, Stop>
    ensures { Leads (λ f. at f (stack_of stack.new.items) (store_of store.new)) result
        (value_looped (setting_of s.now) of.now.bound of.now.result (tstmt of.now.tree.now) (texpr x.now) (tstmt body.now) v
        (stack_of stack.old.items) (store_of store.old)) }
{
    if tested(s, of.bound, x, v, store)? {
        part(Stage::Body, of.bound, of.result, of.tree, body, stack)
    } else {
        Ok(Focus::Exit(How::On))
    }
}

/// The value that a statement asks for came.
#[inline(always)]
#[tactic(auto, unfolding(crate::specs::inner::Steps::value_step))]
pub(crate) fn outcome_value<'a>(
    s: &Setting<'a>,
    of: &Statement<'a>,
    v: Outcome,
    stack: &mut Vec<Frame<'a>>,
    store: &mut Store<'a>,
) -> Result<Focus<'a>, Stop>
    ensures { Leads (λ f. at f (stack_of stack.new.items) (store_of store.new)) result
        (value_step (setting_of s.now) of.now.bound of.now.result (tstmt of.now.tree.now) v (stack_of stack.old.items) (store_of store.old)) }
{
    match of.tree {
        TStmt::Do(x) => {
            dropped(s, of.bound, x, v, store)?;
            Ok(Focus::Exit(How::On))
        }
        TStmt::If(x, b, None) => {
            if tested(s, of.bound, x, v, store)? {
                Ok(Focus::Do(of.bound, of.result, b))
            } else {
                Ok(Focus::Exit(How::On))
            }
        }
        TStmt::If(x, b, Some(other)) => {
            if tested(s, of.bound, x, v, store)? {
                Ok(Focus::Do(of.bound, of.result, b))
            } else {
                Ok(Focus::Do(of.bound, of.result, other))
            }
        }
        TStmt::While(x, body)
        | TStmt::For(_, None, Some(x), _, body)
        | TStmt::For(_, Some(_), Some(x), _, body) => loops(s, of, x, body, v, stack, store),
        TStmt::DoWhile(body, x) => {
            if tested(s, of.bound, x, v, store)? {
                do_again(of.bound, of.result, of.tree, body, stack)
            } else {
                Ok(Focus::Exit(How::On))
            }
        }
        TStmt::Switch(x, made, xs) => {
            let parts = SwitchParts {
                value: x,
                made: made.as_slice(),
                arms: xs.as_slice(),
            };
            switches(s, of.bound, of.result, &parts, v, stack, store)
        }
        TStmt::Return(Some(x)) => returns(s, of.bound, of.result, x, v, stack, store),
        TStmt::For(_, None, None, _, _)
        | TStmt::For(_, Some(_), None, _, _)
        | TStmt::Return(None)
        | TStmt::Block(_, _)
        | TStmt::Empty
        | TStmt::Vars(_)
        | TStmt::Break
        | TStmt::Continue => Err(Stop::Cause(End::Stray(nowhere()))),
    }
}

/// The test of a `for`, if any, and its body.
#[derive(Clone, Copy)]
struct Turn<'a> {
    test: Option<&'a TExpr>,
    body: &'a TStmt,
}

/// A step is dropped, and the next turn begins.
fn stepped<'a>(
    s: &Setting<'a>,
    of: &Statement<'a>,
    turn: &Turn<'a>,
    y: &TExpr,
    v: Outcome,
    stack: &mut Vec<Frame<'a>>,
    store: &mut Store<'a>,
) -> Result<Focus<'a>, Stop>
    ensures { Leads (λ f. at f (stack_of stack.new.items) (store_of store.new)) result
        (step_dropped (setting_of s.now) of.now.bound of.now.result (tstmt of.now.tree.now) (option_map (λ x. texpr x.now) turn.now.test)
        (texpr y.now) (tstmt turn.now.body.now) v (stack_of stack.old.items) (store_of store.old)) }
{
    dropped(s, of.bound, y, v, store)?;
    again(of.bound, of.result, of.tree, turn.test, turn.body, stack)
}

/// The step of a `for` came.
#[tactic(auto, unfolding(crate::specs::inner::Steps::step_step))]
pub(crate) fn with_step<'a>(
    s: &Setting<'a>,
    of: &Statement<'a>,
    v: Outcome,
    stack: &mut Vec<Frame<'a>>,
    store: &mut Store<'a>,
) -> Result<Focus<'a>, Stop>
    ensures { Leads (λ f. at f (stack_of stack.new.items) (store_of store.new)) result
        (step_step (setting_of s.now) of.now.bound of.now.result (tstmt of.now.tree.now) v (stack_of stack.old.items) (store_of store.old)) }
{
    match of.tree {
        TStmt::For(_, None, test, Some(y), body) | TStmt::For(_, Some(_), test, Some(y), body) => {
            let turn = Turn {
                test: test.as_ref(),
                body,
            };
            stepped(s, of, &turn, y, v, stack, store)
        }
        TStmt::For(_, None, _, None, _)
        | TStmt::For(_, Some(_), _, None, _)
        | TStmt::Block(_, _)
        | TStmt::Empty
        | TStmt::Vars(_)
        | TStmt::Do(_)
        | TStmt::If(_, _, None)
        | TStmt::If(_, _, Some(_))
        | TStmt::While(_, _)
        | TStmt::DoWhile(_, _)
        | TStmt::Switch(_, _, _)
        | TStmt::Return(_)
        | TStmt::Break
        | TStmt::Continue => Err(Stop::Cause(End::Stray(nowhere()))),
    }
}

/// The body of a `for` was left.
fn for_exit<'a>(
    of: &Statement<'a>,
    test: Option<&'a TExpr>,
    y: Option<&'a TExpr>,
    body: &'a TStmt,
    h: How,
    stack: &mut Vec<Frame<'a>>,
    store: &Store<'a>,
) -> Result<Focus<'a>, Stop>
    ensures { Leads (λ f. at f (stack_of stack.new.items) (store_of store.now)) result
        (after_body h (stack_of stack.old.items) (store_of store.now)
        (step_of of.now.bound of.now.result (tstmt of.now.tree.now) (option_map (λ x. texpr x.now) test.entry)
        (option_map (λ x. texpr x.now) y.entry) (tstmt body.now) (stack_of stack.old.items) (store_of store.now))) }
{
    match h {
        How::On | How::Continue => step(of.bound, of.result, of.tree, test, y, body, stack),
        How::Break => Ok(Focus::Exit(How::On)),
        How::Return(c) => Ok(Focus::Exit(How::Return(c))),
    }
}

/// The first part of a `for` was left.
fn for_begun<'a>(
    of: &Statement<'a>,
    test: Option<&'a TExpr>,
    body: &'a TStmt,
    h: How,
    stack: &mut Vec<Frame<'a>>,
    store: &Store<'a>,
) -> Result<Focus<'a>, Stop>
    ensures { Leads (λ f. at f (stack_of stack.new.items) (store_of store.now)) result
        (after_on h (stack_of stack.old.items) (store_of store.now)
        (turn_of of.now.bound of.now.result (tstmt of.now.tree.now) (option_map (λ x. texpr x.now) test.entry) (tstmt body.now)
        (stack_of stack.old.items) (store_of store.now))) }
{
    match h {
        How::On => turn(of.bound, of.result, of.tree, test, body, stack),
        How::Break | How::Continue | How::Return(_) => Ok(Focus::Exit(h)),
    }
}

/// A further turn of a `while`, whose condition may come at once.
#[inline(always)]
fn while_again<'a>(
    s: &Setting<'a>,
    n: u32,
    r: Cell,
    a: &'a TStmt,
    x: &'a TExpr,
    stack: &mut Vec<Frame<'a>>,
    store: &mut Store<'a>,
) -> Result<Focus<'a>, Stop>
    ensures { Leads (λ f. at f (stack_of stack.new.items) (store_of store.new)) result
        (again_on (setting_of s.now) n r (tstmt a.now) (texpr x.now) (stack_of stack.old.items) (store_of store.old)) }
{
    if n == 0 {
        return Err(Stop::Cause(End::OutOfBound));
    }
    asked(s, n - 1, r, a, x, stack, store)
}

/// The body of a loop was left.
#[inline(always)]
#[tactic(auto, unfolding(crate::specs::inner::Swift::body_on, crate::specs::inner::Steps::body_step))]
pub(crate) fn body_exit<'a>(
    s: &Setting<'a>,
    of: &Statement<'a>,
    h: How,
    stack: &mut Vec<Frame<'a>>,
    store: &mut Store<'a>,
) -> Result<Focus<'a>, Stop>
    ensures { Leads (λ f. at f (stack_of stack.new.items) (store_of store.new)) result
        (body_on (setting_of s.now) of.now.bound of.now.result (tstmt of.now.tree.now) h (stack_of stack.old.items) (store_of store.old)) }
{
    match of.tree {
        TStmt::While(x, _) => match h {
            How::On | How::Continue => while_again(
                s, of.bound, of.result, of.tree, x, stack, store,
            ),
            How::Break => Ok(Focus::Exit(How::On)),
            How::Return(c) => Ok(Focus::Exit(How::Return(c))),
        },
        TStmt::DoWhile(_, x) => match h {
            How::On | How::Continue => ask(of.bound, of.result, of.tree, x, stack),
            How::Break => Ok(Focus::Exit(How::On)),
            How::Return(c) => Ok(Focus::Exit(How::Return(c))),
        },
        TStmt::For(_, None, test, y, body) | TStmt::For(_, Some(_), test, y, body) => {
            for_exit(of, test.as_ref(), y.as_ref(), body, h, stack, store)
        }
        TStmt::Block(_, _)
        | TStmt::Empty
        | TStmt::Vars(_)
        | TStmt::Do(_)
        | TStmt::If(_, _, None)
        | TStmt::If(_, _, Some(_))
        | TStmt::Switch(_, _, _)
        | TStmt::Return(_)
        | TStmt::Break
        | TStmt::Continue => Ok(Focus::Exit(h)),
    }
}

/// The first part of a `for` was left.
#[tactic(auto, unfolding(crate::specs::inner::Steps::begin_step))]
pub(crate) fn begin_exit<'a>(
    of: &Statement<'a>,
    h: How,
    stack: &mut Vec<Frame<'a>>,
    store: &Store<'a>,
) -> Result<Focus<'a>, Stop>
    ensures { Leads (λ f. at f (stack_of stack.new.items) (store_of store.now)) result
        (begin_step of.now.bound of.now.result (tstmt of.now.tree.now) h (stack_of stack.old.items) (store_of store.now)) }
{
    match of.tree {
        TStmt::For(_, None, test, _, body) | TStmt::For(_, Some(_), test, _, body) => {
            for_begun(of, test.as_ref(), body, h, stack, store)
        }
        TStmt::Block(_, _)
        | TStmt::Empty
        | TStmt::Vars(_)
        | TStmt::Do(_)
        | TStmt::If(_, _, None)
        | TStmt::If(_, _, Some(_))
        | TStmt::While(_, _)
        | TStmt::DoWhile(_, _)
        | TStmt::Switch(_, _, _)
        | TStmt::Return(_)
        | TStmt::Break
        | TStmt::Continue => Ok(Focus::Exit(h)),
    }
}
