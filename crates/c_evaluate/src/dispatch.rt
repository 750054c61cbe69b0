// What comes is handed to the frame that waits for it.
ghost use Rattle.std.specs.Prelude.{◌≡◌, Err};
ghost use Rattle.c_meaning.specs.declared.end.End.TheVariants.{Stray};
ghost use Rattle.c_meaning.specs.Outcomes.{nowhere};
ghost use Rattle.kit_base.specs.declared.failure.Failure.TheVariants.{Cause};
ghost use Rattle.c_evaluate.specs.inner.Results.{Leads};
ghost use Rattle.c_evaluate.specs.inner.FocusView.{at, frame, stack_of, stmt_frame};
ghost use Rattle.c_evaluate.specs.inner.SettingView.{setting_of};
ghost use Rattle.c_evaluate.specs.inner.StoreView.{store_of};
ghost use Rattle.c_types.specs.View.{or_void, tstmt};
ghost use Rattle.c_evaluate.specs.inner.Steps.{full, take_outcome, fill_up, switched, main_step};
ghost use Rattle.c_evaluate.specs.inner.Storing.{one_in};
ghost use Rattle.c_evaluate.specs.inner.Swift.{take_outcome_on, take_exit_on};

use crate::calls::{Activation, CallSite, back_from, call, with_argument};
use crate::exec::{arms, rest};
use crate::filling::{ItemList, items, nowhere, one, vars};
use crate::frame::{Focus, Frame, How, Outcome, Stage};
use crate::operands::{first, with_second};
use crate::setting::Setting;
use crate::statements::{Statement, begin_exit, body_exit, outcome_value, with_step};
use crate::stop::Stop;
use crate::store::{Store, end_all, spend};
use crate::using::taken;
use c_meaning::End;
use c_types::{CType, TStmt};
use obj_mem::Cell;

fn strays<'a>() -> Result<Focus<'a>, Stop>
    ensures { result ≡ Err (Cause (Stray nowhere)) }
{
    Err(Stop::Cause(End::Stray(nowhere())))
}

/// A value of a statement came.
#[inline(always)]
#[tactic(auto, unfolding(crate::specs::inner::Steps::take_outcome))]
fn take_statement_outcome<'a>(
    s: &Setting<'a>,
    stage: Stage,
    of: &Statement<'a>,
    v: Outcome,
    stack: &mut Vec<Frame<'a>>,
    store: &mut Store<'a>,
) -> Result<Focus<'a>, Stop>
    ensures { Leads (λ x. at x (stack_of stack.new.items) (store_of store.new)) result
        (take_outcome (setting_of s.now) (stmt_frame stage of.now.bound of.now.result (tstmt of.now.tree.now)) v
        (stack_of stack.old.items) (store_of store.old)) }
{
    match stage {
        Stage::Value => outcome_value(s, of, v, stack, store),
        Stage::Step => with_step(s, of, v, stack, store),
        Stage::Body | Stage::Begin => strays(),
    }
}

/// The value of an initialiser is stored.
fn take_outcome_one<'a>(
    s: &Setting<'a>,
    n: u32,
    ty: Option<&'a CType>,
    p: Cell,
    c: Cell,
    stack: &Vec<Frame<'a>>,
    store: &mut Store<'a>,
) -> Result<Focus<'a>, Stop>
    ensures { Leads (λ x. at x (stack_of stack.now.items) (store_of store.new)) result
        (full (one_in (setting_of s.now) n (or_void ty.entry) p c (store_of store.old)) (stack_of stack.now.items)) }
{
    let void = CType::Void;
    let one_type = match ty {
        None => &void,
        Some(given) => given,
    };
    one(s, n, one_type, p, c, store)?;
    Ok(Focus::Full)
}

/// Something came of an expression.
#[inline(always)]
#[tactic(auto, unfolding(crate::specs::inner::Swift::take_outcome_on, crate::specs::inner::Steps::take_outcome))]
pub(crate) fn take_outcome<'a>(
    s: &Setting<'a>,
    f: Frame<'a>,
    v: Outcome,
    stack: &mut Vec<Frame<'a>>,
    store: &mut Store<'a>,
) -> Result<Focus<'a>, Stop>
    ensures { Leads (λ x. at x (stack_of stack.new.items) (store_of store.new)) result
        (take_outcome_on (setting_of s.now) (frame f.entry) v (stack_of stack.old.items) (store_of store.old)) }
{
    match f {
        Frame::First(n, e) => first(s, n, e, v, stack, store),
        Frame::Second(n, e, c) => with_second(s, n, e, c, v, stack, store),
        Frame::Argument(n, f, span, values, xs) => {
            let of = CallSite {
                bound: n,
                function: f,
                span,
            };
            with_argument(s, &of, values, xs, v, stack, store)
        }
        Frame::InStmt(stage, n, r, a) => {
            let of = Statement {
                bound: n,
                result: r,
                tree: a,
            };
            take_statement_outcome(s, stage, &of, v, stack, store)
        }
        Frame::One(n, ty, x, p) => {
            let c = taken(s, n, x, v, store)?;
            take_outcome_one(s, n, ty, p, c, stack, store)
        }
        Frame::Back(_, _, _, _, _)
        | Frame::Rest(_, _, _)
        | Frame::Arms(_, _, _)
        | Frame::End(_)
        | Frame::Switch
        | Frame::Items(_, _, _, _, _)
        | Frame::Vars(_, _)
        | Frame::Filled
        | Frame::Main(_, _) => strays(),
    }
}

/// A part of a statement was left.
#[inline(always)]
#[tactic(auto, unfolding(crate::specs::inner::Swift::take_exit_on, crate::specs::inner::Steps::take_exit))]
fn take_statement_exit<'a>(
    s: &Setting<'a>,
    stage: Stage,
    of: &Statement<'a>,
    h: How,
    stack: &mut Vec<Frame<'a>>,
    store: &mut Store<'a>,
) -> Result<Focus<'a>, Stop>
    ensures { Leads (λ x. at x (stack_of stack.new.items) (store_of store.new)) result
        (take_exit_on (setting_of s.now) (stmt_frame stage of.now.bound of.now.result (tstmt of.now.tree.now)) h
        (stack_of stack.old.items) (store_of store.old)) }
{
    match stage {
        Stage::Body => body_exit(s, of, h, stack, store),
        Stage::Begin => begin_exit(of, h, stack, store),
        Stage::Value | Stage::Step => strays(),
    }
}

#[inline(always)]
fn switched(h: How) -> How
    ensures { result ≡ switched h }
{
    match h {
        How::On | How::Break => How::On,
        How::Continue => How::Continue,
        How::Return(c) => How::Return(c),
    }
}

/// The initialisers of globals are done: main is called.
fn main_called<'a>(
    s: &Setting<'a>,
    n: u32,
    main: u32,
    h: How,
    stack: &mut Vec<Frame<'a>>,
    store: &mut Store<'a>,
) -> Result<Focus<'a>, Stop>
    ensures { Leads (λ x. at x (stack_of stack.new.items) (store_of store.new)) result
        (main_step (setting_of s.now) n main h (stack_of stack.old.items) (store_of store.old)) }
{
    match h {
        How::On => {
            spend(store, 1);
            call(s, n, main, Vec::new(s.alloc), nowhere(), stack, store)
        }
        How::Break | How::Continue | How::Return(_) => strays(),
    }
}

/// A statement was left.
#[inline(always)]
#[tactic(auto, unfolding(crate::specs::inner::Swift::take_exit_on, crate::specs::inner::Steps::take_exit))]
pub(crate) fn take_exit<'a>(
    s: &Setting<'a>,
    f: Frame<'a>,
    h: How,
    stack: &mut Vec<Frame<'a>>,
    store: &mut Store<'a>,
) -> Result<Focus<'a>, Stop>
    ensures { Leads (λ x. at x (stack_of stack.new.items) (store_of store.new)) result
        (take_exit_on (setting_of s.now) (frame f.entry) h (stack_of stack.old.items) (store_of store.old)) }
{
    match f {
        Frame::Back(f, values, r, span, c) => {
            let of = Activation {
                function: f,
                arguments: &values,
                result: r,
                span,
            };
            back_from(s, &of, Box::into_inner(c), h, store)
        }
        Frame::InStmt(stage, n, r, a) => {
            let of = Statement {
                bound: n,
                result: r,
                tree: a,
            };
            take_statement_exit(s, stage, &of, h, stack, store)
        }
        Frame::Rest(n, r, xs) => match h {
            How::On => rest(n, r, xs, stack),
            How::Break | How::Continue | How::Return(_) => Ok(Focus::Exit(h)),
        },
        Frame::Arms(n, r, xs) => match h {
            How::On => arms(n, r, 0, xs, stack),
            How::Break | How::Continue | How::Return(_) => Ok(Focus::Exit(h)),
        },
        Frame::End(made) => {
            end_all(store, made);
            Ok(Focus::Exit(h))
        }
        Frame::Switch => Ok(Focus::Exit(switched(h))),
        Frame::Main(n, main) => main_called(s, n, main, h, stack, store),
        Frame::First(_, _)
        | Frame::Second(_, _, _)
        | Frame::Argument(_, _, _, _, _)
        | Frame::One(_, _, _, _)
        | Frame::Items(_, _, _, _, _)
        | Frame::Vars(_, _)
        | Frame::Filled => strays(),
    }
}

/// A statement waits for no initialiser.
#[tactic(auto, unfolding(crate::specs::inner::Steps::fill_up))]
fn full_statement<'a>(
    s: &Setting<'a>,
    stage: Stage,
    n: u32,
    r: Cell,
    a: &'a TStmt,
    stack: &Vec<Frame<'a>>,
    store: &Store<'a>,
) -> Result<Focus<'a>, Stop>
    ensures { Leads (λ x. at x (stack_of stack.now.items) (store_of store.now)) result
        (fill_up (setting_of s.now) (stmt_frame stage n r (tstmt a.now)) (stack_of stack.now.items) (store_of store.now)) }
{
    match stage {
        Stage::Body | Stage::Begin | Stage::Value | Stage::Step => strays(),
    }
}

/// An initialiser is filled in.
#[inline(always)]
#[tactic(auto, unfolding(crate::specs::inner::Steps::fill_up))]
pub(crate) fn fill_up<'a>(
    s: &Setting<'a>,
    f: Frame<'a>,
    stack: &mut Vec<Frame<'a>>,
    store: &mut Store<'a>,
) -> Result<Focus<'a>, Stop>
    ensures { Leads (λ x. at x (stack_of stack.new.items) (store_of store.new)) result
        (fill_up (setting_of s.now) (frame f.entry) (stack_of stack.old.items) (store_of store.old)) }
{
    match f {
        Frame::Items(n, all, ty, k, p) => {
            let of = ItemList { items: all, ty };
            items(s, n, &of, k, p, stack, store)
        }
        Frame::Vars(n, vs) => vars(n, vs, stack, store),
        Frame::Filled => Ok(Focus::Exit(How::On)),
        Frame::InStmt(stage, n, r, a) => full_statement(s, stage, n, r, a, stack, store),
        Frame::First(_, _)
        | Frame::Second(_, _, _)
        | Frame::Argument(_, _, _, _, _)
        | Frame::Back(_, _, _, _, _)
        | Frame::Rest(_, _, _)
        | Frame::Arms(_, _, _)
        | Frame::End(_)
        | Frame::Switch
        | Frame::One(_, _, _, _)
        | Frame::Main(_, _) => strays(),
    }
}
