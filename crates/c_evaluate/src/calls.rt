// Calls and their arguments.
ghost use Rattle.std.specs.Prelude.{◌≡◌, ◌<◌, ◌+◌, ◌^◌, List, IfOk, OnOk, map, slice_get};
ghost use Rattle.c_types.specs.View.{ctype, function, texpr, texprs};
ghost use Rattle.obj_mem.specs.Stores.{has_room};
ghost use Rattle.c_meaning.specs.Expressions.{result_place, with_result, params_of, all_released};
ghost use Rattle.c_evaluate.specs.inner.Machine.{FrameT};
ghost use Rattle.kit_base.specs.Gives.{Gives};
ghost use Rattle.c_evaluate.specs.inner.Results.{Leads};
ghost use Rattle.c_evaluate.specs.inner.FocusView.{at, stack_of};
ghost use Rattle.c_evaluate.specs.inner.SettingView.{setting_of};
ghost use Rattle.c_evaluate.specs.inner.StoreView.{store_of, caller};
ghost use Rattle.c_evaluate.specs.inner.Storing.{params_in};
ghost use Rattle.c_evaluate.specs.inner.Steps.{body_of, in_room, enter, call, argument_in, back_step};
ghost use Rattle.c_evaluate.specs.inner.Swift.{args_on, argument_on, call_on, took};

use crate::cells::{Destination, located, stored};
use crate::exec::rest;
use crate::filling::nowhere;
use crate::frame::{Caller, Focus, Frame, How, Outcome};
use crate::leaf::{at_once, nodes};
use crate::operators::converted;
use crate::quick::{quick, quick_work};
use crate::setting::Setting;
use crate::stack::{next, push};
use crate::stop::Stop;
use crate::store::{
    Store, back, end_temporary, enter as enter_function, fresh_all, keep_arguments, passed,
    released, spend, temporary,
};
use crate::using::taken;
use c_meaning::End;
use c_tree::Span;
use c_types::{CType, TExpr, TFunction, is_structure};
use kit_base::Memory;
use obj_mem::{Cell, local_cell};

/// A call whose arguments are evaluated: the bound, the number of the function, and the tokens of the call.
#[derive(Clone, Copy)]
pub(crate) struct CallSite {
    pub(crate) bound: u32,
    pub(crate) function: u32,
    pub(crate) span: Span,
}

/// A function that is called: its number, its tree, the place of the structure that it gives, and the tokens of the call.
#[derive(Clone, Copy)]
struct Callee<'a> {
    number: u32,
    tree: &'a TFunction,
    result: Cell,
    span: Span,
}

/// A call that is left: the number of its function, its arguments, the place of the structure that it gives, and its tokens.
#[derive(Clone, Copy)]
pub(crate) struct Activation<'v> {
    pub(crate) function: u32,
    pub(crate) arguments: &'v [Cell],
    pub(crate) result: Cell,
    pub(crate) span: Span,
}

/// The parameters take the arguments.
fn params<'a>(
    s: &Setting<'a>,
    n: u32,
    tys: &[CType],
    values: &[Cell],
    store: &mut Store<'a>,
) -> Result<(), Stop>
    ensures { Gives (λ _. store_of store.new) result (params_in (setting_of s.now) n 0 (map ctype tys.now) values.now (store_of store.old)) }
{
    let mut k = 0;
    let mut types = tys;
    let mut cells = values;
    'params: while let Some((ty, later)) = next(types) {
        let Some((c, after)) = next(cells) else {
            return Err(Stop::Cause(End::Stray(nowhere())));
        };
        let place = located(nowhere(), local_cell(&store.locals, k))?;
        let span = nowhere();
        let to = Destination { ty, span, place };
        stored(s, n, 0, &to, *c, store)?;
        types = later;
        cells = after;
        k += 1;
    }
    if cells.is_empty() {
        Ok(())
    } else {
        Err(Stop::Cause(End::Stray(nowhere())))
    }
}

/// Into the body of a function, whose arguments are there and which has room.
fn body<'a>(
    s: &Setting<'a>,
    m: u32,
    of: &Callee<'a>,
    values: Vec<Cell>,
    frame: u32,
    stack: &mut Vec<Frame<'a>>,
    store: &mut Store<'a>,
) -> Result<Focus<'a>, Stop>
    requires room { store.old.used + (frame + 2) < 2 ^ 32 }
    requires words { frame ≡ (setting_of s.now).sizes.frame of.now.number }
    ensures { Leads (λ x. at x (stack_of stack.new.items) (store_of store.new)) result
        (body_of (setting_of s.now) m of.now.number (function of.now.tree.now) values.items of.now.result of.now.span
        (stack_of stack.old.items) (store_of store.old)) }
{
    let g = of.tree;
    let caller = Box::new(s.alloc, enter_function(s, store, of.number, frame)?)?;
    fresh_all(s, store, g.made.as_slice())?;
    params(s, m, g.params.as_slice(), &values, store)?;
    push(
        stack,
        Frame::Back(of.number, values, of.result, of.span, caller),
    )?;
    rest(m, of.result, g.body.as_slice(), stack)
}

/// Into a function with that bound, where there is room.
fn enter_in<'a>(
    s: &Setting<'a>,
    m: u32,
    of: &Callee<'a>,
    values: Vec<Cell>,
    stack: &mut Vec<Frame<'a>>,
    store: &mut Store<'a>,
) -> Result<Focus<'a>, Stop>
    ensures { Leads (λ x. at x (stack_of stack.new.items) (store_of store.new)) result
        (in_room (has_room (setting_of s.now).sizes of.now.number (store_of store.old)) of.now.span
        (body_of (setting_of s.now) m of.now.number (function of.now.tree.now) values.items of.now.result of.now.span
        (stack_of stack.old.items) (store_of store.old))) }
{
    if !s.has_room(of.number, store.used) {
        return Err(Stop::Cause(End::Deep(of.span)));
    }
    body(s, m, of, values, s.frame(of.number), stack, store)
}

/// Into a function, where the bound and the room allow it.
fn enter<'a>(
    s: &Setting<'a>,
    n: u32,
    of: &Callee<'a>,
    values: Vec<Cell>,
    stack: &mut Vec<Frame<'a>>,
    store: &mut Store<'a>,
) -> Result<Focus<'a>, Stop>
    ensures { Leads (λ x. at x (stack_of stack.new.items) (store_of store.new)) result
        (enter (setting_of s.now) n of.now.number (function of.now.tree.now) values.items of.now.result of.now.span
        (stack_of stack.old.items) (store_of store.old)) }
{
    if n == 0 {
        return Err(Stop::Cause(End::OutOfBound));
    }
    enter_in(s, n - 1, of, values, stack, store)
}

/// The place of a structure that a function gives.
fn result_place<'a>(s: &Setting<'a>, ty: &CType, store: &mut Store<'a>) -> Result<Cell, Memory>
    ensures place { IfOk result (λ r. r ≡ result_place (ctype ty.now) (store_of store.old)) }
    ensures made { OnOk result (store_of store.new ≡ with_result (setting_of s.now) (ctype ty.now) (store_of store.old)) }
{
    if is_structure(ty) {
        return temporary(s, store, s.words(ty));
    }
    Ok(Cell::Unwritten)
}

/// Calls a function.
pub(crate) fn call<'a>(
    s: &Setting<'a>,
    n: u32,
    f: u32,
    values: Vec<Cell>,
    span: Span,
    stack: &mut Vec<Frame<'a>>,
    store: &mut Store<'a>,
) -> Result<Focus<'a>, Stop>
    ensures { Leads (λ x. at x (stack_of stack.new.items) (store_of store.new)) result
        (call (setting_of s.now) n f values.items span (stack_of stack.old.items) (store_of store.old)) }
{
    let Some(g) = s.function(f) else {
        return Err(Stop::Cause(End::Stray(span)));
    };
    let r = result_place(s, &g.result, store)?;
    let of = Callee {
        number: f,
        tree: g,
        result: r,
        span,
    };
    enter(s, n, &of, values, stack, store)
}

/// Calls a function, which may come at once.
fn called<'a>(
    s: &Setting<'a>,
    n: u32,
    f: u32,
    values: Vec<Cell>,
    span: Span,
    stack: &mut Vec<Frame<'a>>,
    store: &mut Store<'a>,
) -> Result<Focus<'a>, Stop>
    ensures { Leads (λ x. at x (stack_of stack.new.items) (store_of store.new)) result
        (call_on (setting_of s.now) n f values.items span (stack_of stack.old.items) (store_of store.old)) }
{
    match quick(s, n, f, &values, store) {
        None => call(s, n, f, values, span, stack, store),
        Some(z) => {
            spend(store, quick_work(s, f));
            passed(s, store, &values)?;
            keep_arguments(store, values);
            Ok(Focus::Outcome(Outcome::Value(Cell::Num(z))))
        }
    }
}

/// What came of an argument, converted to the type of its parameter.
#[inline(always)]
fn argument<'a>(s: &Setting<'a>, f: u32, k: usize, x: &TExpr, c: Cell) -> Result<Cell, Stop>
    ensures { Gives (λ z. z) result (argument_in (slice_get (params_of (slice_get (setting_of s.now).functions f)) k) (texpr x.now) c) }
{
    match s.parameter(f, k) {
        None => Err(Stop::Cause(End::Stray(x.span))),
        Some(ty) => located(x.span, converted(ty, c)),
    }
}

/// One more argument is there.
#[inline(always)]
fn took<'a>(
    s: &Setting<'a>,
    n: u32,
    f: u32,
    x: &TExpr,
    v: Outcome,
    values: &mut Vec<Cell>,
    store: &mut Store<'a>,
) -> Result<(), Stop>
    ensures { Gives (λ _. (values.new.items, store_of store.new)) result (took (setting_of s.now) n f (texpr x.now) v values.old.items (store_of store.old)) }
{
    let c = taken(s, n, x, v, store)?;
    let z = argument(s, f, values.len(), x, c)?;
    values.push(z)?;
    Ok(())
}

/// On to the next argument that does not come at once, or into the function.
pub(crate) fn arguments<'a>(
    s: &Setting<'a>,
    of: &CallSite,
    values: Vec<Cell>,
    xs: &'a [TExpr],
    stack: &mut Vec<Frame<'a>>,
    store: &mut Store<'a>,
) -> Result<Focus<'a>, Stop>
    ensures { Leads (λ x. at x (stack_of stack.new.items) (store_of store.new)) result
        (args_on (setting_of s.now) of.now.bound of.now.function of.now.span values.items (texprs (map texpr xs.now))
        (stack_of stack.old.items) (store_of store.old)) }
{
    let mut given = values;
    let mut left = xs;
    'arguments: while let Some((x, later)) = next(left) {
        let Some(v) = at_once(s, x, store) else {
            push(
                stack,
                Frame::Argument(of.bound, of.function, of.span, given, left),
            )?;
            return Ok(Focus::Eval(of.bound, x));
        };
        spend(store, nodes(x));
        took(s, of.bound, of.function, x, v, &mut given, store)?;
        left = later;
    }
    called(s, of.bound, of.function, given, of.span, stack, store)
}

/// An argument came.
pub(crate) fn with_argument<'a>(
    s: &Setting<'a>,
    of: &CallSite,
    mut values: Vec<Cell>,
    xs: &'a [TExpr],
    v: Outcome,
    stack: &mut Vec<Frame<'a>>,
    store: &mut Store<'a>,
) -> Result<Focus<'a>, Stop>
    ensures { Leads (λ x. at x (stack_of stack.new.items) (store_of store.new)) result
        (argument_on (setting_of s.now) of.now.bound of.now.function of.now.span values.items (texprs (map texpr xs.now)) v
        (stack_of stack.old.items) (store_of store.old)) }
{
    match next(xs) {
        None => Ok(Focus::Outcome(v)),
        Some((x, later)) => {
            took(s, of.bound, of.function, x, v, &mut values, store)?;
            arguments(s, of, values, later, stack, store)
        }
    }
}

/// The structures that were passed end.
fn released_all<'a>(tys: &[CType], values: &[Cell], store: &mut Store<'a>)
    ensures { store_of store.new ≡ all_released (map ctype tys.now) values.now (store_of store.old) }
{
    let mut types = tys;
    let mut cells = values;
    'types: while let Some((ty, later)) = next(types) {
        let Some((c, after)) = next(cells) else {
            return;
        };
        released(store, ty, *c);
        types = later;
        cells = after;
    }
}

/// The structures that were passed to a function end.
fn released_args<'a>(s: &Setting<'a>, f: u32, values: &[Cell], store: &mut Store<'a>)
    ensures { store_of store.new ≡ all_released (params_of (slice_get (setting_of s.now).functions f)) values.now (store_of store.old) }
{
    match s.function(f) {
        None => {}
        Some(g) => released_all(g.params.as_slice(), values, store),
    }
}

/// A function was left.
pub(crate) fn back_from<'a>(
    s: &Setting<'a>,
    of: &Activation<'_>,
    c: Caller,
    h: How,
    store: &mut Store<'a>,
) -> Result<Focus<'a>, Stop>
    ensures { (k : List FrameT) → Leads (λ x. at x k (store_of store.new)) result
        (back_step (params_of (slice_get (setting_of s.now).functions of.now.function)) of.now.arguments.now of.now.result of.now.span
        (caller c) h k (store_of store.old)) }
{
    match h {
        How::On | How::Return(None) => {
            back(store, c);
            end_temporary(store, of.result);
            released_args(s, of.function, of.arguments, store);
            Ok(Focus::Outcome(Outcome::Nothing))
        }
        How::Return(Some(z)) => {
            back(store, c);
            released_args(s, of.function, of.arguments, store);
            Ok(Focus::Outcome(Outcome::Value(z)))
        }
        How::Break | How::Continue => Err(Stop::Cause(End::Stray(of.span))),
    }
}
