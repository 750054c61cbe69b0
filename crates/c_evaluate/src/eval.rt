// Expressions begun.
ghost use Rattle.std.specs.Prelude.{List};
ghost use Rattle.c_types.specs.View.{texpr};
ghost use Rattle.c_evaluate.specs.inner.Machine.{FrameT};
ghost use Rattle.c_evaluate.specs.inner.Results.{Leads};
ghost use Rattle.c_evaluate.specs.inner.FocusView.{at, stack_of};
ghost use Rattle.c_evaluate.specs.inner.SettingView.{setting_of};
ghost use Rattle.c_evaluate.specs.inner.StoreView.{store_of};
ghost use Rattle.c_evaluate.specs.inner.Steps.{input};
ghost use Rattle.c_evaluate.specs.inner.Swift.{eval_of_on, operand_on};

use crate::calls::{CallSite, arguments};
use crate::cells::located;
use crate::frame::{Focus, Frame, Outcome};
use crate::leaf::{at_once, global_at, nodes};
use crate::operands::first;
use crate::setting::Setting;
use crate::stack::{next, push};
use crate::stop::Stop;
use crate::store::{Store, no_arguments, spend};
use c_meaning::End;
use c_types::{TExpr, TKind};
use kit_base::Event;
use obj_mem::{Cell, local_cell};

/// The first operand of an expression.
fn operand<'a>(
    s: &Setting<'a>,
    n: u32,
    e: &'a TExpr,
    x: &'a TExpr,
    stack: &mut Vec<Frame<'a>>,
    store: &mut Store<'a>,
) -> Result<Focus<'a>, Stop>
    ensures { Leads (λ f. at f (stack_of stack.new.items) (store_of store.new)) result
        (operand_on (setting_of s.now) n (texpr e.now) (texpr x.now) (stack_of stack.old.items) (store_of store.old)) }
{
    match at_once(s, x, store) {
        Some(v) => {
            spend(store, nodes(x));
            first(s, n, e, v, stack, store)
        }
        None => {
            push(stack, Frame::First(n, e))?;
            Ok(Focus::Eval(n, x))
        }
    }
}

/// The first answer left.
fn input<'a>(port: u32, store: &mut Store<'a>) -> Result<Focus<'a>, Stop>
    ensures { (k : List FrameT) → Leads (λ f. at f k (store_of store.new)) result (input port (store_of store.old).answers k (store_of store.old)) }
{
    match next(store.answers) {
        None => Err(Stop::Cause(End::Starved)),
        Some((x, rest)) => {
            let word = *x;
            store.answers = rest;
            Ok(Focus::Made(Event::In(port, word), Outcome::Value(Cell::Num(word))))
        }
    }
}

/// Begins an expression.
#[inline(always)]
#[tactic(auto, unfolding(crate::specs::inner::Swift::eval_on, crate::specs::inner::Steps::eval))]
pub(crate) fn eval<'a>(
    s: &Setting<'a>,
    n: u32,
    e: &'a TExpr,
    stack: &mut Vec<Frame<'a>>,
    store: &mut Store<'a>,
) -> Result<Focus<'a>, Stop>
    ensures { Leads (λ f. at f (stack_of stack.new.items) (store_of store.new)) result
        (eval_of_on (setting_of s.now) n (texpr e.now) (stack_of stack.old.items) (store_of store.old)) }
{
    match &e.kind {
        TKind::Number(x) => Ok(Focus::Outcome(Outcome::Value(Cell::Num(*x)))),
        TKind::Null => Ok(Focus::Outcome(Outcome::Value(Cell::Null))),
        TKind::Literal(number) => Ok(Focus::Outcome(Outcome::Place(s.literal_at(*number)))),
        TKind::Global(number) => Ok(Focus::Outcome(Outcome::Place(global_at(*number)))),
        TKind::Local(number) => {
            let p = located(e.span, local_cell(&store.locals, *number as usize))?;
            Ok(Focus::Outcome(Outcome::Place(p)))
        }
        TKind::Unary(_, x)
        | TKind::Binary(_, x, _)
        | TKind::Assign(_, x, _)
        | TKind::Step(_, x)
        | TKind::Index(x, _)
        | TKind::Member(x, _)
        | TKind::Arrow(x, _)
        | TKind::Cast(x)
        | TKind::Out(_, x) => operand(s, n, e, x, stack, store),
        TKind::Call(f, xs) => {
            let values = no_arguments(s, store);
            let of = CallSite {
                bound: n,
                function: *f,
                span: e.span,
            };
            arguments(s, &of, values, xs.as_slice(), stack, store)
        }
        TKind::In(port) => input(*port, store),
        TKind::Wait => Ok(Focus::Made(Event::Wait, Outcome::Nothing)),
        TKind::Halt => Err(Stop::Cause(End::Halted)),
        TKind::Card => Ok(Focus::Outcome(Outcome::Value(s.card_at()))),
    }
}
