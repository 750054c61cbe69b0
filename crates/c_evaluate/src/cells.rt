// Loops over cells, reading and storing.
ghost use Rattle.std.specs.Prelude.{◌≡◌, ◌<◌, ◌-◌, Ok, IfOk, IfErr, option_map};
ghost use Rattle.c_types.specs.View.{ctype};
ghost use Rattle.obj_mem.specs.View.{objects};
ghost use Rattle.obj_mem.specs.Stores.{with_objects};
ghost use Rattle.obj_mem.specs.Queries.{further};
ghost use Rattle.c_meaning.specs.Cells.{source, cell_set};
ghost use Rattle.kit_base.specs.Gives.{Fails, Gives};
ghost use Rattle.c_evaluate.specs.inner.SettingView.{setting_of};
ghost use Rattle.c_evaluate.specs.inner.StoreView.{store_of};
ghost use Rattle.c_evaluate.specs.inner.Storing.{at_span, then_ok, cells_in, structure_in, fetched_in, stored_in};

use crate::operators::read_as;
use crate::setting::Setting;
use crate::stop::Stop;
use crate::store::{Store, spend, temporary};
use c_meaning::End;
use c_tree::Span;
use c_types::{CType, is_structure};
use obj_mem::{Cell, Objects, Refusal, further, read as read_cell, write};

/// Where a value is stored: the type that it is stored at, the tokens where the program strays if that is refused, and the place.
#[derive(Clone, Copy)]
pub(crate) struct Destination<'t> {
    pub(crate) ty: &'t CType,
    pub(crate) span: Span,
    pub(crate) place: Cell,
}

/// An answer, with the tokens where the program strays.
#[inline(always)]
pub(crate) fn located<T>(span: Span, answer: Result<T, Refusal>) -> Result<T, Stop>
    ensures { Gives (λ x. x) result (at_span span answer) }
{
    match answer {
        Ok(x) => Ok(x),
        Err(Refusal::Strays) => Err(Stop::Cause(End::Stray(span))),
        Err(Refusal::Faults(k)) => Err(Stop::Cause(End::Fault(k))),
    }
}

fn source(os: &Objects, from: Option<Cell>) -> Result<Cell, Refusal>
    ensures { result ≡ source from (objects os.now) }
{
    match from {
        None => Ok(Cell::Num(0)),
        Some(p) => read_cell(os, p),
    }
}

/// Sets a cell to the one at a pointer, or to 0.
fn set_cell<'a>(span: Span, from: Option<Cell>, to: Cell, store: &mut Store<'a>) -> Result<(), Stop>
    ensures { Gives (λ _. store_of store.new) result
        (then_ok (at_span span (cell_set from to (store_of store.old).objects)) (λ os. Ok (with_objects os (store_of store.old)))) }
{
    let c = located(span, source(&store.objects, from))?;
    located(span, write(&mut store.objects, to, c))?;
    Ok(())
}

/// The next place that is read.
fn behind(from: Option<Cell>) -> Option<Cell>
    ensures { result ≡ option_map (λ p. further p 1) from }
{
    match from {
        None => None,
        Some(p) => Some(further(p, 1)),
    }
}

/// One turn: the bound of the next.
#[tactic(auto, using(crate::proofs::Turns::turn_failed, crate::proofs::Turns::turn_last, crate::proofs::Turns::turn_out, crate::proofs::Turns::turn_done))]
fn turn<'a>(
    span: Span,
    n: u32,
    left: u64,
    from: Option<Cell>,
    to: Cell,
    store: &mut Store<'a>,
) -> Result<u32, Stop>
    requires some { 0 < left }
    ensures goes { IfOk result (λ m. cells_in span n left from to (store_of store.old)
        ≡ cells_in span m (left - 1) (option_map (λ p. further p 1) from) (further to 1) (store_of store.new)) }
    ensures ends { IfErr result (λ e. Fails e (cells_in span n left from to (store_of store.old))) }
{
    set_cell(span, from, to, store)?;
    if left == 1 {
        return Ok(n);
    }
    if n == 0 {
        return Err(Stop::Cause(End::OutOfBound));
    }
    Ok(n - 1)
}

/// Sets `count` cells to those from a pointer on, or to 0, one per turn, each for `cost` of work.
pub(crate) fn cells<'a>(
    span: Span,
    cost: u64,
    n: u32,
    count: u64,
    from: Option<Cell>,
    to: Cell,
    store: &mut Store<'a>,
) -> Result<(), Stop>
    ensures { Gives (λ _. store_of store.new) result (cells_in span n count from to (store_of store.old)) }
{
    let mut bound = n;
    let mut left = count;
    let mut read = from;
    let mut place = to;
    'cells: while left > 0 {
        spend(store, cost);
        bound = turn(span, bound, left, read, place, store)?;
        left -= 1;
        read = behind(read);
        place = further(place, 1);
    }
    Ok(())
}

/// The cells of a structure that is read stand in an object of their own.
fn structure<'a>(
    s: &Setting<'a>,
    span: Span,
    n: u32,
    size: u32,
    p: Cell,
    store: &mut Store<'a>,
) -> Result<Cell, Stop>
    ensures { Gives (λ c. (c, store_of store.new)) result (structure_in span n size p (store_of store.old)) }
{
    let place = temporary(s, store, size)?;
    cells(span, 1, n, u64::from(size), Some(p), place, store)?;
    Ok(place)
}

/// The value of a place.
#[inline(always)]
pub(crate) fn fetched<'a>(
    s: &Setting<'a>,
    n: u32,
    ty: &CType,
    span: Span,
    p: Cell,
    store: &mut Store<'a>,
) -> Result<Cell, Stop>
    ensures { Gives (λ c. (c, store_of store.new)) result (fetched_in (setting_of s.now) n (ctype ty.now) span p (store_of store.old)) }
{
    match ty {
        CType::Void => Err(Stop::Cause(End::Stray(span))),
        CType::Array(_, _) => Ok(p),
        CType::Struct(_) | CType::Union(_) => structure(s, span, n, s.words(ty), p, store),
        CType::Int | CType::Bool | CType::Enum(_) | CType::Pointer(_) => located(
            span,
            read_as(ty, &store.objects, p),
        ),
    }
}

/// Stores a value. Each cell costs `extra` work, and one more where it is a structure's.
#[inline(always)]
pub(crate) fn stored<'a>(
    s: &Setting<'a>,
    n: u32,
    extra: u64,
    to: &Destination<'_>,
    c: Cell,
    store: &mut Store<'a>,
) -> Result<(), Stop>
    ensures { Gives (λ _. store_of store.new) result
        (stored_in (setting_of s.now) n (ctype to.now.ty.now) to.now.span to.now.place c (store_of store.old)) }
{
    if is_structure(to.ty) {
        let cost = extra.saturating_add(1);
        let words = u64::from(s.words(to.ty));
        return cells(to.span, cost, n, words, Some(c), to.place, store);
    }
    spend(store, extra);
    located(to.span, write(&mut store.objects, to.place, c))
}
