// Into a function, and back.
ghost use Rattle.std.specs.Prelude.{◌≡◌, ◌<◌, ◌+◌, ◌^◌, [], IfOk, OnOk, map, option_map};
ghost use Rattle.obj_mem.specs.Stores.{entered, has_room};
ghost use Rattle.mid_code.specs.States.{begun, function_at, if_room, received, temporaries};
ghost use Rattle.mid_evaluate.specs.inner.Answers.{Does, Leads, went};
ghost use Rattle.mid_evaluate.specs.inner.Once.{back_in, call_parts, caller_of, restored, returned};
ghost use Rattle.mid_evaluate.specs.View.{caller, code_of, held, parts_of, sizes, state_of, store_of};

use crate::answer::Ending;
use crate::flow::Flow;
use crate::setting::Setting;
use crate::state::{State, Store, cell, put, put_in_maybe, spend};
use crate::stop::Stop;
use kit_base::Memory;
use mid_code::Op;
use obj_mem::Cell;
use std::alloc::Global;

/// What a call keeps of its caller.
#[derive(Drop)]
pub(crate) struct Caller {
    pub(crate) objects: u64,
    pub(crate) function: Option<u32>,
    pub(crate) locals: Vec<Option<u64>>,
    pub(crate) used: u32,
    pub(crate) cells: Vec<Cell>,
    pub(crate) given: Cell,
}

/// A call's target, function and arguments.
#[derive(Clone, Copy)]
pub(crate) struct Parts<'a> {
    pub(crate) target: Option<u32>,
    pub(crate) function: u32,
    pub(crate) args: &'a [u32],
}

/// The parts of a call; none of another operation.
pub(crate) fn call_parts(o: &Op<u32>) -> Option<Parts<'_>>
    ensures { option_map parts_of result ≡ call_parts o.now }
{
    match o {
        Op::Call(target, function, args) => Some(Parts {
            target: *target,
            function: *function,
            args: args.as_slice(),
        }),
        _ => None,
    }
}

/// The cells of arguments.
fn passed(alloc: Global, cells: &[Cell], args: &[u32]) -> Result<Vec<Cell>, Memory>
    ensures { IfOk result (λ v. v.items ≡ map (held cells.now) args.now) }
{
    let mut values = Vec::new(alloc);
    'each: for a in args {
        values.push(cell(cells, *a))?;
    }
    Ok(values)
}

/// Writes arguments at their places. The first of two places that are one has its argument last.
fn receive(cells: &mut Vec<Cell>, params: &[u32], args: &[Cell]) -> Result<(), Memory>
    requires none { held cells.old.items ≡ received temporaries [] [] }
    ensures { OnOk result (held cells.new.items ≡ received temporaries params.now args.now) }
{
    let Some((p, later)) = params.split_first() else {
        return Ok(());
    };
    let Some((c, after)) = args.split_first() else {
        return Ok(());
    };
    receive(cells, later, after)?;
    put(cells, *p, *c)
}

/// The cells of a call at its entry.
#[tactic(auto, using(crate::proofs::Cells::none_held))]
fn received(alloc: Global, params: &[u32], args: &[Cell]) -> Result<Vec<Cell>, Memory>
    ensures { IfOk result (λ v. held v.items ≡ received temporaries params.now args.now) }
{
    let mut cells = Vec::new(alloc);
    receive(&mut cells, params, args)?;
    Ok(cells)
}

/// Into the store of a function, whose locals are not made yet; the locals of the caller.
fn enter_store<'a>(
    s: &Setting<'a>,
    store: &mut Store<'a>,
    f: u32,
    frame: u32,
) -> Result<Vec<Option<u64>>, Memory>
    requires room { store.old.used + (frame + 2) < 2 ^ 32 }
    requires words { frame ≡ (sizes s.now).frame f }
    ensures locals { IfOk result (λ v. v.items ≡ (store_of store.old).locals) }
    ensures entered { OnOk result (store_of store.new ≡ entered (sizes s.now) f (store_of store.old)) }
{
    let made = Vec::from_elem(s.alloc, None, s.locals(f).len())?;
    let outer = std::mem::replace(&mut store.locals, made);
    store.function = Some(f);
    store.used = store.used + (frame + 2);
    Ok(outer)
}

/// Into a function that has room.
fn begin<'a>(s: &Setting<'a>, m: &mut State<'a>, f: u32, args: &[u32]) -> Result<Caller, Memory>
    requires room { (state_of m.old).world.store.used + ((sizes s.now).frame f + 2) < 2 ^ 32 }
    ensures caller { IfOk result (λ c. caller c ≡ caller_of (state_of m.old)) }
    ensures begun { OnOk result (state_of m.new ≡ begun temporaries (sizes s.now) (function_at (code_of s.now) f).params f args.now (state_of m.old)) }
{
    let values = passed(s.alloc, &m.cells, args)?;
    let cells = received(s.alloc, s.params(f), &values)?;
    spend(m, 16)?;
    let objects = m.world.store.objects.count();
    let function = m.world.store.function;
    let used = m.world.store.used;
    let locals = enter_store(s, &mut m.world.store, f, s.frame(f))?;
    let outer = std::mem::replace(&mut m.cells, cells);
    let given = m.given;
    m.given = Cell::Unwritten;
    Ok(Caller {
        objects,
        function,
        locals,
        used,
        cells: outer,
        given,
    })
}

/// Into a function, where it has room.
pub(crate) fn enter<'a>(
    s: &Setting<'a>,
    m: &mut State<'a>,
    f: u32,
    args: &[u32],
) -> Result<Caller, Stop>
    ensures caller { IfOk result (λ c. caller c ≡ caller_of (state_of m.old)) }
    ensures enters { Does result (state_of m.new) (if_room (has_room (sizes s.now) f (state_of m.old).world.store) (state_of m.old)
        (begun temporaries (sizes s.now) (function_at (code_of s.now) f).params f args.now (state_of m.old))) }
{
    if !s.has_room(f, m.world.store.used) {
        return Err(Stop::Cause(Ending::Deep));
    }
    let kept = begin(s, m, f, args)?;
    Ok(kept)
}

/// The caller's part of the state again.
fn restore<'a>(m: &mut State<'a>, c: Caller)
    ensures { state_of m.new ≡ restored (caller c) (state_of m.old) }
{
    let Caller {
        objects,
        function,
        locals,
        used,
        cells,
        given,
    } = c;
    m.world.store.objects.end_from(objects);
    m.world.store.function = function;
    m.world.store.locals = locals;
    m.world.store.used = used;
    m.cells = cells;
    m.given = given;
}

/// Back in the caller, whose target takes the result.
fn back<'a>(m: &mut State<'a>, c: Caller, t: Option<u32>) -> Result<(), Memory>
    ensures { OnOk result (state_of m.new ≡ back_in (caller c) t (state_of m.old)) }
{
    let result = m.given;
    restore(m, c);
    put_in_maybe(m, t, result)
}

/// How a call ends, whose body ended so.
pub(crate) fn leave<'a>(
    m: &mut State<'a>,
    c: Caller,
    t: Option<u32>,
    flow: Flow,
) -> Result<Flow, Stop>
    ensures { Leads result (state_of m.new) (returned (caller c) t (went flow (state_of m.old))) }
{
    match flow {
        Flow::Next => {
            m.given = Cell::Unwritten;
            back(m, c, t)?;
            Ok(Flow::Next)
        }
        Flow::Returns => {
            back(m, c, t)?;
            Ok(Flow::Next)
        }
        Flow::Leaves(_) => Err(Stop::Cause(Ending::Stray)),
        Flow::Repeats(_) => Err(Stop::Cause(Ending::Stray)),
    }
}
