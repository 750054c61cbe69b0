// What a run has made so far.
ghost use Rattle.std.specs.Prelude.{◌≡◌, ◌<◌, ◌+◌, IfOk, OnOk, set, Some, length};
ghost use Rattle.obj_mem.specs.Objects.{made, unwritten};
ghost use Rattle.obj_mem.specs.Stores as stores;
ghost use Rattle.obj_mem.specs.Stores.{end_local, end_one};
ghost use Rattle.obj_mem.specs.Worlds.{happened, spend};
ghost use Rattle.obj_mem.specs.View.{objects};
ghost use Rattle.mid_code.specs.States.{put, put_in, put_in_maybe, spent, temporaries};
ghost use Rattle.mid_evaluate.specs.View.{sizes, store_of, world_of, state_of, held};
ghost use Rattle.mid_evaluate.specs.inner.Once.{given};

use crate::setting::Setting;
use kit_base::{Event, Memory};
use obj_mem::{Cell, Objects, end_local, fresh_local};

/// The objects, the answers left, the function that is called, the objects of its locals, and the words of the frames in use.
#[derive(Drop)]
pub(crate) struct Store<'a> {
    pub(crate) objects: Objects,
    pub(crate) answers: &'a [u32],
    pub(crate) function: Option<u32>,
    pub(crate) locals: Vec<Option<u64>>,
    pub(crate) used: u32,
}

/// The store, and what was done so far.
#[derive(Drop)]
pub(crate) struct World<'a> {
    pub(crate) store: Store<'a>,
    pub(crate) events: Vec<Event>,
    pub(crate) work: u64,
}

/// The world, the cells of the temporaries of the call, and the result that it gave. Temporaries behind the last cell are unwritten.
#[derive(Drop)]
pub(crate) struct State<'a> {
    pub(crate) world: World<'a>,
    pub(crate) cells: Vec<Cell>,
    pub(crate) given: Cell,
}

// ---- temporaries

/// The cell of a temporary.
#[inline(always)]
#[tactic(auto, unfolding(crate::specs::View::held))]
pub(crate) fn cell(cells: &[Cell], t: u32) -> Cell
    ensures { result ≡ held cells.now t }
{
    match cells.get(t as usize) {
        None => Cell::Unwritten,
        Some(c) => *c,
    }
}

/// Adds unwritten cells until a temporary has one.
#[tactic(auto, using(crate::proofs::Cells::one_more))]
fn reach(cells: &mut Vec<Cell>, t: u32) -> Result<(), Memory>
    ensures same { OnOk result (held cells.new.items ≡ held cells.old.items) }
    ensures there { OnOk result (t < length cells.new.items) }
{
    'reach: while cells.len() <= t as usize {
        cells.push(Cell::Unwritten)?;
    }
    Ok(())
}

fn set_cell(cells: &mut Vec<Cell>, t: u32, c: Cell)
    ensures { cells.new.items ≡ set cells.old.items t c }
{
    if (t as usize) < cells.len() {
        cells[t as usize] = c;
    }
}

/// Writes the cell of a temporary.
#[tactic(auto, using(crate::proofs::Cells::put_after))]
pub(crate) fn put(cells: &mut Vec<Cell>, t: u32, c: Cell) -> Result<(), Memory>
    ensures { OnOk result (held cells.new.items ≡ put temporaries (held cells.old.items) t c) }
{
    reach(cells, t)?;
    set_cell(cells, t, c);
    Ok(())
}

pub(crate) fn put_in<'a>(m: &mut State<'a>, t: u32, c: Cell) -> Result<(), Memory>
    ensures { OnOk result (state_of m.new ≡ put_in temporaries t c (state_of m.old)) }
{
    put(&mut m.cells, t, c)
}

pub(crate) fn put_in_maybe<'a>(m: &mut State<'a>, t: Option<u32>, c: Cell) -> Result<(), Memory>
    ensures { OnOk result (state_of m.new ≡ put_in_maybe temporaries t c (state_of m.old)) }
{
    match t {
        None => Ok(()),
        Some(t) => put_in(m, t, c),
    }
}

/// Gives a result.
pub(crate) fn give<'a>(m: &mut State<'a>, p: Option<u32>)
    ensures { state_of m.new ≡ given p (state_of m.old) }
{
    m.given = match p {
        None => Cell::Unwritten,
        Some(p) => cell(&m.cells, p),
    };
}

// ---- the past

/// Counts work. Where the sum has no word of 64 bits the answer is want of memory.
fn count(work: u64, more: u64) -> Result<u64, Memory>
    ensures { IfOk result (λ w. w ≡ work + more) }
{
    match work.checked_add(more) {
        Some(w) => Ok(w),
        None => Err(Memory),
    }
}

pub(crate) fn spend<'a>(m: &mut State<'a>, more: u64) -> Result<(), Memory>
    ensures { OnOk result (state_of m.new ≡ spent more (state_of m.old)) }
{
    m.world.work = count(m.world.work, more)?;
    Ok(())
}

pub(crate) fn happen<'a>(w: &mut World<'a>, event: Event) -> Result<(), Memory>
    ensures { OnOk result (world_of w.new ≡ happened event (world_of w.old)) }
{
    w.events.push(event)?;
    Ok(())
}

// ---- objects

/// Makes a local anew.
pub(crate) fn fresh<'a>(s: &Setting<'a>, store: &mut Store<'a>, k: u32) -> Result<(), Memory>
    ensures { OnOk result (store_of store.new ≡ stores.fresh (sizes s.now) k (store_of store.old)) }
{
    let words = s.local_words(store.function, k);
    fresh_local(
        s.alloc,
        &mut store.objects,
        &mut store.locals,
        k as usize,
        words,
    )
}

/// Ends a local.
pub(crate) fn end_one<'a>(store: &mut Store<'a>, k: u32)
    ensures { store_of store.new ≡ end_one k (store_of store.old) }
{
    end_local(&mut store.objects, &store.locals, k as usize);
}
