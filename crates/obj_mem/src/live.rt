// The objects that live, in rising order of their numbers.
ghost use Rattle.std.specs.Prelude.{IfSome, ◌≡◌, ◌≤◌, ◌<◌, ◌↔◌, ℕ, IsTrue, OnErr, OnOk, IfErr, None, Some, length, map, take, ◌-◌, ◌&&◌, leb, ltb};
ghost use Rattle.std.specs.Bool.{OnTrue, OnFalse};
ghost use Rattle.obj_mem.specs.Objects.{cell_at, extent, read_refused, unless_refused, write_refused};
ghost use Rattle.obj_mem.specs.Living.{Rises, as_object, found, live_at, live_below, live_without, live_written, number_at, place_of, written_at};
ghost use Rattle.obj_mem.specs.LiveView.{live_object};

use crate::access::Access;
use crate::cell::Cell;
use crate::object::{Object, extent, read_cell, write_cell};

#[inline(always)]
fn number_of(live: &[Object], at: usize) -> u64
    requires { at < length live.now }
    ensures { result ≡ number_at (map live_object live.now) at }
{
    live[at].number
}

/// Whether the object at that place has that number. It has none where there is no such place.
#[inline(always)]
fn has_number(live: &[Object], at: usize, number: u64) -> bool
    ensures { IsTrue result ↔ ((at < length live.now) × (number_at (map live_object live.now) at ≡ number)) }
{
    at < live.len() && number_of(live, at) == number
}

/// The place of a number, if all from there on to the last live.
#[inline(always)]
fn from_end(live: &[Object], number: u64) -> usize {
    match live.split_last() {
        None => 0,
        Some((last, front)) => {
            let back = last.number.wrapping_sub(number) as usize;
            front.len().wrapping_sub(back)
        }
    }
}

/// The first place of a number that is not below that one.
fn begin_of(live: &[Object], number: u64) -> usize
    requires rises { (next : ℕ) × Rises 0 next (map live_object live.now) }
    ensures bound { result ≤ length live.now }
    ensures below { (k : ℕ) → k < result → number_at (map live_object live.now) k < number }
    ensures from { (k : ℕ) → result ≤ k → k < length live.now → number ≤ number_at (map live_object live.now) k }
{
    let mut low = 0;
    let mut high = live.len();
    while low < high {
        let middle = low + (high - low) / 2;
        if number_of(live, middle) < number {
            low = middle + 1;
        } else {
            high = middle;
        }
    }
    low
}

#[tactic(auto, using(crate::proofs::InMemory::found_at, crate::proofs::InMemory::found_nowhere))]
fn search(live: &[Object], number: u64) -> Option<usize>
    requires rises { (next : ℕ) × Rises 0 next (map live_object live.now) }
    ensures exact { result ≡ place_of (map live_object live.now) number }
    ensures bound { IfSome result (λ at. at < length live.now) }
{
    let at = begin_of(live, number);
    if has_number(live, at, number) {
        Some(at)
    } else {
        None
    }
}

/// The place of the object of a number, where it lives. Most numbers stand side by side, those of globals from the first on, those of a
/// call's locals to the last, so these two places are tried first.
#[inline(always)]
#[tactic(auto, using(crate::proofs::InMemory::found_at, crate::proofs::InMemory::here_within))]
pub(crate) fn place(live: &[Object], number: u64) -> Option<usize>
    requires rises { (next : ℕ) × Rises 0 next (map live_object live.now) }
    ensures exact { result ≡ place_of (map live_object live.now) number }
    ensures bound { IfSome result (λ at. at < length live.now) }
{
    let at = from_end(live, number);
    if has_number(live, at, number) {
        return Some(at);
    }
    let at = number as usize;
    if has_number(live, at, number) {
        return Some(at);
    }
    search(live, number)
}

/// Takes out the object of a number, where it lives.
#[tactic(auto, using(crate::proofs::InMemory::taken_out, crate::proofs::InMemory::none_out))]
pub(crate) fn take_out(live: &mut Vec<Object>, number: u64)
    requires rises { (next : ℕ) × Rises 0 next (map live_object live.old.items) }
    ensures { map live_object live.new.items ≡ live_without number (map live_object live.old.items) }
{
    if let Some(at) = place(live, number) {
        live.remove(at);
    }
}

/// Whether the last of them is below a number, and so are all.
#[tactic(auto, using(crate::proofs::InMemory::all_below, crate::proofs::InMemory::last_not_below))]
fn are_below(live: &[Object], number: u64) -> bool
    requires rises { (next : ℕ) × Rises 0 next (map live_object live.now) }
    ensures all { OnTrue result (live_below number (map live_object live.now) ≡ map live_object live.now) }
    ensures last { OnFalse result (live_below number (map live_object (take (length live.now - 1) live.now)) ≡ live_below number (map live_object live.now)) }
    ensures some { OnFalse result (0 < length live.now) }
{
    let count = live.len();
    count == 0 || number_of(live, count - 1) < number
}

/// Cuts off the objects from a number on.
#[tactic(auto, using(crate::proofs::InMemory::front_rises))]
pub(crate) fn cut_off(live: &mut Vec<Object>, number: u64)
    requires rises { (next : ℕ) × Rises 0 next (map live_object live.old.items) }
    ensures { map live_object live.new.items ≡ live_below number (map live_object live.old.items) }
{
    'cut: while !are_below(live, number) {
        live.pop();
    }
}

/// The cell at an offset of the object of a number.
#[inline(always)]
#[tactic(auto, using(crate::proofs::InMemory::read_here, crate::proofs::InMemory::read_ended))]
pub(crate) fn read(live: &[Object], number: u64, offset: u32) -> Result<Cell, Access>
    requires rises { (next : ℕ) × Rises 0 next (map live_object live.now) }
    ensures { result ≡ unless_refused (read_refused (found (map live_object live.now) number) offset)
        (cell_at (found (map live_object live.now) number) offset) }
{
    match place(live, number) {
        None => Err(Access::Dead),
        Some(at) => read_at(live, at, offset),
    }
}

/// The cell at an offset of the object at a place.
#[inline(always)]
fn read_at(live: &[Object], at: usize, offset: u32) -> Result<Cell, Access>
    requires { at < length live.now }
    ensures { result ≡ unless_refused (read_refused (as_object (live_at (map live_object live.now) at)) offset)
        (cell_at (as_object (live_at (map live_object live.now) at)) offset) }
{
    let x = &live[at];
    read_cell(x.kind, &x.cells, offset)
}

/// Writes a cell of the object at a place.
#[inline(always)]
#[tactic(auto, using(crate::proofs::InMemory::written_map, crate::proofs::InMemory::kept_map))]
fn write_at(live: &mut Vec<Object>, at: usize, offset: u32, cell: Cell) -> Result<(), Access>
    requires { at < length live.old.items }
    ensures may { OnOk result (write_refused (as_object (live_at (map live_object live.old.items) at)) offset ≡ None) }
    ensures why { IfErr result (λ why. write_refused (as_object (live_at (map live_object live.old.items) at)) offset ≡ Some why) }
    ensures ok { OnOk result (map live_object live.new.items ≡ written_at at offset cell (map live_object live.old.items)) }
    ensures err { OnErr result (map live_object live.new.items ≡ map live_object live.old.items) }
{
    write_cell(&mut live[at], offset, cell)
}

/// Writes a cell of the object of a number.
#[inline(always)]
#[tactic(auto, using(crate::proofs::InMemory::write_due, crate::proofs::InMemory::written_here, crate::proofs::InMemory::write_ended))]
pub(crate) fn write(
    live: &mut Vec<Object>,
    number: u64,
    offset: u32,
    cell: Cell,
) -> Result<(), Access>
    requires rises { (next : ℕ) × Rises 0 next (map live_object live.old.items) }
    ensures may { OnOk result (write_refused (found (map live_object live.old.items) number) offset ≡ None) }
    ensures why { IfErr result (λ why. write_refused (found (map live_object live.old.items) number) offset ≡ Some why) }
    ensures ok { OnOk result (map live_object live.new.items ≡ live_written number offset cell (map live_object live.old.items)) }
    ensures err { OnErr result (map live_object live.new.items ≡ map live_object live.old.items) }
{
    match place(live, number) {
        None => Err(Access::Dead),
        Some(at) => write_at(live, at, offset, cell),
    }
}

/// Whether an object lives.
#[tactic(auto, using(crate::proofs::InMemory::lives_here, crate::proofs::InMemory::lives_ended))]
pub(crate) fn lives(live: &[Object], number: u64) -> bool
    requires rises { (next : ℕ) × Rises 0 next (map live_object live.now) }
    ensures { result ≡ (found (map live_object live.now) number).lives }
{
    place(live, number).is_some()
}

/// The cells of an object; none where it lives no more.
#[tactic(auto, using(crate::proofs::InMemory::cells_here, crate::proofs::InMemory::cells_ended))]
pub(crate) fn cells(live: &[Object], number: u64) -> &[Cell]
    requires rises { (next : ℕ) × Rises 0 next (map live_object live.now) }
    ensures { result.now ≡ (found (map live_object live.now) number).cells }
{
    match place(live, number) {
        None => &[],
        Some(at) => &live[at].cells,
    }
}

/// The number of cells of the object at a place.
fn extent_at(live: &[Object], at: usize) -> usize
    requires { at < length live.now }
    ensures { result ≡ extent (as_object (live_at (map live_object live.now) at)) }
{
    let x = &live[at];
    extent(x.kind, &x.cells)
}

/// Whether an object lives, and a cell of it stands at that offset.
#[tactic(auto, using(crate::proofs::InMemory::inside_here, crate::proofs::InMemory::inside_ended))]
pub(crate) fn is_inside(live: &[Object], number: u64, offset: u32) -> bool
    requires rises { (next : ℕ) × Rises 0 next (map live_object live.now) }
    ensures { result ≡ ((found (map live_object live.now) number).lives && ltb offset (extent (found (map live_object live.now) number))) }
{
    match place(live, number) {
        None => false,
        Some(at) => (offset as usize) < extent_at(live, at),
    }
}

/// Whether an object lives, and a cell of it or its end stands at that offset.
#[tactic(auto, using(crate::proofs::InMemory::within_here, crate::proofs::InMemory::within_ended))]
pub(crate) fn is_within(live: &[Object], number: u64, offset: u32) -> bool
    requires rises { (next : ℕ) × Rises 0 next (map live_object live.now) }
    ensures { result ≡ ((found (map live_object live.now) number).lives && leb offset (extent (found (map live_object live.now) number))) }
{
    match place(live, number) {
        None => false,
        Some(at) => offset as usize <= extent_at(live, at),
    }
}
