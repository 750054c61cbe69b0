// One object that lives, and access to its cells.
ghost use Rattle.std.specs.Prelude.{◌≡◌, ◌<◌, IfNone, None, Some, IfErr, OnErr, OnOk, length, set};
ghost use Rattle.obj_mem.specs.Living.{as_object};
ghost use Rattle.obj_mem.specs.LiveView.{live_object};
ghost use Rattle.obj_mem.specs.Objects.{object, cell_at, extent, is_card, is_literal, is_missing_card, read_refused, unless_refused, write_refused};

use crate::access::Access;
use crate::cell::{CARD_WORDS, Cell, ObjectKind};

/// An object that lives, and its number.
#[derive(Drop)]
pub(crate) struct Object {
    pub(crate) number: u64,
    pub(crate) kind: ObjectKind,
    pub(crate) cells: Vec<Cell>,
}

#[inline(always)]
fn is_card(kind: ObjectKind) -> bool
    ensures { result ≡ is_card kind }
{
    match kind {
        ObjectKind::Card => true,
        ObjectKind::Global | ObjectKind::Local | ObjectKind::Literal => false,
    }
}

#[inline(always)]
fn is_literal(kind: ObjectKind) -> bool
    ensures { result ≡ is_literal kind }
{
    match kind {
        ObjectKind::Literal => true,
        ObjectKind::Global | ObjectKind::Local | ObjectKind::Card => false,
    }
}

#[inline(always)]
fn is_missing_card(kind: ObjectKind, cells: &[Cell]) -> bool
    ensures { result ≡ is_missing_card kind cells.now }
{
    cells.is_empty() && is_card(kind)
}

/// The number of cells of an object that lives.
pub(crate) fn extent(kind: ObjectKind, cells: &[Cell]) -> usize
    ensures { result ≡ extent (object kind cells.now) }
{
    if is_card(kind) {
        CARD_WORDS
    } else {
        cells.len()
    }
}

/// Why a cell of an object that lives can't be read.
#[inline(always)]
fn read_refused(kind: ObjectKind, cells: &[Cell], offset: u32) -> Option<Access>
    ensures exact { result ≡ read_refused (object kind cells.now) offset }
    ensures within { IfNone result (offset < length cells.now) }
{
    if (offset as usize) < cells.len() {
        None
    } else if is_missing_card(kind, cells) {
        Some(Access::NoCard)
    } else {
        Some(Access::Outside)
    }
}

/// Why it can't be written.
#[inline(always)]
fn write_refused(kind: ObjectKind, cells: &[Cell], offset: u32) -> Option<Access>
    ensures exact { result ≡ write_refused (object kind cells.now) offset }
    ensures within { IfNone result (offset < length cells.now) }
{
    match read_refused(kind, cells, offset) {
        Some(why) => Some(why),
        None => {
            if is_literal(kind) {
                Some(Access::ReadOnly)
            } else {
                None
            }
        }
    }
}

/// The cell at an offset of an object that lives.
#[inline(always)]
pub(crate) fn read_cell(kind: ObjectKind, cells: &[Cell], offset: u32) -> Result<Cell, Access>
    ensures { result ≡ unless_refused (read_refused (object kind cells.now) offset) (cell_at (object kind cells.now) offset) }
{
    match read_refused(kind, cells, offset) {
        Some(why) => Err(why),
        None => Ok(cells[offset as usize]),
    }
}

/// Writes the cell at an offset of an object that lives.
#[inline(always)]
pub(crate) fn write_cell(x: &mut Object, offset: u32, cell: Cell) -> Result<(), Access>
    ensures may { OnOk result (write_refused (as_object (live_object x.old)) offset ≡ None) }
    ensures why { IfErr result (λ why. write_refused (as_object (live_object x.old)) offset ≡ Some why) }
    ensures ok { OnOk result (live_object x.new ≡ record (live_object x.old) { cells = set (live_object x.old).cells offset cell }) }
    ensures err { OnErr result (live_object x.new ≡ live_object x.old) }
{
    match write_refused(x.kind, &x.cells, offset) {
        Some(why) => Err(why),
        None => {
            x.cells[offset as usize] = cell;
            Ok(())
        }
    }
}
