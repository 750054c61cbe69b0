// Objects of cells.
ghost use Rattle.std.specs.Prelude.{map};
ghost use Rattle.obj_mem.specs.Living.{Rises};
ghost use Rattle.obj_mem.specs.LiveView.{live_object};
ghost use Rattle.obj_mem.specs.Rising.{rises_one};

use crate::access::Access;
use crate::cell::{Cell, ObjectKind};
use crate::live::{cells, cut_off, is_inside, is_within, lives, read, take_out, write};
use crate::object::Object;
use kit_base::Memory;
use std::alloc::Global;

/// The objects of a run, numbered from 0 in the order in which they are made. Those that live are kept, in that order, and the number of the
/// next.
#[derive(Drop)]
pub struct Objects {
    pub(crate) live: Vec<Object>,
    pub(crate) next: u64,
    ghost rising: { Rises 0 next (map live_object live.items) } by { rises_one 0 next (map live_object live.items) },
}

impl Objects {
    ghost use Rattle.std.specs.Prelude.{◌≡◌, [], IfErr, IfOk, OnErr, OnOk, length, Err, Ok};
    ghost use Rattle.obj_mem.specs.Objects.{ObjectT, cell_read, cell_written, end_from, end_object, made, object_at};
    ghost use Rattle.obj_mem.specs.Queries.{is_inside, is_within};
    ghost use Rattle.obj_mem.specs.View.{objects};

    /// No objects.
    #[tactic(auto, unfolding(crate::specs::View::objects))]
    pub fn new(alloc: Global) -> Objects
        ensures { objects result ≡ [] }
    {
        Objects {
            live: Vec::new(alloc),
            next: 0,
        }
    }

    /// The number of objects made so far, which is the number of the next.
    #[inline(always)]
    #[tactic(auto, using(crate::proofs::OnAll::all_count))]
    pub fn count(&self) -> u64
        ensures { result ≡ length (objects self.now) }
    {
        self.next
    }

    /// Makes an object of these cells, and answers its number, which is that of no other object ever. Nothing changes where there is no
    /// memory for it.
    #[inline(always)]
    #[tactic(auto, using(crate::proofs::OnAll::making))]
    pub fn make(&mut self, kind: ObjectKind, cells: Vec<Cell>) -> Result<u64, Memory>
        ensures number { IfOk result (λ number. number ≡ length (objects self.old)) }
        ensures ok { OnOk result (objects self.new ≡ made (objects self.old) kind cells.items) }
        ensures err { OnErr result (objects self.new ≡ objects self.old) }
    {
        let number = self.next;
        if number == u64::MAX {
            return Err(Memory);
        }
        self.live.push(Object {
            number,
            kind,
            cells,
        })?;
        self.next = number + 1;
        Ok(number)
    }

    /// Ends an object: it lives no more, and its cells are gone. One that has ended stays so, and a number that was not made is none.
    #[inline(always)]
    #[tactic(auto, using(crate::proofs::OnAll::rises, crate::proofs::OnAll::all_ended, crate::proofs::OnAll::still_without))]
    pub fn end(&mut self, object: u64)
        ensures { objects self.new ≡ end_object (objects self.old) object }
    {
        take_out(&mut self.live, object);
    }

    /// Ends all objects from a number on.
    #[inline(always)]
    #[tactic(auto, using(crate::proofs::OnAll::rises, crate::proofs::OnAll::all_cut, crate::proofs::OnAll::still_below))]
    pub fn end_from(&mut self, object: u64)
        ensures { objects self.new ≡ end_from object (objects self.old) }
    {
        cut_off(&mut self.live, object);
    }

    /// The cell at an offset of an object. In this order: `Dead` where it lives no more, or was not made; `NoCard` where it is a card object
    /// with no cells; `Outside` where the offset is not below its size.
    #[inline(always)]
    #[tactic(auto, using(crate::proofs::OnAll::rises, crate::proofs::OnAll::all_read))]
    pub fn read(&self, object: u64, offset: u32) -> Result<Cell, Access>
        ensures { result ≡ cell_read (objects self.now) object offset }
    {
        read(&self.live, object, offset)
    }

    /// Writes the cell at an offset of an object. It is refused as a read is, and then as `ReadOnly` where the object is a literal; a refused
    /// write changes nothing.
    #[inline(always)]
    #[tactic(auto, using(crate::proofs::OnAll::writing))]
    pub fn write(&mut self, object: u64, offset: u32, cell: Cell) -> Result<(), Access>
        ensures ok { OnOk result (cell_written (objects self.old) object offset cell ≡ Ok (objects self.new)) }
        ensures err { IfErr result (λ why. cell_written (objects self.old) object offset cell ≡ Err why) }
        ensures kept { OnErr result (objects self.new ≡ objects self.old) }
    {
        write(&mut self.live, object, offset, cell)
    }

    /// Whether an object lives.
    #[tactic(auto, using(crate::proofs::OnAll::rises, crate::proofs::OnAll::all_lives))]
    pub fn lives(&self, object: u64) -> bool
        ensures { result ≡ (object_at (objects self.now) object).lives }
    {
        lives(&self.live, object)
    }

    /// Whether an object lives, and a cell of it stands at that offset. A card has its cells also where none is connected.
    #[tactic(auto, using(crate::proofs::OnAll::rises, crate::proofs::OnAll::all_inside))]
    pub fn is_inside(&self, object: u64, offset: u32) -> bool
        ensures { result ≡ is_inside (objects self.now) object offset }
    {
        is_inside(&self.live, object, offset)
    }

    /// Whether an object lives, and a cell of it or its end stands at that offset.
    #[tactic(auto, using(crate::proofs::OnAll::rises, crate::proofs::OnAll::all_within))]
    pub fn is_within(&self, object: u64, offset: u32) -> bool
        ensures { result ≡ is_within (objects self.now) object offset }
    {
        is_within(&self.live, object, offset)
    }

    /// The cells of an object; none where it lives no more.
    #[tactic(auto, using(crate::proofs::OnAll::rises, crate::proofs::OnAll::all_cells))]
    pub fn cells(&self, object: u64) -> &[Cell]
        ensures { result.now ≡ (object_at (objects self.now) object).cells }
    {
        cells(&self.live, object)
    }
}
