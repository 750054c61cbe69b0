// The objects of a call.
ghost use Rattle.std.specs.Prelude.{◌≡◌, IfOk, OnOk, OnErr, Some, length, set};
ghost use Rattle.obj_mem.specs.declared.cell.ObjectKind.TheVariants.{Local};
ghost use Rattle.obj_mem.specs.Objects.{made, unwritten};
ghost use Rattle.obj_mem.specs.Queries.{first_cell};
ghost use Rattle.obj_mem.specs.Stores.{local_object, end_local};
ghost use Rattle.obj_mem.specs.View.{objects};

use crate::cell::{Cell, ObjectKind};
use crate::objects::Objects;
use crate::refusal::Refusal;
use kit_base::Memory;
use std::alloc::Global;

/// The object of a local of the function that is called; none where it was not made.
#[inline(always)]
pub fn local_object(locals: &[Option<u64>], k: usize) -> Option<u64>
    ensures { result ≡ local_object locals.now k }
{
    match locals.get(k) {
        None => None,
        Some(at) => *at,
    }
}

/// A pointer to the first cell of a local. It strays where the local was not made.
#[inline(always)]
pub fn local_cell(locals: &[Option<u64>], k: usize) -> Result<Cell, Refusal>
    ensures { result ≡ first_cell (local_object locals.now k) }
{
    match local_object(locals, k) {
        None => Err(Refusal::Strays),
        Some(object) => Ok(Cell::Ptr { object, offset: 0 }),
    }
}

/// Makes an object of `words` unwritten cells, and answers its number. Nothing changes where there is no memory for it.
pub fn make_unwritten(alloc: Global, os: &mut Objects, words: u32) -> Result<u64, Memory>
    ensures number { IfOk result (λ number. number ≡ length (objects os.old)) }
    ensures ok { OnOk result (objects os.new ≡ made (objects os.old) Local (unwritten words)) }
    ensures err { OnErr result (objects os.new ≡ objects os.old) }
{
    let cells = Vec::from_elem(alloc, Cell::Unwritten, words as usize)?;
    os.make(ObjectKind::Local, cells)
}

/// Ends the object of a local; one that was not made is none.
pub fn end_local(os: &mut Objects, locals: &[Option<u64>], k: usize)
    ensures { objects os.new ≡ end_local (local_object locals.now k) (objects os.old) }
{
    if let Some(object) = local_object(locals, k) {
        os.end(object);
    }
}

fn set_local(locals: &mut Vec<Option<u64>>, k: usize, object: u64)
    ensures { locals.new.items ≡ set locals.old.items k (Some object) }
{
    if k < locals.len() {
        locals[k] = Some(object);
    }
}

/// Makes a local anew, of `words` unwritten cells; the object that it had ends, and stays ended where there is no memory for another.
pub fn fresh_local(
    alloc: Global,
    os: &mut Objects,
    locals: &mut Vec<Option<u64>>,
    k: usize,
    words: u32,
) -> Result<(), Memory>
    ensures made { OnOk result (objects os.new ≡ made (end_local (local_object locals.old.items k) (objects os.old)) Local (unwritten words)) }
    ensures local { OnOk result (locals.new.items ≡ set locals.old.items k (Some (length (objects os.old)))) }
{
    let object = os.count();
    end_local(os, locals, k);
    make_unwritten(alloc, os, words)?;
    set_local(locals, k, object);
    Ok(())
}
