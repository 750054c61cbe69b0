// The cells that a run keeps.
ghost use Rattle.std.specs.Prelude.{◌≡◌, ◌++◌, ◌∷◌, [], IfOk, min, take, map, length};
ghost use Rattle.obj_mem.specs.Objects.{object_at};
ghost use Rattle.obj_mem.specs.Runs.{global_cells};
ghost use Rattle.obj_mem.specs.View.{objects};

use kit_base::{Memory, Seq};
use obj_mem::{Cell, Objects};
use std::alloc::Global;

/// The cells of an object.
pub(crate) fn cells_of(alloc: Global, os: &Objects, object: u64) -> Result<Seq<Cell>, Memory>
    ensures { IfOk result (λ v. v ≡ (object_at (objects os.now) object).cells) }
{
    Ok(Seq::from_vec(Vec::from_slice(alloc, os.cells(object))?))
}

/// The cells of the first objects.
#[tactic(auto, using(crate::proofs::Ends::one_more, crate::proofs::Ends::all_kept))]
pub(crate) fn globals_of(
    alloc: Global,
    os: &Objects,
    count: usize,
) -> Result<Seq<Seq<Cell>>, Memory>
    ensures { IfOk result (λ v. v ≡ global_cells count (objects os.now)) }
{
    let some = std::cmp::min(count as u64, os.count());
    let mut all = Vec::new(alloc);
    'objects: for k in 0..some {
        all.push(cells_of(alloc, os, k)?)?;
    }
    Ok(Seq::from_vec(all))
}
