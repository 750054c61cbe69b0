// The script of no gamepads.
ghost use Rattle.std.specs.Prelude.{◌≡◌, IfOk};
ghost use Rattle.kit_core.specs.Plain.{plain_pads};

use kit_base::Memory;
use run_files::{Pads, PadsErr, read_pads};
use std::alloc::Global;

/// The script of the pads file `pads 0 0 0`. The error is want of memory.
pub fn plain_pads(alloc: Global) -> Result<Pads, Memory>
    ensures { IfOk result (λ p. p ≡ plain_pads) }
{
    match read_pads(alloc, b"pads 0 0 0\n") {
        Ok(pads) => Ok(pads),
        Err(PadsErr::Memory) => Err(Memory),
        Err(PadsErr::At { .. }) => unreachable!(),
    }
}
