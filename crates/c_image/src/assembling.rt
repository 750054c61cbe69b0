// Items to words.
ghost use Rattle.std.specs.Prelude.{◌≡◌, ◌≤◌, None, Ok, IfOk, length};
ghost use Rattle.asm_items.specs.Written.{written};
ghost use Rattle.asm_reader.specs.Readable.{AreReadable};
ghost use Rattle.asm_reader.specs.Reading.{read};
ghost use Rattle.assembler.specs.Faults.{fault_of};
ghost use Rattle.assembler.specs.Placed.{Placed};

use asm_items::AsmItem;
use asm_reader::AsmErr;
use assembler::{Placement, assemble};
use kit_base::Memory;
use std::alloc::Global;

/// The words that items without a fault are placed as. Their written form reads as them again. The error is want of memory.
#[tactic(auto, using(asm_reader::proofs::AgainLaws::written_again))]
pub fn assemble_items(alloc: Global, items: &[AsmItem]) -> Result<Placement, Memory>
    requires readable { AreReadable items.now }
    requires faultless { fault_of items.now ≡ None }
    ensures read { IfOk result (λ p. read (written items.now) ≡ Ok items.now) }
    ensures placed { IfOk result (λ p. Placed items.now p.words p.labels) }
    ensures few { IfOk result (λ p. length p.words ≤ 33554432) }
{
    match assemble(alloc, items) {
        Ok(placement) => Ok(placement),
        Err(AsmErr::Cause(_)) => unreachable!(),
        Err(AsmErr::Memory) => Err(Memory),
    }
}
