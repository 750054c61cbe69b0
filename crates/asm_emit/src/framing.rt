// What makes frames and takes them away.
ghost use Rattle.std.specs.Prelude.{◌≡◌, ◌++◌, OnOk};
ghost use Rattle.asm_laws.specs.Framing.{frame_made, frame_gone};

use crate::hands::op;
use asm_items::AsmItem;
use either::Either;
use kit_base::Memory;
use v32_isa::{Instr, Plain, Reg, Src, Two};

/// Adds what makes a frame of `size` words, where it has any.
pub(crate) fn put_frame_made(out: &mut Vec<AsmItem>, size: u32) -> Result<(), Memory>
    ensures { OnOk result (out.new.items ≡ out.old.items ++ frame_made size) }
{
    if size == 0 {
        Ok(())
    } else {
        op(
            out,
            Instr::Two(Two::ISUB, Reg::at(15), Src::Imm(Either::Left(size))),
        )
    }
}

/// Adds what takes away a frame of `size` words, where it has any, and goes back.
pub(crate) fn put_frame_gone(out: &mut Vec<AsmItem>, size: u32) -> Result<(), Memory>
    ensures { OnOk result (out.new.items ≡ out.old.items ++ frame_gone size) }
{
    if size == 0 {
        op(out, Instr::Plain(Plain::RET))
    } else {
        op(
            out,
            Instr::Two(Two::IADD, Reg::at(15), Src::Imm(Either::Left(size))),
        )?;
        op(out, Instr::Plain(Plain::RET))
    }
}
