// Why a line was refused.
ghost use Rattle.std.specs.Prelude.{◌≡◌};
ghost use Rattle.asm_reader.specs.Faults.{code_of};

use kit_base::Failure;

/// The classes of faulty lines.
#[derive(Clone, Copy, PartialEq, Eq, Debug, Drop)]
pub enum LineFault {
    BadLine,
    NoSuchForm,
    FloatInstruction,
    NumberTooLarge,
}

/// Why a line gives nothing: its fault, or want of memory.
pub type LineErr = Failure<LineFault>;

pub fn code_of(fault: LineFault) -> u32
    ensures { result ≡ code_of fault }
{
    match fault {
        LineFault::BadLine => 60,
        LineFault::NoSuchForm => 61,
        LineFault::FloatInstruction => 62,
        LineFault::NumberTooLarge => 63,
    }
}
