// Why a command is refused, with the status and the line of each refusal.
ghost use Rattle.std.specs.Prelude.{◌≡◌, IfOk};
ghost use Rattle.kit_tools.specs.Refusal.{due_line, due_status, line_of, status_of};
ghost use Rattle.kit_tools.specs.Inputs.{no_cart, unread};
ghost use Rattle.kit_tools.specs.declared.refusal.DueRefusal.TheVariants.{Source, Bad};

use cart_format::CartFault;
use kit_base::{Failure, FileErr, Name, join_pieces};
use std::alloc::{AllocError, Global};

/// A refusal that the words or the files are due: the words are no form (1), the sources give no program (2), a file is missing (4), a file is
/// not of its grammar (6), a file that is read is too long, a number word is out of its range, or a cartridge would be too long (7). Lines count
/// from 1.
#[derive(Drop)]
pub enum DueRefusal {
    Usage,
    Source {
        code: u32,
        file: Name,
        line: u32,
    },
    Missing(Name),
    Bad {
        code: u32,
        name: Name,
        line: Option<u64>,
    },
    Limit(Name),
    OutOfRange(Name),
    LongCartridge,
}

/// Why a command is refused where memory is there: a refusal that is due, or a call of the files that failed, at the file of that name (5).
#[derive(Drop)]
pub enum RefusalCause {
    Due(DueRefusal),
    Failed(Name),
}

/// Why a command is refused: the cause, or want of memory (8).
pub type Refusal = Failure<RefusalCause>;

/// The refusal of a read of that file.
pub fn unread(name: Name, error: FileErr) -> Refusal
    ensures { result ≡ unread name error }
{
    match error {
        FileErr::Missing => Refusal::Cause(RefusalCause::Due(DueRefusal::Missing(name))),
        FileErr::Failed => Refusal::Cause(RefusalCause::Failed(name)),
        FileErr::TooLong => Refusal::Cause(RefusalCause::Due(DueRefusal::Limit(name))),
        FileErr::Memory => Refusal::Memory,
    }
}

/// The refusal of a file that is no cartridge.
pub fn no_cart(name: Name, fault: CartFault) -> Refusal
    ensures { result ≡ no_cart name fault }
{
    let code = match fault {
        CartFault::At { code } => code,
        CartFault::BadSection(_) => 83,
    };
    Refusal::Cause(RefusalCause::Due(DueRefusal::Bad {
        code,
        name,
        line: None,
    }))
}

/// The exit status of a refusal that is due.
fn due_status(refusal: &DueRefusal) -> u8
    ensures { result ≡ due_status refusal.now }
{
    match refusal {
        DueRefusal::Usage => 1,
        DueRefusal::Source { .. } => 2,
        DueRefusal::Missing(_) => 4,
        DueRefusal::Bad { .. } => 6,
        DueRefusal::Limit(_) | DueRefusal::OutOfRange(_) | DueRefusal::LongCartridge => 7,
    }
}

/// The exit status.
pub fn status_of(refusal: &Refusal) -> u8
    ensures { result ≡ status_of refusal.now }
{
    match refusal {
        Refusal::Cause(RefusalCause::Due(refusal)) => due_status(refusal),
        Refusal::Cause(RefusalCause::Failed(_)) => 5,
        Refusal::Memory => 8,
    }
}

fn source_line(alloc: Global, code: u32, file: &Name, line: u32) -> Result<Vec<u8>, AllocError>
    ensures { IfOk result (λ v. v.items ≡ due_line (Source code file.now line)) }
{
    let code = code.to_string(alloc)?;
    let line = line.to_string(alloc)?;
    join_pieces(
        alloc,
        &[
            b"error ",
            code.as_bytes(),
            b" at ",
            file.bytes(),
            b":",
            line.as_bytes(),
            b"\n",
        ],
    )
}

fn bad_line(alloc: Global, code: u32, name: &Name, line: Option<u64>) -> Result<Vec<u8>, AllocError>
    ensures { IfOk result (λ v. v.items ≡ due_line (Bad code name.now line)) }
{
    let code = code.to_string(alloc)?;
    let (code, name) = (code.as_bytes(), name.bytes());
    match line {
        None => join_pieces(alloc, &[b"bad data ", code, b" in ", name, b"\n"]),
        Some(line) => {
            let line = line.to_string(alloc)?;
            let line = line.as_bytes();
            join_pieces(
                alloc,
                &[b"bad data ", code, b" in ", name, b" at ", line, b"\n"],
            )
        }
    }
}

/// The line of a refusal that is due.
fn due_line(alloc: Global, refusal: &DueRefusal) -> Result<Vec<u8>, AllocError>
    ensures { IfOk result (λ v. v.items ≡ due_line refusal.now) }
{
    match refusal {
        DueRefusal::Usage => join_pieces(alloc, &[b"usage error", b"\n"]),
        DueRefusal::Source { code, file, line } => source_line(alloc, *code, file, *line),
        DueRefusal::Missing(name) => join_pieces(alloc, &[b"missing ", name.bytes(), b"\n"]),
        DueRefusal::Bad { code, name, line } => bad_line(alloc, *code, name, *line),
        DueRefusal::Limit(name) => join_pieces(alloc, &[b"limit ", name.bytes(), b"\n"]),
        DueRefusal::OutOfRange(word) => join_pieces(alloc, &[b"limit ", word.bytes(), b"\n"]),
        DueRefusal::LongCartridge => join_pieces(alloc, &[b"limit cartridge", b"\n"]),
    }
}

/// The line that is printed, with its LF.
pub fn line_of(alloc: Global, refusal: &Refusal) -> Result<Vec<u8>, AllocError>
    ensures { IfOk result (λ v. v.items ≡ line_of refusal.now) }
{
    match refusal {
        Refusal::Cause(RefusalCause::Due(refusal)) => due_line(alloc, refusal),
        Refusal::Cause(RefusalCause::Failed(name)) => join_pieces(
            alloc,
            &[b"file fault ", name.bytes(), b"\n"],
        ),
        Refusal::Memory => join_pieces(alloc, &[b"out of memory", b"\n"]),
    }
}
