// Reading and writing whole, over calls that take as much as they like.
ghost use Rattle.std.specs.Prelude.{◌≤◌, IfOk, length};

use kit_base::FileErr;
use std::alloc::Global;
use std::io::{ErrorKind, Read, Write};

/// The longest file that is read, in bytes.
const FILE_LIMIT: usize = 268_435_456;

/// The bytes that one call asks for.
const PIECE: usize = 65_536;

/// The rest of a file. A read of no byte is its end, and an interrupted one is tried again.
pub fn read_whole<F: Read>(alloc: Global, file: &mut F) -> Result<Vec<u8>, FileErr>
    ensures { IfOk result (λ v. length v.items ≤ 268435456) }
{
    let mut bytes = Vec::new(alloc);
    let Ok(mut piece) = vec![in alloc; 0u8; PIECE] else {
        return Err(FileErr::Memory);
    };
    for _ in 0..u64::MAX {
        let count = match file.read(&mut piece) {
            Ok(count) => count,
            Err(e) if e.kind() == ErrorKind::Interrupted => continue,
            Err(_) => return Err(FileErr::Failed),
        };
        if count == 0 {
            return Ok(bytes);
        }
        if count > FILE_LIMIT - bytes.len() {
            return Err(FileErr::TooLong);
        }
        if bytes.extend_from_slice(&piece[..count]).is_err() {
            return Err(FileErr::Memory);
        }
    }
    Err(FileErr::Failed)
}

/// Whether all of the piece was written. A write that takes no byte is an error, and an interrupted
/// one is tried again.
pub fn write_whole<W: Write>(file: &mut W, piece: &[u8]) -> bool {
    let mut rest = piece;
    for _ in 0..u64::MAX {
        if rest.is_empty() {
            return true;
        }
        match file.write(rest) {
            Ok(0) => return false,
            Ok(count) => rest = &rest[count..],
            Err(e) if e.kind() == ErrorKind::Interrupted => {}
            Err(_) => return false,
        }
    }
    false
}
