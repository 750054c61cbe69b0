// Why a cartridge was refused.
use kit_base::Failure;
use thiserror::Error;

/// The first test that a cartridge fails. The codes are 80 for another signature, 81 for a file that
/// is cut off, 82 for a header field out of range or sections that end before the total, 84 for bytes
/// after the total, 85 for over 268,435,456 bytes, 86 for an unknown revision. `BadSection`, whose
/// code is 83, has the index of the first section that is not of its grammar: 0 for the program, then
/// the textures, the sounds, the line table.
#[derive(Debug, Drop, Error)]
pub enum CartFault {
    #[error("bad data {code}")]
    At { code: u32 },
    #[error("bad data 83 in section {0}")]
    BadSection(u32),
}

/// Why a cartridge was refused: the first test that it fails, or want of memory.
pub type CartErr = Failure<CartFault>;
