// Why a file of words was refused.
use kit_base::Failure;
use thiserror::Error;

/// The first test that a words file, a texture or a sound fails. The codes are 70 for another
/// signature, 71 for a file that is cut off, 72 for a size out of range, 73 for bytes after the last
/// word.
#[derive(Debug, Drop, Error)]
#[error("bad data {code}")]
pub struct AssetFault {
    pub code: u32,
}

/// Why a words file, a texture or a sound was refused: the first test that fails, or want of memory.
pub type AssetErr = Failure<AssetFault>;
