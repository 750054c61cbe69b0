// Why a text is no list of tokens.

use kit_base::Failure;
use thiserror::Error;

/// Why the first place without a token has none: 10 for a byte that begins no token, 11 for a text or a
/// character without its end on the line or with a bad escape, 12 for a comment that is not closed, 13
/// for a number above 4,294,967,295, 14 for a number with a point. Lines count from 1, bytes from 0.
#[derive(Debug, Drop, Error)]
#[error("error {code} at line {line}, byte {byte}")]
pub struct LexFault {
    pub code: u32,
    pub line: u32,
    pub byte: u32,
}

/// Why a text is no list of tokens: its first fault, or want of memory.
pub type LexErr = Failure<LexFault>;
