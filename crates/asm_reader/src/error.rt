// Why assembly text, or its items, were refused.
use kit_base::Failure;
use thiserror::Error;

/// Why a text or its items were refused: the code of the first fault with its place, counted from 1. The place
/// is a line of the text for 60, a line that is not of the grammar, 61, an instruction that has no such form, 62,
/// a float instruction, and 63, a number out of range; it is an item's number for 64, a label that stands twice,
/// 65, an unknown label, and 66, more than 33,554,432 words.
#[derive(Debug, Drop, Error)]
#[error("fault {code} at {at}")]
pub struct AsmFault {
    pub code: u32,
    pub at: u64,
}

/// Why a text or its items give nothing: the first fault, or want of memory.
pub type AsmErr = Failure<AsmFault>;
