// Memory cards: 262,144 words, and nothing else.
ghost use Rattle.std.specs.Prelude.{◌≡◌, ◌≤◌, ◌^◌, ◌<◌, length};
ghost use Rattle.run_files.specs.Card.{ReadsCard};

use asset_pack::words_of;
use std::alloc::Global;
use thiserror::Error;

/// Why a card was refused: 110 for another length than 1,048,576 bytes, or want of memory.
#[derive(Clone, Copy, Debug, PartialEq, Eq, Error)]
pub enum CardErr {
    #[error("bad data {code}")]
    At { code: u32 },
    #[error("out of memory")]
    Memory,
}

const CARD_BYTES: usize = 1_048_576;

/// The 262,144 words of a card of 1,048,576 bytes.
pub fn read_card(alloc: Global, bytes: &[u8]) -> Result<Vec<u32>, CardErr>
    requires { length bytes.now ≤ 268435456 }
    ensures { ReadsCard result bytes.now }
{
    if bytes.len() != CARD_BYTES {
        return Err(CardErr::At { code: 110 });
    }
    match words_of(alloc, bytes, CARD_BYTES / 4) {
        Ok(words) => Ok(words),
        Err(_) => Err(CardErr::Memory),
    }
}
