// Sections one directly after the other.
ghost use Rattle.std.specs.Prelude.{◌≡◌, ◌≤◌, ◌<◌, ◌+◌, ◌^◌, List, ℕ, Result, length};
ghost use Rattle.kit_base.specs.Gives.{Gives};
ghost use Rattle.cart_format.specs.declared.error.CartFault.{CartFault};
ghost use Rattle.cart_format.specs.Reading.{in_section, program_at, many, texture_section, sound_section};

use crate::error::{CartErr, CartFault};
use asset_pack::{AssetErr, Sound, Texture, sound_front, texture_front, words_front};
use kit_base::Seq;
use std::alloc::Global;

/// What stands in a row of such items, one directly after the other.
pub(crate) trait Part: Drop {
    /// The item of that index at the front, and the bytes after it.
    ghost at: { ℕ → List ℕ → Result (Self × List ℕ) CartFault };

    fn at(alloc: Global, index: u32, bytes: &[u8]) -> Result<(Self, &[u8]), CartErr>
        ensures { Gives (λ x. (x.0, x.1.now)) result (at index bytes.now) };
}

/// The error of a section is its index.
fn in_section(index: u32, e: AssetErr) -> CartErr
    ensures { result ≡ in_section index e }
{
    match e {
        AssetErr::Memory => CartErr::Memory,
        AssetErr::Cause(_) => CartErr::Cause(CartFault::BadSection(index)),
    }
}

impl Part for Texture {
    ghost at = { texture_section };

    fn at(alloc: Global, index: u32, bytes: &[u8]) -> Result<(Texture, &[u8]), CartErr> {
        match texture_front(alloc, bytes) {
            Ok(found) => Ok(found),
            Err(e) => Err(in_section(index, e)),
        }
    }
}

impl Part for Sound {
    ghost at = { sound_section };

    fn at(alloc: Global, index: u32, bytes: &[u8]) -> Result<(Sound, &[u8]), CartErr> {
        match sound_front(alloc, bytes) {
            Ok(found) => Ok(found),
            Err(e) => Err(in_section(index, e)),
        }
    }
}

/// The words file that is section 0, of `words` words.
#[tactic(auto, unfolding(crate::specs::Reading::program_at))]
pub(crate) fn program_at(
    alloc: Global,
    words: u32,
    bytes: &[u8],
) -> Result<(Vec<u32>, &[u8]), CartErr>
    ensures { Gives (λ x. (x.0.items, x.1.now)) result (program_at words bytes.now) }
{
    match words_front(alloc, bytes) {
        Ok((program, rest)) => {
            if program.len() == words as usize {
                Ok((program, rest))
            } else {
                Err(CartErr::Cause(CartFault::BadSection(0)))
            }
        }
        Err(e) => Err(in_section(0, e)),
    }
}

/// So many items, of which the first has that index and the next one's is a step on.
pub(crate) fn many<X: Part>(
    alloc: Global,
    step: u32,
    index: u32,
    count: u32,
    bytes: &[u8],
) -> Result<(Seq<X>, &[u8]), CartErr>
    requires step { step ≤ 1 }
    requires indices { index + count < 2 ^ 32 }
    ensures { Gives (λ x. (x.0, x.1.now)) result (many X.at step index count bytes.now) }
{
    let mut items = Vec::new(alloc);
    let mut rest = bytes;
    let mut at = index;
    'each: for _ in 0..count {
        match X::at(alloc, at, rest) {
            Ok((item, after)) => {
                items.push(item)?;
                rest = after;
            }
            Err(e) => return Err(e),
        }
        at += step;
    }
    Ok((Seq::from_vec(items), rest))
}
