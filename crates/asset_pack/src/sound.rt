// Sounds.
ghost use Rattle.std.specs.Prelude.{◌≡◌, ◌≤◌, ◌++◌, length, IfOk, OnOk, OnErr, IfSome, IfNone, List, ℕ, Ok};
ghost use Rattle.kit_base.specs.Gives.{Gives};
ghost use Rattle.asset_pack.specs.Words.{AddsFront};
ghost use Rattle.asset_pack.specs.Texts.{HasSamples, IsSound, sound_text};
ghost use Rattle.asset_pack.specs.Reading.{words_at, words_in};

use crate::error::AssetErr;
use crate::front::file_fault;
use crate::kind::Kind;
use crate::words::{put_file, words_at};
use kit_base::{Memory, Seq};
use std::alloc::Global;
use std::marker::Model;

/// A sound of 1 to 33,554,432 samples. A sample is a word: left in its low 16 bits, right in its
/// high 16, both signed.
#[derive(Drop)]
pub struct Sound {
    samples: Seq<u32>,
}

impl Model for Sound {
    ghost use Rattle.std.specs.Prelude.{List, ℕ};
    ghost use Rattle.asset_pack.specs.Texts.{HasSamples};

    ghost Value = { List ℕ };

    ghost view = { λ s. s.samples };

    ghost invariant = { λ s. HasSamples s.samples };
}

impl Sound {
    /// The sound of these samples; `None` where there are not 1 to 33,554,432.
    pub fn new(samples: Vec<u32>) -> Option<Sound>
        ensures made { IfSome result (λ s. s ≡ samples.items) }
        ensures limits { IfSome result HasSamples }
        ensures none { IfNone result (HasSamples samples.items → ⊥) }
    {
        if samples.is_empty() || samples.len() > 33_554_432 {
            return None;
        }
        Some(Sound {
            samples: Seq::from_vec(samples),
        })
    }

    /// Its samples in their order.
    pub fn samples(&self) -> &[u32]
        ensures samples { result.now ≡ self.now }
        ensures limits { HasSamples self.now }
    {
        self.samples.as_slice()
    }
}

/// The sound at the front, and the bytes after it. The error is the first test that fails.
#[tactic(auto, using(crate::proofs::Fronts::sound_sized), unfolding(crate::specs::Reading::words_at))]
pub fn sound_front(alloc: Global, bytes: &[u8]) -> Result<(Sound, &[u8]), AssetErr>
    ensures { Gives (λ x. (x.0, x.1.now)) result (words_at Kind.Sound bytes.now) }
{
    let (samples, rest) = words_at(alloc, Kind::Sound, bytes)?;
    Ok((
        Sound {
            samples: Seq::from_vec(samples),
        },
        rest,
    ))
}

/// The sound that all of the bytes are.
#[tactic(auto, using(crate::proofs::Accepted::whole), unfolding(crate::specs::Reading::words_in, crate::specs::Reading::words_at))]
fn sound_in(alloc: Global, bytes: &[u8]) -> Result<Sound, AssetErr>
    ensures { Gives (λ s. s) result (words_in Kind.Sound bytes.now) }
{
    if let Some(e) = file_fault(Kind::Sound, bytes) {
        return Err(AssetErr::Cause(e));
    }
    let (sound, _) = sound_front(alloc, bytes)?;
    Ok(sound)
}

/// The sound of a file. The error is the first test that fails, or want of memory.
#[tactic(auto, using(crate::proofs::Found::sound_found, crate::proofs::Found::sound_only))]
pub fn read_sound(alloc: Global, bytes: &[u8]) -> Result<Sound, AssetErr>
    // What is read is spelled so, each byte of it.
    ensures found { IfOk result (λ s. IsSound s × (bytes.now ≡ sound_text s)) }
    // What is spelled so is read, unless memory runs out.
    ensures only { (samples : List ℕ) → IsSound samples → bytes.now ≡ sound_text samples → Gives (λ s. s) result (Ok samples) }
    // The value by the places of its fields, where no test fails, else the first that fails.
    ensures exact { Gives (λ s. s) result (words_in Kind.Sound bytes.now) }
{
    sound_in(alloc, bytes)
}

/// Adds the file of the sound.
#[tactic(auto, unfolding(crate::specs::Texts::sound_text))]
pub fn put_sound(out: &mut Vec<u8>, s: &Sound) -> Result<(), Memory>
    ensures text { OnOk result (out.new.items ≡ out.old.items ++ sound_text s.now) }
    ensures refused { OnErr result (AddsFront out.old.items (sound_text s.now) out.new.items) }
    ensures fits { IsSound s.now }
{
    put_file(out, b"V32-VSND", &[s.samples().len() as u32], s.samples())
}

/// The file of the sound. The error is want of memory.
pub fn write_sound(alloc: Global, s: &Sound) -> Result<Vec<u8>, Memory>
    ensures text { IfOk result (λ v. v.items ≡ sound_text s.now) }
    ensures fits { IfOk result (λ _. IsSound s.now) }
{
    let mut out = Vec::with_capacity(alloc, 12 + 4 * s.samples().len())?;
    put_sound(&mut out, s)?;
    Ok(out)
}
