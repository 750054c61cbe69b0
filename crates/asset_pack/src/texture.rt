// Textures.
ghost use Rattle.std.specs.Prelude.{◌≡◌, ◌≤◌, ◌+◌, ◌*◌, ◌++◌, length, IfOk, OnOk, OnErr, IfSome, IfNone, List, ℕ, Ok};
ghost use Rattle.kit_base.specs.Gives.{Gives};
ghost use Rattle.asset_pack.specs.Words.{AddsFront};
ghost use Rattle.asset_pack.specs.Texts.{Image, HasSides, IsTexture, texture_text};
ghost use Rattle.asset_pack.specs.Reading.{texture_at, texture_in};

use crate::error::AssetErr;
use crate::front::file_fault;
use crate::kind::Kind;
use crate::words::{put_file, word_at, words_at};
use kit_base::{Memory, Seq};
use std::alloc::Global;
use std::marker::Model;

/// A picture with sides of 1 to 1,024 pixels. A pixel is a word: red in its lowest byte, then green,
/// blue and alpha.
#[derive(Drop)]
pub struct Texture {
    width: u32,
    height: u32,
    pixels: Seq<u32>,
}

impl Model for Texture {
    ghost use Rattle.asset_pack.specs.Texts.{Image, HasSides};

    ghost Value = { Image };

    ghost view = { λ t. record { width = t.width; height = t.height; pixels = t.pixels } };

    ghost invariant = { λ t. HasSides (record { width = t.width; height = t.height; pixels = t.pixels }) };
}

impl Texture {
    /// The texture of these pixels, by rows; `None` where a side is not 1 to 1,024 or the pixels
    /// are not their product.
    pub fn new(width: u32, height: u32, pixels: Vec<u32>) -> Option<Texture>
        ensures made { IfSome result (λ t. t ≡ record { width = width; height = height; pixels = pixels.items }) }
        ensures limits { IfSome result HasSides }
        ensures none { IfNone result (HasSides (record { width = width; height = height; pixels = pixels.items }) → ⊥) }
    {
        if width < 1 || width > 1024 || height < 1 || height > 1024 {
            return None;
        }
        if pixels.len() != width as usize * height as usize {
            return None;
        }
        Some(Texture {
            width,
            height,
            pixels: Seq::from_vec(pixels),
        })
    }

    /// Its width in pixels.
    pub fn width(&self) -> u32
        ensures width { result ≡ self.now.width }
        ensures limits { HasSides self.now }
    {
        self.width
    }

    /// Its height in pixels.
    pub fn height(&self) -> u32
        ensures height { result ≡ self.now.height }
        ensures limits { HasSides self.now }
    {
        self.height
    }

    /// Its pixels, by rows.
    pub fn pixels(&self) -> &[u32]
        ensures pixels { result.now ≡ self.now.pixels }
        ensures limits { HasSides self.now }
    {
        self.pixels.as_slice()
    }
}

/// The texture at the front, and the bytes after it. The error is the first test that fails.
#[tactic(auto, using(crate::proofs::Fronts::textures), unfolding(crate::specs::Reading::texture_at, crate::specs::Reading::words_at))]
pub fn texture_front(alloc: Global, bytes: &[u8]) -> Result<(Texture, &[u8]), AssetErr>
    ensures { Gives (λ x. (x.0, x.1.now)) result (texture_at bytes.now) }
{
    let (pixels, rest) = words_at(alloc, Kind::Texture, bytes)?;
    let width = word_at(bytes, 8);
    let height = word_at(bytes, 12);
    Ok((
        Texture {
            width,
            height,
            pixels: Seq::from_vec(pixels),
        },
        rest,
    ))
}

/// The texture that all of the bytes are.
#[tactic(auto, using(crate::proofs::Accepted::whole), unfolding(crate::specs::Reading::texture_in, crate::specs::Reading::texture_at))]
fn texture_in(alloc: Global, bytes: &[u8]) -> Result<Texture, AssetErr>
    ensures { Gives (λ t. t) result (texture_in bytes.now) }
{
    if let Some(e) = file_fault(Kind::Texture, bytes) {
        return Err(AssetErr::Cause(e));
    }
    let (texture, _) = texture_front(alloc, bytes)?;
    Ok(texture)
}

/// The texture of a file. The error is the first test that fails, or want of memory.
#[tactic(auto, using(crate::proofs::Found::texture_found, crate::proofs::Found::texture_only))]
pub fn read_texture(alloc: Global, bytes: &[u8]) -> Result<Texture, AssetErr>
    // What is read is spelled so, each byte of it.
    ensures found { IfOk result (λ t. IsTexture t × (bytes.now ≡ texture_text t)) }
    // What is spelled so is read, unless memory runs out.
    ensures only { (t : Image) → IsTexture t → bytes.now ≡ texture_text t → Gives (λ t. t) result (Ok t) }
    // The value by the places of its fields, where no test fails, else the first that fails.
    ensures exact { Gives (λ t. t) result (texture_in bytes.now) }
{
    texture_in(alloc, bytes)
}

/// Adds the file of the texture.
#[tactic(auto, unfolding(crate::specs::Texts::texture_text))]
pub fn put_texture(out: &mut Vec<u8>, t: &Texture) -> Result<(), Memory>
    ensures text { OnOk result (out.new.items ≡ out.old.items ++ texture_text t.now) }
    ensures refused { OnErr result (AddsFront out.old.items (texture_text t.now) out.new.items) }
    ensures fits { IsTexture t.now }
{
    put_file(out, b"V32-VTEX", &[t.width(), t.height()], t.pixels())
}

/// The file of the texture. The error is want of memory.
pub fn write_texture(alloc: Global, t: &Texture) -> Result<Vec<u8>, Memory>
    ensures text { IfOk result (λ v. v.items ≡ texture_text t.now) }
    ensures fits { IfOk result (λ _. IsTexture t.now) }
{
    let mut out = Vec::with_capacity(alloc, 16 + 4 * t.pixels().len())?;
    put_texture(&mut out, t)?;
    Ok(out)
}
