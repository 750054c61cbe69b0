// Rows of pixels.
ghost use Rattle.std.specs.Prelude.{◌≡◌, ℕ, ◌≤◌, ◌<◌, ◌+◌, ◌*◌, ◌⊎◌, length, slice_index, EachIndex};
ghost use Rattle.pix_lanes.specs.Pixels.{drawn};

use crate::blend::Blend;
use crate::eight::eight_pixels;
use crate::pixel::pixel;
use word_lanes::{load, store};

/// Draws eight texture points, from a place of both rows on.
#[inline(always)]
fn blend_eight(dst: &mut [u32], src: &[u32], at: usize, multiply: u32, mode: Blend)
    requires lengths { length dst.old ≡ length src.now }
    requires room { at + 8 ≤ length dst.old }
    ensures inside { (k : ℕ) → at ≤ k → k < at + 8 →
        slice_index dst.new k ≡ drawn mode multiply (slice_index src.now k) (slice_index dst.old k) }
    ensures outside { (k : ℕ) → (k < at) ⊎ (at + 8 ≤ k) → slice_index dst.new k ≡ slice_index dst.old k }
{
    let texture = load(src, at);
    let screen = load(dst, at);
    let drawn = eight_pixels(mode, multiply, texture, screen);
    store(dst, at, drawn);
}

/// Draws the first texture points of a row, `count` eights of them.
#[inline(always)]
fn blend_eights(dst: &mut [u32], src: &[u32], count: usize, multiply: u32, mode: Blend)
    requires lengths { length dst.old ≡ length src.now }
    requires room { 8 * count ≤ length dst.old }
    ensures inside { (k : ℕ) → k < 8 * count →
        slice_index dst.new k ≡ drawn mode multiply (slice_index src.now k) (slice_index dst.old k) }
    ensures outside { (k : ℕ) → 8 * count ≤ k → slice_index dst.new k ≡ slice_index dst.old k }
{
    for i in 0..count {
        blend_eight(dst, src, 8 * i, multiply, mode);
    }
}

/// Draws the texture points of a row from a place on, one by one.
#[inline(always)]
fn blend_rest(dst: &mut [u32], src: &[u32], from: usize, multiply: u32, mode: Blend)
    requires lengths { length dst.old ≡ length src.now }
    ensures inside { (k : ℕ) → from ≤ k → k < length dst.old →
        slice_index dst.new k ≡ drawn mode multiply (slice_index src.now k) (slice_index dst.old k) }
    ensures before { (k : ℕ) → k < from → slice_index dst.new k ≡ slice_index dst.old k }
{
    for i in from..dst.len() {
        dst[i] = pixel(mode, multiply, src[i], dst[i]);
    }
}

/// Draws a row of texture points on a row of the screen, point by point, each multiplied by the colour `multiply`.
pub fn blend_row(dst: &mut [u32], src: &[u32], multiply: u32, mode: Blend)
    requires lengths { length dst.old ≡ length src.now }
    ensures pixels { EachIndex dst.new (λ k. slice_index dst.new k ≡ drawn mode multiply (slice_index src.now k) (slice_index dst.old k)) }
{
    let eights = dst.len() / 8;
    blend_eights(dst, src, eights, multiply, mode);
    blend_rest(dst, src, 8 * eights, multiply, mode);
}

/// Writes one word over a row.
pub fn fill_row(dst: &mut [u32], word: u32)
    ensures words { EachIndex dst.new (λ k. slice_index dst.new k ≡ word) }
{
    dst.fill(word);
}

/// Copies a row over another.
pub fn copy_row(dst: &mut [u32], src: &[u32])
    requires lengths { length dst.old ≡ length src.now }
    ensures words { dst.new ≡ src.now }
{
    dst.copy_from_slice(src);
}
