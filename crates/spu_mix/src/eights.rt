// Eight samples or sums at once.
ghost use Rattle.std.specs.Prelude.{◌≡◌, ℕ, ◌<◌, slice_index};
ghost use Rattle.spu_mix.specs.Sides.{raised_left, raised_right, mixed_word, clamped};

use std::simd::prelude::*;
use word_lanes::{differences, lesser, lower_halves, raised, same, sums, upper_halves};

/// The left sides of samples.
#[inline(always)]
pub(crate) fn left_sides(samples: u32x8) -> u32x8
    ensures each { (j : ℕ) → j < 8 → slice_index result j ≡ raised_left (slice_index samples j) }
{
    lower_halves(sums(samples, same(32768)))
}

/// The right sides of samples.
#[inline(always)]
pub(crate) fn right_sides(samples: u32x8) -> u32x8
    ensures each { (j : ℕ) → j < 8 → slice_index result j ≡ raised_right (slice_index samples j) }
{
    lower_halves(sums(upper_halves(samples), same(32768)))
}

/// Sums of one side, clamped to 16 bits.
#[inline(always)]
fn clamped_sums(side: u32x8) -> u32x8
    ensures each { (j : ℕ) → j < 8 → slice_index result j ≡ clamped (slice_index side j) }
{
    let above = differences(side, lesser(side, same(491_520)));
    lower_halves(sums(lesser(same(65535), above), same(32768)))
}

/// The words of the sums of both sides.
#[inline(always)]
pub(crate) fn mixed_words(left: u32x8, right: u32x8) -> u32x8
    ensures each { (j : ℕ) → j < 8 → slice_index result j ≡ mixed_word (slice_index left j) (slice_index right j) }
{
    sums(clamped_sums(left), raised(clamped_sums(right)))
}
