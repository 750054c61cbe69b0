// Eight pixels at once. A vector of sixteen lanes holds two parts of each, red and blue or green and alpha, and every sum stays
// below 2^16.
ghost use Rattle.std.specs.Prelude.{◌≡◌, ℕ, ◌≤◌, ◌<◌, ◌+◌, ◌*◌, slice_index};
ghost use Rattle.pix_lanes.specs.inner.Lanes.{AreBytes, HasParts};
ghost use Rattle.pix_lanes.specs.Pixels.{alpha, blue, drawn, green, nearest_quotient, opaque, part_over, product, red};

use crate::blend::Blend;
use crate::lanes::{
    differences, halves, high_bytes, lesser, low_bytes, low_parts, products, raised, same, sums,
    words,
};
use std::simd::prelude::*;

/// n / 255, rounded to nearest.
#[inline(always)]
fn quotients(n: u16x16) -> u16x16
    requires range { (k : ℕ) → k < 16 → slice_index n k ≤ 65025 }
    ensures nearest { (k : ℕ) → k < 16 → slice_index result k ≡ nearest_quotient (slice_index n k) }
{
    let t = sums(n, same(128));
    high_bytes(sums(t, high_bytes(t)))
}

/// Red and blue.
#[inline(always)]
fn red_and_blue(w: u32x8) -> u16x16
    ensures parts { HasParts result w red blue }
    ensures bytes { AreBytes result }
{
    low_bytes(halves(w))
}

/// Green and alpha.
#[inline(always)]
fn green_and_alpha(w: u32x8) -> u16x16
    ensures parts { HasParts result w green alpha }
    ensures bytes { AreBytes result }
{
    high_bytes(halves(w))
}

/// The parts of colours, multiplied.
#[inline(always)]
fn multiplied(a: u16x16, b: u16x16) -> u16x16
    requires first { AreBytes a }
    requires second { AreBytes b }
    ensures product { (k : ℕ) → k < 16 → slice_index result k ≡ product (slice_index a k) (slice_index b k) }
    ensures bytes { AreBytes result }
{
    quotients(products(a, b))
}

/// The alpha of each pixel, in both of its lanes.
#[inline(always)]
fn alphas(rest: u16x16) -> u16x16
    requires bytes { AreBytes rest }
    ensures first { (j : ℕ) → j < 8 → slice_index result (2 * j) ≡ slice_index rest (2 * j + 1) }
    ensures second { (j : ℕ) → j < 8 → slice_index result (2 * j + 1) ≡ slice_index rest (2 * j + 1) }
    ensures bytes { AreBytes result }
{
    let alone = word_lanes::upper_halves(words(rest));
    halves(word_lanes::sums(alone, word_lanes::raised(alone)))
}

/// The parts of drawn colours, over those of the screen.
#[inline(always)]
fn over(mode: Blend, colour: u16x16, alpha: u16x16, screen: u16x16) -> u16x16
    requires colour { AreBytes colour }
    requires alpha { AreBytes alpha }
    requires screen { AreBytes screen }
    ensures part { (k : ℕ) → k < 16 → slice_index result k ≡ part_over mode (slice_index colour k) (slice_index alpha k) (slice_index screen k) }
    ensures bytes { AreBytes result }
{
    match mode {
        Blend::Alpha => mixed(colour, alpha, screen),
        Blend::Add => lesser(sums(screen, multiplied(colour, alpha)), same(255)),
        Blend::Subtract => {
            let drawn = multiplied(colour, alpha);
            differences(screen, lesser(screen, drawn))
        }
    }
}

#[inline(always)]
fn mixed(colour: u16x16, alpha: u16x16, screen: u16x16) -> u16x16
    requires colour { AreBytes colour }
    requires alpha { AreBytes alpha }
    requires screen { AreBytes screen }
    ensures part { (k : ℕ) → k < 16 → slice_index result k ≡ part_over Blend.Alpha (slice_index colour k) (slice_index alpha k) (slice_index screen k) }
{
    let rest = differences(same(255), alpha);
    quotients(sums(products(colour, alpha), products(screen, rest)))
}

/// Pixels of full alpha: of the second vector green alone counts.
#[inline(always)]
fn joined(first: u16x16, second: u16x16) -> u32x8
    requires first { AreBytes first }
    requires second { AreBytes second }
    ensures words { (j : ℕ) → j < 8 → slice_index result j
        ≡ opaque (slice_index first (2 * j)) (slice_index second (2 * j)) (slice_index first (2 * j + 1)) }
{
    let colours = low_parts(words(sums(first, raised(second))));
    word_lanes::sums(colours, word_lanes::same(0xFF00_0000))
}

/// Eight pixels of the screen after texture points were drawn on them.
#[inline(always)]
pub fn eight_pixels(mode: Blend, multiply: u32, texture: u32x8, screen: u32x8) -> u32x8
    ensures drawn { (j : ℕ) → j < 8 → slice_index result j ≡ drawn mode multiply (slice_index texture j) (slice_index screen j) }
{
    let multiply = word_lanes::same(multiply);
    let colours = multiplied(red_and_blue(texture), red_and_blue(multiply));
    let rest = multiplied(green_and_alpha(texture), green_and_alpha(multiply));
    let alpha = alphas(rest);
    let first = over(mode, colours, alpha, red_and_blue(screen));
    let second = over(mode, rest, alpha, green_and_alpha(screen));
    joined(first, second)
}
