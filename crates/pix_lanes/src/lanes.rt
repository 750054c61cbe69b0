// What is done to each lane of a vector: sixteen lanes of 16 bits, and the words that they come from.
ghost use Rattle.std.specs.Prelude.{◌≡◌, ℕ, ◌≤◌, ◌<◌, ◌+◌, ◌-◌, ◌*◌, ◌/◌, ◌%◌, ◌^◌, min, slice_index};

use std::simd::prelude::*;

#[inline(always)]
pub fn sums(a: u16x16, b: u16x16) -> u16x16
    ensures each { (k : ℕ) → k < 16 → slice_index result k ≡ (slice_index a k + slice_index b k) % 65536 }
{
    a + b
}

/// One number in every lane.
#[inline(always)]
pub fn same(n: u16) -> u16x16
    ensures each { (k : ℕ) → k < 16 → slice_index result k ≡ n }
{
    u16x16::splat(n)
}

#[inline(always)]
pub fn products(a: u16x16, b: u16x16) -> u16x16
    ensures each { (k : ℕ) → k < 16 → slice_index result k ≡ slice_index a k * slice_index b k % 65536 }
{
    a * b
}

/// The lower byte of each lane.
#[inline(always)]
pub fn low_bytes(a: u16x16) -> u16x16
    ensures each { (k : ℕ) → k < 16 → slice_index result k ≡ slice_index a k % 256 }
{
    a & u16x16::splat(255)
}

/// The upper byte of each lane.
#[inline(always)]
pub fn high_bytes(a: u16x16) -> u16x16
    ensures each { (k : ℕ) → k < 16 → slice_index result k ≡ slice_index a k / 256 }
{
    a >> u16x16::splat(8)
}

/// Each lane times 256.
#[inline(always)]
pub fn raised(a: u16x16) -> u16x16
    ensures each { (k : ℕ) → k < 16 → slice_index result k ≡ slice_index a k * 256 % 65536 }
{
    a << u16x16::splat(8)
}

/// The lesser of two lanes.
#[inline(always)]
pub fn lesser(a: u16x16, b: u16x16) -> u16x16
    ensures each { (k : ℕ) → k < 16 → slice_index result k ≡ min (slice_index a k) (slice_index b k) }
{
    a.simd_min(b)
}

/// Each lane less another, which is not greater.
#[inline(always)]
pub fn differences(a: u16x16, b: u16x16) -> u16x16
    requires ordered { (k : ℕ) → k < 16 → slice_index b k ≤ slice_index a k }
    ensures each { (k : ℕ) → k < 16 → slice_index result k ≡ slice_index a k - slice_index b k }
{
    a - b
}

/// Each word without its highest byte.
#[inline(always)]
pub fn low_parts(w: u32x8) -> u32x8
    ensures each { (j : ℕ) → j < 8 → slice_index result j ≡ slice_index w j % 2 ^ 24 }
{
    w & u32x8::splat(0xFF_FFFF)
}

#[inline(always)]
fn bytes_of_words(w: u32x8) -> u8x32
    ensures each { (j i : ℕ) → j < 8 → i < 4 → slice_index result (4 * j + i) ≡ slice_index w j / 256 ^ i % 256 }
{
    w.to_le_bytes()
}

#[inline(always)]
fn bytes_of_halves(h: u16x16) -> u8x32
    ensures each { (k i : ℕ) → k < 16 → i < 2 → slice_index result (2 * k + i) ≡ slice_index h k / 256 ^ i % 256 }
{
    h.to_le_bytes()
}

#[inline(always)]
fn halves_of_bytes(b: u8x32) -> u16x16
    ensures each { (k : ℕ) → k < 16 → slice_index result k ≡ slice_index b (2 * k) + 256 * slice_index b (2 * k + 1) }
{
    u16x16::from_le_bytes(b)
}

#[inline(always)]
fn words_of_bytes(b: u8x32) -> u32x8
    ensures each { (j : ℕ) → j < 8 → slice_index result j
        ≡ slice_index b (4 * j) + 256 * (slice_index b (4 * j + 1) + 256 * (slice_index b (4 * j + 2) + 256 * slice_index b (4 * j + 3))) }
{
    u32x8::from_le_bytes(b)
}

/// The words' halves, the lower of each first.
#[inline(always)]
pub fn halves(w: u32x8) -> u16x16
    ensures lower { (j : ℕ) → j < 8 → slice_index result (2 * j) ≡ slice_index w j % 65536 }
    ensures upper { (j : ℕ) → j < 8 → slice_index result (2 * j + 1) ≡ slice_index w j / 65536 }
{
    halves_of_bytes(bytes_of_words(w))
}

/// The words of two halves each, the lower first.
#[inline(always)]
pub fn words(h: u16x16) -> u32x8
    ensures each { (j : ℕ) → j < 8 → slice_index result j ≡ slice_index h (2 * j) + 65536 * slice_index h (2 * j + 1) }
{
    words_of_bytes(bytes_of_halves(h))
}
