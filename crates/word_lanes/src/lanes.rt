// What is done to each of the eight 32-bit lanes of a vector.
ghost use Rattle.std.specs.Prelude.{◌≡◌, ℕ, ◌≤◌, ◌<◌, ◌+◌, ◌-◌, ◌*◌, ◌/◌, ◌%◌, ◌^◌, min, slice_index};

use std::simd::prelude::*;

/// One number in every lane.
#[inline(always)]
pub fn same(n: u32) -> u32x8
    ensures each { (j : ℕ) → j < 8 → slice_index result j ≡ n }
{
    u32x8::splat(n)
}

/// The sum of two lanes, modulo 2^32.
#[inline(always)]
pub fn sums(a: u32x8, b: u32x8) -> u32x8
    ensures each { (j : ℕ) → j < 8 → slice_index result j ≡ (slice_index a j + slice_index b j) % 2 ^ 32 }
{
    a + b
}

/// The lesser of two lanes.
#[inline(always)]
pub fn lesser(a: u32x8, b: u32x8) -> u32x8
    ensures each { (j : ℕ) → j < 8 → slice_index result j ≡ min (slice_index a j) (slice_index b j) }
{
    a.simd_min(b)
}

/// Each lane less another, which is not greater.
#[inline(always)]
pub fn differences(a: u32x8, b: u32x8) -> u32x8
    requires ordered { (j : ℕ) → j < 8 → slice_index b j ≤ slice_index a j }
    ensures each { (j : ℕ) → j < 8 → slice_index result j ≡ slice_index a j - slice_index b j }
{
    a - b
}

/// The lower half of each lane.
#[inline(always)]
pub fn lower_halves(a: u32x8) -> u32x8
    ensures each { (j : ℕ) → j < 8 → slice_index result j ≡ slice_index a j % 65536 }
{
    a & u32x8::splat(65535)
}

/// The upper half of each lane.
#[inline(always)]
pub fn upper_halves(a: u32x8) -> u32x8
    ensures each { (j : ℕ) → j < 8 → slice_index result j ≡ slice_index a j / 65536 }
{
    a >> u32x8::splat(16)
}

/// Each lane times 65,536, modulo 2^32.
#[inline(always)]
pub fn raised(a: u32x8) -> u32x8
    ensures each { (j : ℕ) → j < 8 → slice_index result j ≡ slice_index a j * 65536 % 2 ^ 32 }
{
    a << u32x8::splat(16)
}
