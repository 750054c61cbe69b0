// Eight words of a slice.
ghost use Rattle.std.specs.Prelude.{◌≡◌, ℕ, ◌≤◌, ◌<◌, ◌+◌, ◌⊎◌, length, slice_index};

use std::simd::prelude::*;

/// The eight words from a place on.
#[inline(always)]
pub fn load(words: &[u32], at: usize) -> u32x8
    requires room { at + 8 ≤ length words.now }
    ensures each { (j : ℕ) → j < 8 → slice_index result j ≡ slice_index words.now (at + j) }
{
    u32x8::from_slice(&words[at..])
}

/// Writes eight words from a place on.
#[inline(always)]
pub fn store(words: &mut [u32], at: usize, eight: u32x8)
    requires room { at + 8 ≤ length words.old }
    ensures each { (j : ℕ) → j < 8 → slice_index words.new (at + j) ≡ slice_index eight j }
    ensures outside { (k : ℕ) → (k < at) ⊎ (at + 8 ≤ k) → slice_index words.new k ≡ slice_index words.old k }
{
    eight.copy_to_slice(&mut words[at..]);
}
