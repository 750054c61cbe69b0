// The sums of the two sides.
ghost use Rattle.std.specs.Prelude.{◌≡◌, ℕ, ◌≤◌, ◌<◌, ◌+◌, ◌-◌, ◌*◌, ◌⊎◌, length, slice_index};
ghost use Rattle.spu_mix.specs.Sides.{raised_left, raised_right, mixed_word, clamped};

use crate::eights::{left_sides, mixed_words, right_sides};
use word_lanes::{load, store};

/// Adds eight samples to the sums of both sides, from a place of all three on.
#[inline(always)]
fn add_eight(left: &mut [u32], right: &mut [u32], samples: &[u32], at: usize)
    requires lengths { (length left.old ≡ length samples.now) × (length right.old ≡ length samples.now) }
    requires room { at + 8 ≤ length samples.now }
    requires small { (k : ℕ) → at ≤ k → (slice_index left.old k < 1048576) × (slice_index right.old k < 1048576) }
    ensures left { (k : ℕ) → at ≤ k → k < at + 8 → slice_index left.new k ≡ slice_index left.old k + raised_left (slice_index samples.now k) }
    ensures right { (k : ℕ) → at ≤ k → k < at + 8 → slice_index right.new k ≡ slice_index right.old k + raised_right (slice_index samples.now k) }
    ensures outside_left { (k : ℕ) → (k < at) ⊎ (at + 8 ≤ k) → slice_index left.new k ≡ slice_index left.old k }
    ensures outside_right { (k : ℕ) → (k < at) ⊎ (at + 8 ≤ k) → slice_index right.new k ≡ slice_index right.old k }
{
    let words = load(samples, at);
    let sums = word_lanes::sums(load(left, at), left_sides(words));
    store(left, at, sums);
    let sums = word_lanes::sums(load(right, at), right_sides(words));
    store(right, at, sums);
}

/// Adds the first samples to the sums of both sides, `count` eights of them.
#[inline(always)]
fn add_eights(left: &mut [u32], right: &mut [u32], samples: &[u32], count: usize)
    requires lengths { (length left.old ≡ length samples.now) × (length right.old ≡ length samples.now) }
    requires room { 8 * count ≤ length samples.now }
    requires small { (k : ℕ) → (slice_index left.old k < 1048576) × (slice_index right.old k < 1048576) }
    ensures left { (k : ℕ) → k < 8 * count → slice_index left.new k ≡ slice_index left.old k + raised_left (slice_index samples.now k) }
    ensures right { (k : ℕ) → k < 8 * count → slice_index right.new k ≡ slice_index right.old k + raised_right (slice_index samples.now k) }
    ensures rest { (k : ℕ) → 8 * count ≤ k → (slice_index left.new k ≡ slice_index left.old k) × (slice_index right.new k ≡ slice_index right.old k) }
{
    for i in 0..count {
        add_eight(left, right, samples, 8 * i);
    }
}

/// Adds the samples from a place on to the sums of both sides, one by one.
#[inline(always)]
fn add_rest(left: &mut [u32], right: &mut [u32], samples: &[u32], from: usize)
    requires lengths { (length left.old ≡ length samples.now) × (length right.old ≡ length samples.now) }
    requires small { (k : ℕ) → from ≤ k → (slice_index left.old k < 1048576) × (slice_index right.old k < 1048576) }
    ensures left { (k : ℕ) → from ≤ k → k < length samples.now → slice_index left.new k ≡ slice_index left.old k + raised_left (slice_index samples.now k) }
    ensures right { (k : ℕ) → from ≤ k → k < length samples.now
        → slice_index right.new k ≡ slice_index right.old k + raised_right (slice_index samples.now k) }
    ensures before { (k : ℕ) → k < from → (slice_index left.new k ≡ slice_index left.old k) × (slice_index right.new k ≡ slice_index right.old k) }
{
    for i in from..samples.len() {
        let word = samples[i];
        left[i] += (word % 65536 + 32768) % 65536;
        right[i] += (word / 65536 + 32768) % 65536;
    }
}

/// Adds samples to the sums of both sides.
fn add_samples(left: &mut [u32], right: &mut [u32], samples: &[u32])
    requires lengths { (length left.old ≡ length samples.now) × (length right.old ≡ length samples.now) }
    requires small { (k : ℕ) → (slice_index left.old k < 1048576) × (slice_index right.old k < 1048576) }
    ensures left { (k : ℕ) → k < length samples.now → slice_index left.new k ≡ slice_index left.old k + raised_left (slice_index samples.now k) }
    ensures right { (k : ℕ) → k < length samples.now → slice_index right.new k ≡ slice_index right.old k + raised_right (slice_index samples.now k) }
{
    let eights = samples.len() / 8;
    add_eights(left, right, samples, eights);
    add_rest(left, right, samples, 8 * eights);
}

/// Adds samples to the sums of both sides, from sum `at` on.
pub(crate) fn add_samples_at(left: &mut [u32], right: &mut [u32], at: usize, samples: &[u32])
    requires lengths { (at + length samples.now ≤ length left.old) × (length right.old ≡ length left.old) }
    requires small { (k : ℕ) → at ≤ k → (slice_index left.old k < 1048576) × (slice_index right.old k < 1048576) }
    ensures left { (k : ℕ) → at ≤ k → k < at + length samples.now
        → slice_index left.new k ≡ slice_index left.old k + raised_left (slice_index samples.now (k - at)) }
    ensures right { (k : ℕ) → at ≤ k → k < at + length samples.now
        → slice_index right.new k ≡ slice_index right.old k + raised_right (slice_index samples.now (k - at)) }
    ensures rest { (k : ℕ) → (k < at) ⊎ (at + length samples.now ≤ k) → (slice_index left.new k ≡ slice_index left.old k)
        × (slice_index right.new k ≡ slice_index right.old k) }
{
    let end = at + samples.len();
    add_samples(&mut left[at..end], &mut right[at..end], samples);
}

/// Adds silence to the sums of both sides, from sum `at` on.
pub(crate) fn add_silence_from(left: &mut [u32], right: &mut [u32], at: usize)
    requires lengths { length right.old ≡ length left.old }
    requires small { (k : ℕ) → at ≤ k → (slice_index left.old k < 1048576) × (slice_index right.old k < 1048576) }
    ensures silent { (k : ℕ) → at ≤ k → k < length left.old → (slice_index left.new k ≡ slice_index left.old k + 32768)
        × (slice_index right.new k ≡ slice_index right.old k + 32768) }
    ensures before { (k : ℕ) → k < at → (slice_index left.new k ≡ slice_index left.old k) × (slice_index right.new k ≡ slice_index right.old k) }
{
    for i in at..left.len() {
        left[i] += 32768;
        right[i] += 32768;
    }
}

/// Sets the sums of one side to 0.
pub(crate) fn clear_side(side: &mut [u32])
    ensures zero { (k : ℕ) → slice_index side.new k ≡ 0 }
{
    for i in 0..side.len() {
        side[i] = 0;
    }
}

/// The sum of one side, clamped to 16 bits.
fn clamp(sum: u32) -> u32
    ensures value { result ≡ clamped sum }
    ensures small { result < 65536 }
{
    (sum.saturating_sub(491_520).min(65535) + 32768) % 65536
}

/// The word of two sums.
fn mixed(left: u32, right: u32) -> u32
    ensures word { result ≡ mixed_word left right }
{
    clamp(left) + 65536 * clamp(right)
}

/// Writes the words of eight sums of both sides, from a place of all three on.
#[inline(always)]
fn mix_eight(samples: &mut [u32], left: &[u32], right: &[u32], at: usize)
    requires lengths { (length left.now ≡ length samples.old) × (length right.now ≡ length samples.old) }
    requires room { at + 8 ≤ length samples.old }
    ensures inside { (k : ℕ) → at ≤ k → k < at + 8 → slice_index samples.new k ≡ mixed_word (slice_index left.now k) (slice_index right.now k) }
    ensures outside { (k : ℕ) → (k < at) ⊎ (at + 8 ≤ k) → slice_index samples.new k ≡ slice_index samples.old k }
{
    let words = mixed_words(load(left, at), load(right, at));
    store(samples, at, words);
}

/// Writes the words of the first sums of both sides, `count` eights of them.
#[inline(always)]
fn mix_eights(samples: &mut [u32], left: &[u32], right: &[u32], count: usize)
    requires lengths { (length left.now ≡ length samples.old) × (length right.now ≡ length samples.old) }
    requires room { 8 * count ≤ length samples.old }
    ensures words { (k : ℕ) → k < 8 * count → slice_index samples.new k ≡ mixed_word (slice_index left.now k) (slice_index right.now k) }
{
    for i in 0..count {
        mix_eight(samples, left, right, 8 * i);
    }
}

/// Writes the words of the sums of both sides from a place on, one by one.
#[inline(always)]
fn mix_rest(samples: &mut [u32], left: &[u32], right: &[u32], from: usize)
    requires lengths { (length left.now ≡ length samples.old) × (length right.now ≡ length samples.old) }
    ensures words { (k : ℕ) → from ≤ k → k < length samples.old → slice_index samples.new k ≡ mixed_word (slice_index left.now k) (slice_index right.now k) }
    ensures before { (k : ℕ) → k < from → slice_index samples.new k ≡ slice_index samples.old k }
{
    for i in from..samples.len() {
        samples[i] = mixed(left[i], right[i]);
    }
}

/// Writes the words of the sums of both sides.
pub(crate) fn mix_sums(samples: &mut [u32], left: &[u32], right: &[u32])
    requires lengths { (length left.now ≡ length samples.old) × (length right.now ≡ length samples.old) }
    ensures words { (k : ℕ) → k < length samples.old → slice_index samples.new k ≡ mixed_word (slice_index left.now k) (slice_index right.now k) }
{
    let eights = samples.len() / 8;
    mix_eights(samples, left, right, eights);
    mix_rest(samples, left, right, 8 * eights);
}
