// One sound through a frame.
ghost use Rattle.std.specs.Prelude.{◌≡◌, ℕ, ◌≤◌, ◌<◌, ◌+◌, true, false, length, slice_index};
ghost use Rattle.spu_mix.specs.Positions.{position_after};
ghost use Rattle.spu_mix.specs.Sides.{left_at, right_at};

use crate::sides::{add_samples_at, add_silence_from};

/// Where the run of samples from a position ends: after the loop's last, or after the sound's.
fn run_end(looping: bool, loop_end: usize, count: usize, position: usize) -> usize
    requires places { (loop_end < count) × (position < count) }
    ensures loops { looping ≡ true → position ≤ loop_end → result ≡ loop_end + 1 }
    ensures plain { (looping ≡ true → loop_end < position) → result ≡ count }
    ensures range { (position < result) × (result ≤ count) }
{
    if looping && position <= loop_end {
        loop_end + 1
    } else {
        count
    }
}

/// The position after a run from one position up to another.
fn after_run(looping: bool, loop_start: usize, loop_end: usize, from: usize, to: usize) -> usize
    ensures wraps { looping ≡ true → from ≤ loop_end → loop_end < to → result ≡ loop_start }
    ensures goes_on { (looping ≡ true → from ≤ loop_end → to ≤ loop_end) → result ≡ to }
{
    if looping && from <= loop_end && loop_end < to {
        loop_start
    } else {
        to
    }
}

/// Adds what is played of the samples in a frame from a position on, and gives the position then,
/// none where they have come to their end.
pub(crate) fn play(
    left: &mut [u32],
    right: &mut [u32],
    samples: &[u32],
    looping: bool,
    loop_start: u32,
    loop_end: u32,
    from: u32,
) -> Option<u32>
    requires lengths { (length left.old ≡ 735) × (length right.old ≡ 735) }
    requires small { (k : ℕ) → (slice_index left.old k < 1048576) × (slice_index right.old k < 1048576) }
    requires sound { (loop_start ≤ loop_end) × (loop_end < length samples.now) × (length samples.now ≤ 33554432) }
    ensures position { result ≡ position_after looping loop_start loop_end (length samples.now) from 735 }
    ensures left { (k : ℕ) → k < 735 → slice_index left.new k ≡ slice_index left.old k + left_at samples.now
        (position_after looping loop_start loop_end (length samples.now) from k) }
    ensures right { (k : ℕ) → k < 735 → slice_index right.new k ≡ slice_index right.old k + right_at samples.now
        (position_after looping loop_start loop_end (length samples.now) from k) }
{
    let mut position = from as usize;
    let mut done = 0;
    'runs: while done < 735 && position < samples.len() {
        let end = run_end(looping, loop_end as usize, samples.len(), position);
        let run = (end - position).min(735 - done);
        let to = position + run;
        add_samples_at(left, right, done, &samples[position..to]);
        done += run;
        position = after_run(
            looping,
            loop_start as usize,
            loop_end as usize,
            position,
            to,
        );
    }
    if position < samples.len() {
        return Some(position as u32);
    }
    add_silence_from(left, right, done);
    None
}
