// The channels through a frame.
ghost use Rattle.std.specs.Prelude.{◌≡◌, ℕ, ◌≤◌, ◌<◌, ◌+◌, length, slice_index, map, sum_by};
ghost use Rattle.spu_mix.specs.Mixing.{left_of, right_of, channel_after, sample_of, moved, is_playing};

use crate::channel::{Channel, ChannelState};
use crate::looped_sound::{LoopedSound, assigned};
use crate::sides::{add_silence_from, clear_side, mix_sums};

fn is_playing(state: ChannelState) -> bool
    ensures value { result ≡ is_playing state }
{
    match state {
        ChannelState::Playing => true,
        ChannelState::Stopped | ChannelState::Paused => false,
    }
}

/// A channel that has come to its sound's end.
fn ended(channel: Channel) -> Channel
    ensures value { result ≡ moved channel None }
{
    Channel {
        state: ChannelState::Stopped,
        position: 0,
        ..channel
    }
}

fn at_position(channel: Channel, position: u32) -> Channel
    ensures value { result ≡ moved channel (Some position) }
{
    Channel {
        position,
        ..channel
    }
}

/// Adds a channel's samples to the sums, and gives the channel after them.
#[tactic(auto, unfolding(crate::specs::Mixing::channel_position, crate::specs::Mixing::channel_after))]
fn add_channel(
    left: &mut [u32],
    right: &mut [u32],
    sounds: &[LoopedSound],
    channel: Channel,
) -> Channel
    requires lengths { (length left.old ≡ 735) × (length right.old ≡ 735) }
    requires small { (k : ℕ) → (slice_index left.old k < 1048576) × (slice_index right.old k < 1048576) }
    ensures left { (k : ℕ) → k < 735 → slice_index left.new k ≡ slice_index left.old k + left_of sounds.now k channel }
    ensures right { (k : ℕ) → k < 735 → slice_index right.new k ≡ slice_index right.old k + right_of sounds.now k channel }
    ensures after { result ≡ channel_after sounds.now 735 channel }
{
    if !is_playing(channel.state) {
        add_silence_from(left, right, 0);
        return channel;
    }
    let Some(sound) = assigned(sounds, channel.sound) else {
        add_silence_from(left, right, 0);
        return ended(channel);
    };
    match sound.play(left, right, channel.looping, channel.position) {
        Some(position) => at_position(channel, position),
        None => ended(channel),
    }
}

/// Adds the samples of all channels to the sums, and moves the channels on.
fn add_channels(
    left: &mut [u32],
    right: &mut [u32],
    sounds: &[LoopedSound],
    channels: &mut [Channel],
)
    requires lengths { (length left.old ≡ 735) × (length right.old ≡ 735) × (length channels.old ≤ 16) }
    requires zero { (k : ℕ) → (slice_index left.old k ≡ 0) × (slice_index right.old k ≡ 0) }
    ensures left { (k : ℕ) → k < 735 → slice_index left.new k ≡ sum_by (left_of sounds.now k) channels.old }
    ensures right { (k : ℕ) → k < 735 → slice_index right.new k ≡ sum_by (right_of sounds.now k) channels.old }
    ensures channels { channels.new ≡ map (channel_after sounds.now 735) channels.old }
{
    for i in 0..channels.len() {
        let channel = channels[i];
        channels[i] = add_channel(left, right, sounds, channel);
    }
}

/// Mixes the samples of a frame, and moves the channels on.
pub(crate) fn mix(sounds: &[LoopedSound], channels: &mut [Channel], samples: &mut [u32])
    requires lengths { (length samples.old ≡ 735) × (length channels.old ≤ 16) }
    ensures samples { (k : ℕ) → k < 735 → slice_index samples.new k ≡ sample_of sounds.now channels.old k }
    ensures channels { channels.new ≡ map (channel_after sounds.now 735) channels.old }
{
    let mut left = [0u32; 735];
    let mut right = [0u32; 735];
    clear_side(&mut left);
    clear_side(&mut right);
    add_channels(&mut left, &mut right, sounds, channels);
    mix_sums(samples, &left, &right);
}
