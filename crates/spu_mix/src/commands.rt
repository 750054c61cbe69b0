// What a word at a port does to the sounds and the channels.
ghost use Rattle.std.specs.Prelude.{◌≡◌, map};
ghost use Rattle.spu_mix.specs.Sounds.{sound_told};
ghost use Rattle.spu_mix.specs.Channels.{assigned, start_over, play, pause, resume, stop, commanded, commanded_all, is_for_all, assign, place};
ghost use Rattle.spu_mix.specs.Channels.{channel_told, changed_at, channels_told};

use crate::channel::{Channel, ChannelState};
use crate::looped_sound::{LoopedSound, assigned};

/// A channel that plays its sound from the first sample, where one is assigned.
fn started(sounds: &[LoopedSound], channel: Channel) -> Channel
    ensures value { result ≡ start_over (assigned sounds.now channel.sound) channel }
{
    let Some(sound) = assigned(sounds, channel.sound) else {
        return channel;
    };
    Channel {
        state: ChannelState::Playing,
        looping: sound.plays_with_loop(),
        position: 0,
        ..channel
    }
}

#[tactic(auto, unfolding(crate::specs::Channels::play))]
fn play(sounds: &[LoopedSound], channel: Channel) -> Channel
    ensures value { result ≡ play sounds.now channel }
{
    match channel.state {
        ChannelState::Paused => Channel {
            state: ChannelState::Playing,
            ..channel
        },
        ChannelState::Stopped | ChannelState::Playing => started(sounds, channel),
    }
}

#[tactic(auto, unfolding(crate::specs::Channels::pause))]
fn pause(channel: Channel) -> Channel
    ensures value { result ≡ pause channel }
{
    match channel.state {
        ChannelState::Playing => Channel {
            state: ChannelState::Paused,
            ..channel
        },
        ChannelState::Stopped | ChannelState::Paused => channel,
    }
}

#[tactic(auto, unfolding(crate::specs::Channels::resume))]
fn resume(channel: Channel) -> Channel
    ensures value { result ≡ resume channel }
{
    match channel.state {
        ChannelState::Paused => Channel {
            state: ChannelState::Playing,
            ..channel
        },
        ChannelState::Stopped | ChannelState::Playing => channel,
    }
}

#[tactic(auto, unfolding(crate::specs::Channels::stop))]
fn stop(channel: Channel) -> Channel
    ensures value { result ≡ stop channel }
{
    Channel {
        state: ChannelState::Stopped,
        position: 0,
        ..channel
    }
}

/// A command on the selected channel.
#[tactic(auto, unfolding(crate::specs::Channels::commanded))]
fn commanded(sounds: &[LoopedSound], word: u32, channel: Channel) -> Channel
    ensures value { result ≡ commanded sounds.now word channel }
{
    match word {
        0x30 => play(sounds, channel),
        0x31 => pause(channel),
        0x32 => stop(channel),
        _ => channel,
    }
}

/// A command on all channels.
#[tactic(auto, unfolding(crate::specs::Channels::commanded_all))]
fn commanded_all(word: u32, channel: Channel) -> Channel
    ensures value { result ≡ commanded_all word channel }
{
    match word {
        0x33 => pause(channel),
        0x34 => resume(channel),
        0x35 => stop(channel),
        _ => channel,
    }
}

/// The channel with another sound, while it is stopped.
#[tactic(auto, unfolding(crate::specs::Channels::assign))]
fn assign(sounds: &[LoopedSound], word: u32, channel: Channel) -> Channel
    ensures value { result ≡ assign sounds.now word channel }
{
    match channel.state {
        ChannelState::Stopped if (word as usize) < sounds.len() => Channel {
            sound: Some(word),
            position: 0,
            ..channel
        },
        _ => channel,
    }
}

/// The channel at another position of its sound.
#[tactic(auto, unfolding(crate::specs::Channels::place))]
fn place_at(sounds: &[LoopedSound], word: u32, channel: Channel) -> Channel
    ensures value { result ≡ place sounds.now word channel }
{
    let Some(sound) = assigned(sounds, channel.sound) else {
        return channel;
    };
    if word >= sound.length() {
        return channel;
    }
    Channel {
        position: word,
        ..channel
    }
}

/// The selected channel after a word.
#[tactic(auto, unfolding(crate::specs::Channels::channel_told))]
fn channel_told(sounds: &[LoopedSound], port: u32, word: u32, channel: Channel) -> Channel
    ensures value { result ≡ channel_told sounds.now port word channel }
{
    match port {
        0x300 => commanded(sounds, word, channel),
        0x309 => assign(sounds, word, channel),
        0x30C if word < 2 => Channel {
            looping: word == 1,
            ..channel
        },
        0x30D => place_at(sounds, word, channel),
        _ => channel,
    }
}

/// Does a command on all channels.
fn command_all(channels: &mut [Channel], word: u32)
    ensures all { channels.new ≡ map (commanded_all word) channels.old }
{
    for i in 0..channels.len() {
        channels[i] = commanded_all(word, channels[i]);
    }
}

/// Gives a word to the selected channel.
#[tactic(auto, using(crate::proofs::Changed::changed_at_set, crate::proofs::Changed::changed_at_past))]
fn tell_channel(
    channels: &mut [Channel],
    sounds: &[LoopedSound],
    selected: u32,
    port: u32,
    word: u32,
)
    ensures one { channels.new ≡ changed_at selected (channel_told sounds.now port word) channels.old }
{
    let at = selected as usize;
    if at < channels.len() {
        channels[at] = channel_told(sounds, port, word, channels[at]);
    }
}

/// Gives a word to the channels.
#[tactic(auto, unfolding(crate::specs::Channels::channels_told))]
pub(crate) fn tell_channels(
    channels: &mut [Channel],
    sounds: &[LoopedSound],
    selected: u32,
    port: u32,
    word: u32,
)
    ensures told { channels.new ≡ channels_told sounds.now selected port word channels.old }
{
    if sounds.is_empty() {
        return;
    }
    if port == 0x300 && 0x33 <= word && word <= 0x35 {
        command_all(channels, word);
    } else {
        tell_channel(channels, sounds, selected, port, word);
    }
}

/// Gives a word to the selected sound.
#[tactic(auto, using(crate::proofs::Changed::changed_at_set, crate::proofs::Changed::changed_at_past))]
pub(crate) fn tell_sounds(sounds: &mut [LoopedSound], selected: u32, port: u32, word: u32)
    ensures told { sounds.new ≡ changed_at selected (sound_told port word) sounds.old }
{
    let at = selected as usize;
    if at < sounds.len() {
        let sound = &mut sounds[at];
        sound.out(port, word);
    }
}
