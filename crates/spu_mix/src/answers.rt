// What the ports answer.
ghost use Rattle.std.specs.Prelude.{◌≡◌, slice_get};
ghost use Rattle.std.specs.Option.{option_map_or};
ghost use Rattle.spu_mix.specs.Answers.{flag_word, state_word, assigned_word, sound_word, channel_word, answer_of};

use crate::channel::{Channel, ChannelState};
use crate::looped_sound::LoopedSound;

fn flag_word(flag: bool) -> u32
    ensures value { result ≡ flag_word flag }
{
    if flag { 1 } else { 0 }
}

fn state_word(state: ChannelState) -> u32
    ensures value { result ≡ state_word state }
{
    match state {
        ChannelState::Stopped => 0x40,
        ChannelState::Paused => 0x41,
        ChannelState::Playing => 0x42,
    }
}

fn assigned_word(sound: Option<u32>) -> u32
    ensures value { result ≡ assigned_word sound }
{
    match sound {
        None => 0xFFFF_FFFF,
        Some(number) => number,
    }
}

/// What a port of the selected sound answers.
#[tactic(auto, unfolding(crate::specs::Answers::sound_word))]
fn sound_word(port: u32, sound: &LoopedSound) -> u32
    ensures value { result ≡ sound_word port sound.now }
{
    match port {
        0x304 => sound.length(),
        0x305 => flag_word(sound.plays_with_loop()),
        0x306 => sound.loop_start(),
        0x307 => sound.loop_end(),
        _ => 0,
    }
}

/// What a port of the selected channel answers.
#[tactic(auto, unfolding(crate::specs::Answers::channel_word))]
fn channel_word(port: u32, channel: Channel) -> u32
    ensures value { result ≡ channel_word port channel }
{
    match port {
        0x308 => state_word(channel.state),
        0x309 => assigned_word(channel.sound),
        0x30C => flag_word(channel.looping),
        0x30D => channel.position,
        _ => 0,
    }
}

fn sound_answer(port: u32, sounds: &[LoopedSound], selected: u32) -> u32
    ensures value { result ≡ option_map_or (sound_word port) (slice_get sounds.now selected) 0 }
{
    match sounds.get(selected as usize) {
        Some(sound) => sound_word(port, sound),
        None => 0,
    }
}

fn channel_answer(port: u32, channels: &[Channel], selected: u32) -> u32
    ensures value { result ≡ option_map_or (channel_word port) (slice_get channels.now selected) 0 }
{
    match channels.get(selected as usize).copied() {
        Some(channel) => channel_word(port, channel),
        None => 0,
    }
}

/// What a port answers, over the sounds, the channels and what is selected.
#[tactic(auto, unfolding(crate::specs::Answers::answer_of))]
pub(crate) fn answer(
    sounds: &[LoopedSound],
    channels: &[Channel],
    sound: u32,
    channel: u32,
    port: u32,
) -> u32
    ensures value { result ≡ answer_of sounds.now channels.now sound channel port }
{
    if sounds.is_empty() {
        return 0;
    }
    match port {
        0x302 => sound,
        0x303 => channel,
        _ if port <= 0x307 => sound_answer(port, sounds, sound),
        _ => channel_answer(port, channels, channel),
    }
}
