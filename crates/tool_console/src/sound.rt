// Frames of sixteen looping channels, mixed.
ghost use Rattle.std.specs.Prelude.{◌<◌};

use crate::ports::tell_sound;
use asset_pack::Sound;
use spu_mix::Spu;
use std::alloc::Global;

const CHANNELS: u32 = 16;

/// The sample of that number of a channel's sound: some values on both sides.
fn sample(channel: u32, number: u32) -> u32 {
    number
        .wrapping_mul(0x9E37_79B1)
        .wrapping_add(channel.wrapping_mul(0x85EB_CA6B))
}

/// The sound of a channel, longer than that of the channel before; none for want of memory.
fn sound(alloc: Global, channel: u32) -> Option<Sound>
    requires channel { channel < 16 }
{
    let count = channel as usize * 100 + 1000;
    let mut samples = Vec::from_elem(alloc, 0u32, count).ok()?;
    for i in 0..samples.len() {
        samples[i] = sample(channel, i as u32);
    }
    Sound::new(samples)
}

/// The sounds of the channels.
fn sounds(alloc: Global) -> Option<Vec<Sound>> {
    let mut sounds = Vec::new(alloc);
    for channel in 0..CHANNELS {
        sounds.push(sound(alloc, channel)?).ok()?;
    }
    Some(sounds)
}

/// Begins the sound of a channel, with a loop of a length of its own.
fn begin(spu: &mut Spu, channel: u32)
    requires channel { channel < 16 }
{
    for (port, word) in [
        (0x302, channel),
        (0x305, 1),
        (0x306, channel * 10),
        (0x307, channel * 73 + 400),
        (0x303, channel),
        (0x309, channel),
        (0x300, 0x30),
    ] {
        tell_sound(spu, port, word);
    }
}

/// Mixes so many frames.
pub fn mixes(alloc: Global, times: u32) -> Option<Spu> {
    let mut spu = Spu::open(alloc, sounds(alloc)?).ok()?;
    for channel in 0..CHANNELS {
        begin(&mut spu, channel);
    }
    for _ in 0..times {
        spu.mix_frame();
    }
    Some(spu)
}
