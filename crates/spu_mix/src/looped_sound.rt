// A sound with its settings.
ghost use Rattle.std.specs.Prelude.{◌≡◌, ℕ, ◌<◌, ◌≤◌, ◌+◌, length, slice_index, option_copied};
ghost use Rattle.spu_mix.specs.Sounds.{first_sound, sound_told};
ghost use Rattle.spu_mix.specs.Channels.{assigned};
ghost use Rattle.spu_mix.specs.Positions.{position_after};
ghost use Rattle.spu_mix.specs.Sides.{left_at, right_at};

use crate::playing::play;
use asset_pack::Sound;
use std::marker::Model;

/// A sound, whether it is played with its loop, and the first and the last sample of the loop.
#[derive(Drop)]
pub(crate) struct LoopedSound {
    sound: Sound,
    plays_with_loop: bool,
    loop_start: u32,
    loop_end: u32,
}

impl Model for LoopedSound {
    ghost use Rattle.std.specs.Prelude.{◌≤◌, ◌<◌, length};
    ghost use Rattle.spu_mix.specs.Sounds.{SoundState};

    ghost Value = { SoundState };

    ghost view = { λ s. record { samples = s.sound; plays_with_loop = s.plays_with_loop; loop_start = s.loop_start; loop_end = s.loop_end } };

    ghost invariant = { λ s. (s.loop_start ≤ s.loop_end) × (s.loop_end < length s.sound) };
}

impl LoopedSound {
    /// The sound, whose loop is all of it.
    pub(crate) fn new(sound: Sound) -> LoopedSound
        ensures first { result ≡ first_sound sound }
    {
        let last = (sound.samples().len() - 1) as u32;
        LoopedSound {
            sound,
            plays_with_loop: false,
            loop_start: 0,
            loop_end: last,
        }
    }

    /// One of the ports of the selected sound is given a word.
    #[tactic(auto, unfolding(crate::specs::Sounds::sound_told))]
    pub(crate) fn out(&mut self, port: u32, word: u32)
        ensures told { self.new ≡ sound_told port word self.old }
    {
        match port {
            0x305 if word < 2 => self.plays_with_loop = word == 1,
            0x306 if word <= self.loop_end => self.loop_start = word,
            0x307 if self.loop_start <= word && (word as usize) < self.sound.samples().len() =>
                self.loop_end = word,
            _ => {}
        }
    }

    /// Whether it is played with its loop.
    pub(crate) fn plays_with_loop(&self) -> bool
        ensures value { result ≡ self.now.plays_with_loop }
    {
        self.plays_with_loop
    }

    /// The first sample of its loop.
    pub(crate) fn loop_start(&self) -> u32
        ensures value { result ≡ self.now.loop_start }
    {
        self.loop_start
    }

    /// The last sample of its loop.
    pub(crate) fn loop_end(&self) -> u32
        ensures value { result ≡ self.now.loop_end }
    {
        self.loop_end
    }

    /// The number of its samples.
    pub(crate) fn length(&self) -> u32
        ensures value { result ≡ length self.now.samples }
    {
        self.sound.samples().len() as u32
    }

    /// Adds what is played of it in a frame from a position on, and gives the position then, none
    /// where it has come to its end.
    pub(crate) fn play(
        &self,
        left: &mut [u32],
        right: &mut [u32],
        looping: bool,
        from: u32,
    ) -> Option<u32>
        requires lengths { (length left.old ≡ 735) × (length right.old ≡ 735) }
        requires small { (k : ℕ) → (slice_index left.old k < 1048576) × (slice_index right.old k < 1048576) }
        ensures position { result ≡ position_after looping self.now.loop_start self.now.loop_end (length self.now.samples) from 735 }
        ensures left { (k : ℕ) → k < 735 → slice_index left.new k ≡ slice_index left.old k + left_at self.now.samples
            (position_after looping self.now.loop_start self.now.loop_end (length self.now.samples) from k) }
        ensures right { (k : ℕ) → k < 735
            → slice_index right.new k ≡ slice_index right.old k + right_at self.now.samples
            (position_after looping self.now.loop_start self.now.loop_end (length self.now.samples) from k) }
    {
        play(
            left,
            right,
            self.sound.samples(),
            looping,
            self.loop_start,
            self.loop_end,
            from,
        )
    }
}

/// The sound that is assigned to a channel.
pub(crate) fn assigned(sounds: &[LoopedSound], sound: Option<u32>) -> Option<&LoopedSound>
    ensures sound { option_copied result ≡ assigned sounds.now sound }
{
    sounds.get(sound? as usize)
}
