// The sound unit.
ghost use Rattle.std.specs.Prelude.{◌≡◌, ℕ, ◌<◌, ◌==◌, ◌&&◌, nat_lt, List, [], ◌∷◌, true, length, slice_index, map, IfOk, if◌then◌else◌};
ghost use Rattle.port_history.specs.Past.{Happening, Told, Mixed, is_sound_port};
ghost use Rattle.v32_isa.specs.Ports.{is_readable, is_writable};
ghost use Rattle.spu_mix.specs.Sounds.{first_sound, sound_told};
ghost use Rattle.spu_mix.specs.Channels.{changed_at, channels_told};
ghost use Rattle.spu_mix.specs.Settings.{last_sample};
ghost use Rattle.spu_mix.specs.Answers.{sound_answer};
ghost use Rattle.spu_mix.specs.Stands.{SoundStands};

use crate::answers::answer;
use crate::channel::{Channel, ChannelState};
use crate::commands::{tell_channels, tell_sounds};
use crate::looped_sound::LoopedSound;
use crate::mixing::mix;
use asset_pack::Sound;
use kit_base::Memory;
use std::alloc::Global;
use std::marker::Model;
use v32_isa::Port;

/// Sound: the cartridge's sounds with their settings, sixteen channels, the selected sound and the
/// selected channel, and the samples of the last frame.
#[derive(Drop)]
pub struct Spu {
    sounds: Vec<LoopedSound>,
    channels: [Channel; 16],
    selected_sound: u32,
    selected_channel: u32,
    samples: [u32; 735],
}

impl Model for Spu {
    ghost use Rattle.spu_mix.specs.Stands.{SoundUnit};

    ghost Value = { SoundUnit };

    ghost view = { λ s. record {
      sounds = s.sounds.items;
      channels = s.channels;
      selected_sound = s.selected_sound;
      selected_channel = s.selected_channel;
      samples = s.samples;
    } };
}

/// The sounds with their first settings.
fn looped(alloc: Global, sounds: Vec<Sound>) -> Result<Vec<LoopedSound>, Memory>
    ensures made { IfOk result (λ v. v.items ≡ map first_sound sounds.items) }
{
    let mut made = Vec::with_capacity(alloc, sounds.len())?;
    'each: for sound in sounds {
        made.push(LoopedSound::new(sound))?;
    }
    Ok(made)
}

/// The selected sound after a word, among `count` sounds.
fn sound_chosen(port: u32, word: u32, count: usize, before: u32) -> u32
    ensures value { result ≡ (if port == 0x302 && nat_lt word count then word else before) }
{
    if port == 0x302 && (word as usize) < count {
        word
    } else {
        before
    }
}

/// The selected channel after a word, with `count` sounds.
fn channel_chosen(port: u32, word: u32, count: usize, before: u32) -> u32
    ensures value { result ≡ (if port == 0x303 && (nat_lt 0 count && nat_lt word 16) then word else before) }
{
    if port == 0x303 && 0 < count && word < 16 {
        word
    } else {
        before
    }
}

impl Spu {
    /// Sound over these sounds, before anything happened. The error is want of memory.
    pub fn open(alloc: Global, sounds: Vec<Sound>) -> Result<Spu, Memory>
        ensures stands { IfOk result (λ s. SoundStands sounds.items [] s) }
    {
        let channel = Channel {
            state: ChannelState::Stopped,
            sound: None,
            looping: false,
            position: 0,
        };
        Ok(Spu {
            sounds: looped(alloc, sounds)?,
            channels: [channel; 16],
            selected_sound: 0,
            selected_channel: 0,
            samples: [0; 735],
        })
    }

    /// Gives a word to each of the parts, which pass over what is not theirs.
    fn tell(&mut self, port: u32, word: u32)
        ensures sounds { self.new.sounds ≡ changed_at self.old.selected_sound (sound_told port word) self.old.sounds }
        ensures channels { self.new.channels ≡ channels_told self.old.sounds self.old.selected_channel port word self.old.channels }
        ensures selected_sound { self.new.selected_sound ≡ (if port == 0x302 && nat_lt word (length self.old.sounds) then word else self.old.selected_sound) }
        ensures selected_channel { self.new.selected_channel
            ≡ (if port == 0x303 && (nat_lt 0 (length self.old.sounds) && nat_lt word 16) then word else self.old.selected_channel) }
        ensures samples { self.new.samples ≡ self.old.samples }
    {
        let count = self.sounds.len();
        tell_channels(
            &mut self.channels,
            &self.sounds,
            self.selected_channel,
            port,
            word,
        );
        tell_sounds(&mut self.sounds, self.selected_sound, port, word);
        self.selected_sound = sound_chosen(port, word, count, self.selected_sound);
        self.selected_channel = channel_chosen(port, word, count, self.selected_channel);
    }

    /// A sound port is given a word: one of 0x300 to 0x30D that OUT may name. A word that the port does
    /// not accept is ignored, and so is every word where there are no sounds.
    #[tactic(auto, using(crate::proofs::Standing::as_many_sounds))]
    pub fn out(&mut self, port: Port, word: u32)
        requires listed { (is_sound_port port ≡ true) × (is_writable port ≡ true) }
        ensures told { (sounds : List (List ℕ)) (past : List Happening) → SoundStands sounds past self.old
            → SoundStands sounds (Told port word ∷ past) self.new }
    {
        self.tell(port.number(), word);
    }

    /// What a sound port answers: one of 0x302 to 0x30D that IN may name. Without sounds it is 0.
    pub fn answer(&self, port: Port) -> u32
        requires listed { (is_sound_port port ≡ true) × (is_readable port ≡ true) }
        ensures exact { (sounds : List (List ℕ)) (past : List Happening) → SoundStands sounds past self.now → result ≡ sound_answer sounds past port }
    {
        answer(
            &self.sounds,
            &self.channels,
            self.selected_sound,
            self.selected_channel,
            port.number(),
        )
    }

    /// Mixes the samples of a frame, and moves the channels on by as many.
    pub fn mix_frame(&mut self)
        ensures mixed { (sounds : List (List ℕ)) (past : List Happening) → SoundStands sounds past self.old → SoundStands sounds (Mixed ∷ past) self.new }
    {
        mix(&self.sounds, &mut self.channels, &mut self.samples);
    }

    /// The 735 samples of the frame that was mixed last, zeros before the first. A sample is a word: left
    /// in its low 16 bits, right in its high 16, both signed.
    pub fn samples(&self) -> &[u32]
        ensures all { length result.now ≡ 735 }
        ensures exact { (sounds : List (List ℕ)) (past : List Happening) → SoundStands sounds past self.now → (k : ℕ) → k < 735
            → slice_index result.now k ≡ last_sample sounds past k }
    {
        &self.samples
    }
}
