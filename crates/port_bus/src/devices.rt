// The devices as one value.
ghost use Rattle.std.specs.Prelude.{◌≡◌};
ghost use Rattle.port_bus.specs.Random.{asked_random, is_seed};
ghost use Rattle.port_bus.specs.Answers.{is_pad};

use crate::controls::{MOST_FRAMES, PLACES, count_frame, place, signed_count};
use crate::events::apply_events;
use run_files::Pads;
use std::marker::Model;
use v32_isa::Port;

/// The timer, the random numbers, the gamepads of a script, the cartridge and the memory card.
#[derive(Drop)]
pub struct Devices {
    pads: Pads,
    program: u32,
    textures: u32,
    sounds: u32,
    card: bool,
    frames: u32,
    random: u32,
    selected: u32,
    // The events below this index were applied.
    next: usize,
    downs: [bool; 44],
    counts: [u32; 44],
}

impl Model for Devices {
    ghost use Rattle.port_bus.specs.State.{State};
    ghost use Rattle.port_bus.specs.inner.Kept.{IsKept};

    ghost Value = { State };

    ghost view = { λ d. record {
      script = d.pads;
      facts = record { program = d.program; textures = d.textures; sounds = d.sounds; card = d.card };
      frames = d.frames;
      random = d.random;
      selected = d.selected;
    } };

    ghost invariant = { λ d. IsKept d.pads.events d.frames d.next d.selected d.downs d.counts };
}

/// The random value after a port was asked.
fn asked_random(number: u32, random: u32) -> u32
    ensures random { result ≡ asked_random number random }
{
    if number == 0x100 {
        (48_271 * u64::from(random) % 2_147_483_647) as u32
    } else {
        random
    }
}

fn is_seed(word: u32) -> bool
    ensures seed { result ≡ is_seed word }
{
    1 <= word && word <= 2_147_483_646
}

fn is_pad(word: u32) -> bool
    ensures pad { result ≡ is_pad word }
{
    word <= 3
}

impl Devices {
    ghost use Rattle.std.specs.Prelude.{◌<◌, ◌≤◌, ◌+◌, ◌-◌, ◌∷◌, [], List};
    ghost use Rattle.run_files.specs.Script.{Script};
    ghost use Rattle.port_history.specs.Past.{Happening, Began, Asked, Told};
    ghost use Rattle.port_bus.specs.State.{Facts};
    ghost use Rattle.port_bus.specs.inner.Ports.{Answers, TakesWords};
    ghost use Rattle.port_bus.specs.Controls.{control_word};
    ghost use Rattle.port_bus.specs.Answers.{timer_answer, pad_answer, cartridge_answer, answer_of, small_answer};
    ghost use Rattle.port_bus.specs.Stand.{DevicesStand};

    /// The devices of a cartridge with `program` program words, `textures` textures and `sounds` sounds, before the first frame.
    pub fn open(pads: Pads, program: u32, textures: u32, sounds: u32, card: bool) -> Devices
        ensures stands { DevicesStand pads (record { program = program; textures = textures; sounds = sounds; card = card }) [] result }
    {
        Devices {
            pads,
            program,
            textures,
            sounds,
            card,
            frames: 0,
            random: 1,
            selected: 0,
            next: 0,
            downs: [false; PLACES],
            counts: [MOST_FRAMES; PLACES],
        }
    }

    /// How many frames began.
    pub fn frames(&self) -> u32
        ensures frames { result ≡ self.now.frames }
    {
        self.frames
    }

    /// A frame begins: the events of its number are applied in order, and the controls count it. Fewer than
    /// 1,000,000,000 frames began before.
    pub fn begin_frame(&mut self)
        requires few { self.old.frames < 1000000000 }
        ensures frames { self.new.frames ≡ self.old.frames + 1 }
        ensures stands { (script : Script) (facts : Facts) (past : List Happening) → DevicesStand script facts past self.old
            → DevicesStand script facts (Began ∷ past) self.new }
    {
        let before = self.downs;
        self.next = apply_events(&self.pads, self.next, self.frames, &mut self.downs);
        count_frame(&before, &self.downs, &mut self.counts);
        self.frames += 1;
    }

    /// The word that a readable port of these devices answers, `cycles` instructions after the frame's beginning. A
    /// frame was begun. A read of the random value moves it on.
    pub fn answer(&mut self, port: Port, cycles: u32) -> u32
        requires port { Answers port }
        requires begun { 0 < self.old.frames }
        ensures frames { self.new.frames ≡ self.old.frames }
        ensures answer { (script : Script) (facts : Facts) (past : List Happening) → DevicesStand script facts past self.old
            → result ≡ small_answer script facts past cycles port }
        ensures stands { (script : Script) (facts : Facts) (past : List Happening) → DevicesStand script facts past self.old
            → DevicesStand script facts (Asked port ∷ past) self.new }
    {
        let number = port.number();
        self.random = asked_random(number, self.random);
        self.answer_now(number, cycles)
    }

    /// Gives a word to a writable port of these devices: a seed of the random values, 1 to 2,147,483,646, or the
    /// selected gamepad, 0 to 3. Any other word is ignored.
    pub fn out(&mut self, port: Port, word: u32)
        requires port { TakesWords port }
        ensures frames { self.new.frames ≡ self.old.frames }
        ensures stands { (script : Script) (facts : Facts) (past : List Happening) → DevicesStand script facts past self.old
            → DevicesStand script facts (Told port word ∷ past) self.new }
    {
        match port.number() {
            0x100 => {
                if is_seed(word) {
                    self.random = word;
                }
            }
            0x400 => {
                if is_pad(word) {
                    self.selected = word;
                }
            }
            _ => {}
        }
    }

    /// The answer of a port, with the random value as it is.
    #[tactic(auto, unfolding(crate::specs::Answers::answer_of))]
    fn answer_now(&self, number: u32, cycles: u32) -> u32
        requires begun { 0 < self.now.frames }
        ensures answer { result ≡ answer_of self.now.script self.now.facts self.now.frames self.now.selected self.now.random cycles number }
    {
        match number {
            0x000..=0x003 => self.timer_answer(number, cycles),
            0x100 => self.random,
            0x400..=0x40C => self.pad_answer(number),
            _ => self.cartridge_answer(number),
        }
    }

    #[tactic(auto, unfolding(crate::specs::Answers::timer_answer))]
    fn timer_answer(&self, number: u32, cycles: u32) -> u32
        requires begun { 0 < self.now.frames }
        ensures answer { result ≡ timer_answer self.now.script (self.now.frames - 1) cycles number }
    {
        let frame = self.frames - 1;
        match number {
            0x000 => self.pads.date(),
            0x001 => (self.pads.time() + frame / 60) % 86_400,
            0x002 => frame,
            _ => cycles,
        }
    }

    #[tactic(auto, unfolding(crate::specs::Answers::pad_answer))]
    fn pad_answer(&self, number: u32) -> u32
        requires first { 0x400 ≤ number }
        requires last { number ≤ 0x40C }
        ensures answer { result ≡ pad_answer self.now.script self.now.frames self.now.selected number }
    {
        match number {
            0x400 => self.selected,
            0x401 => u32::from(self.pads.is_connected(self.selected)),
            _ => self.control_word(number - 0x402),
        }
    }

    #[tactic(auto, unfolding(crate::specs::Answers::cartridge_answer))]
    fn cartridge_answer(&self, number: u32) -> u32
        ensures answer { result ≡ cartridge_answer self.now.facts number }
    {
        match number {
            0x500 => 1,
            0x501 => self.program,
            0x502 => self.textures,
            0x503 => self.sounds,
            _ => u32::from(self.card),
        }
    }

    /// The word of a control of the selected gamepad.
    fn control_word(&self, control: u32) -> u32
        requires control { control ≤ 10 }
        ensures word { result ≡ control_word self.now.script.events self.now.frames self.now.selected control }
    {
        let at = place(self.selected, control);
        signed_count(self.downs[at], self.counts[at])
    }
}
