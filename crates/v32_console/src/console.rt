// The console.
use crate::board::Board;
use cpu_core::Cpu;
use std::marker::Model;

/// The processor with its memory, and the devices behind its ports.
#[derive(Drop)]
pub struct Console {
    cpu: Cpu,
    board: Board,
}

impl Model for Console {
    ghost use Rattle.v32_console.specs.Stands.{Parts};

    ghost Value = { Parts };

    ghost view = { λ c. record { machine = c.cpu; board = c.board } };
}

ghost use Rattle.std.specs.Prelude.{◌≡◌, ◌<◌, ◌≤◌, ◌+◌, ℕ, length, IfOk};
ghost use Rattle.std.specs.Option.{option_map, ForSome};
ghost use Rattle.cpu_core.specs.Machine.{HasCard};
ghost use Rattle.cpu_core.specs.Space.{words_of};
ghost use Rattle.gpu_state.specs.Settings.{clear_color as the_clear_color};
ghost use Rattle.v32_console.specs.Setup.{Setup, setup_of};
ghost use Rattle.v32_console.specs.Moments.{Moment, Left, console_at};
ghost use Rattle.v32_console.specs.Frames.{frame_of, samples_of, screen_of};
ghost use Rattle.v32_console.specs.Runs.{frame_operations};
ghost use Rattle.v32_console.specs.Taking.{with_operations};
ghost use Rattle.v32_console.specs.Stands.{ConsoleStands, IsAtRest, IsFrame, IsNoted, StandsAt, frames_in};

use crate::frame_end::FrameEnd;
use crate::notes::Notes;
use crate::running::run_frame;
use crate::tape::Tape;
use cart_format::{Cart, CartParts};
use gpu_state::Gpu;
use kit_base::Memory;
use port_bus::Devices;
use run_files::Pads;
use spu_mix::Spu;
use std::alloc::Global;
use std::mem;

impl Console {
    /// A console with this cartridge, this script of the gamepads, and this memory card of 262,144 words where one is
    /// connected, before its first frame. The error is want of memory; nothing after this takes any.
    pub fn open(
        alloc: Global,
        cart: Cart,
        pads: Pads,
        card: Option<Vec<u32>>,
    ) -> Result<Console, Memory>
        requires card_room { ForSome card (λ c. length c.items ≡ 0x40000) }
        ensures stands { IfOk result (λ c. StandsAt (setup_of cart pads (words_of card)) 0 c) }
        ensures frames { IfOk result (λ c. frames_in c ≡ 0) }
    {
        let words = cart.program().len() as u32;
        let textures_count = cart.textures().len() as u32;
        let sounds_count = cart.sounds().len() as u32;
        let CartParts {
            program,
            textures,
            sounds,
            ..
        } = cart.into_parts();
        let devices = Devices::open(pads, words, textures_count, sounds_count, card.is_some());
        let gpu = Gpu::open(alloc, textures)?;
        let spu = Spu::open(alloc, sounds)?;
        let cpu = Cpu::open(alloc, program, card)?;
        let board = Board {
            gpu,
            spu,
            devices,
            cycles: 0,
            tape: Tape::new(alloc),
        };
        Ok(Console { cpu, board })
    }

    /// Does the next frame: instructions up to its end, then the mix of its sound. No frame ended by a halt, a fault or an
    /// undecodable word before; fewer than 1,000,000,000 frames were done.
    pub fn frame(&mut self) -> FrameEnd
        requires few { frames_in self.old < 1000000000 }
        // What the console stands for goes on to the end of the definition's next frame.
        ensures frame { (u : Setup) (m : Moment) → ConsoleStands u m self.old → IsAtRest m.phase → ConsoleStands u (frame_of u m) self.new
            × ((frame_of u m).phase ≡ Left result) }
        // In numbers of instructions and frame edges: from the one that the console stands for to the frame's end.
        ensures edges { (u : Setup) (k : ℕ) → StandsAt u k self.old → IsAtRest (console_at u k).phase
            → (j : ℕ) × (IsFrame u k j result × StandsAt u (k + j) self.new) }
        ensures frames { frames_in self.new ≡ frames_in self.old + 1 }
    {
        self.do_frame()
    }

    /// The same, and the notes take what the ports answered, and how many port operations and instructions there were.
    pub fn frame_noting(&mut self, notes: &mut Notes) -> FrameEnd
        requires few { frames_in self.old < 1000000000 }
        requires room { 250000 ≤ notes.old.spare }
        requires instructions { notes.old.instructions ≤ 1000000000 }
        // What the console stands for goes on to the end of the definition's next frame.
        ensures frame { (u : Setup) (m : Moment) → ConsoleStands u m self.old → IsAtRest m.phase → ConsoleStands u (frame_of u m) self.new
            × ((frame_of u m).phase ≡ Left result) }
        // In numbers of instructions and frame edges: from the one that the console stands for to the frame's end.
        ensures edges { (u : Setup) (k : ℕ) → StandsAt u k self.old → IsAtRest (console_at u k).phase
            → (j : ℕ) × (IsFrame u k j result × StandsAt u (k + j) self.new) }
        ensures frames { frames_in self.new ≡ frames_in self.old + 1 }
        // The notes go on by the operations of the definition's next frame.
        ensures noted { (u : Setup) (m : Moment) → ConsoleStands u m self.old → IsAtRest m.phase
            → notes.new ≡ with_operations (frame_operations u m) notes.old }
        ensures within { notes.new.instructions ≤ notes.old.instructions + 250000 }
    {
        mem::swap(&mut self.board.tape, &mut notes.tape);
        self.board.tape.recount();
        let end = self.do_frame();
        mem::swap(&mut self.board.tape, &mut notes.tape);
        let events = notes.tape.events();
        notes.count(events, self.board.cycles);
        end
    }

    // The tape takes the frame's operations, and the board counts its instructions.
    fn do_frame(&mut self) -> FrameEnd
        requires few { frames_in self.old < 1000000000 }
        ensures frame { (u : Setup) (m : Moment) → ConsoleStands u m self.old → IsAtRest m.phase → ConsoleStands u (frame_of u m) self.new
            × ((frame_of u m).phase ≡ Left result) }
        ensures frames { frames_in self.new ≡ frames_in self.old + 1 }
        ensures noted { (u : Setup) (m : Moment) → ConsoleStands u m self.old → IsAtRest m.phase
            → IsNoted (frame_operations u m) self.old.board.tape self.new.board }
        ensures within { self.new.board.cycles ≤ 250000 }
        ensures events { self.new.board.tape.events ≤ self.old.board.tape.events + self.new.board.cycles }
    {
        self.board.begin_frame();
        let end = run_frame(&mut self.cpu, &mut self.board);
        self.board.mix_frame();
        end
    }

    /// The screen, 360 rows of 640 pixels, each a word with red in its lowest byte, then green, blue and alpha.
    pub fn screen(&self) -> &[u32]
        ensures pixels { (u : Setup) (m : Moment) → ConsoleStands u m self.now → result.now ≡ screen_of u m }
        ensures size { length result.now ≡ 230400 }
    {
        self.board.gpu.screen()
    }

    /// The 735 samples that were mixed last, zeros before the first frame: left in the low 16 bits, right in the high 16.
    pub fn samples(&self) -> &[u32]
        ensures samples { (u : Setup) (m : Moment) → ConsoleStands u m self.now → result.now ≡ samples_of u m }
        ensures size { length result.now ≡ 735 }
    {
        self.board.spu.samples()
    }

    /// The 262,144 words of the memory card, where one is connected.
    pub fn card(&self) -> Option<&[u32]>
        ensures words { (u : Setup) (m : Moment) → ConsoleStands u m self.now → HasCard m.state (option_map (λ c. c.now) result) }
        ensures size { ForSome (option_map (λ c. c.now) result) (λ words. length words ≡ 0x40000) }
    {
        self.cpu.card()
    }

    /// How many frames were done.
    pub fn frames(&self) -> u32
        ensures frames { result ≡ frames_in self.now }
    {
        self.board.devices.frames()
    }

    /// The clear colour, as it was written last.
    pub fn clear_color(&self) -> u32
        ensures color { (u : Setup) (m : Moment) → ConsoleStands u m self.now → result ≡ the_clear_color m.past }
    {
        self.board.gpu.clear_color()
    }
}
