// The devices behind the ports.
ghost use Rattle.std.specs.Prelude.{◌≡◌, ◌<◌, ◌+◌, ◌∷◌, ℕ, List, Some};
ghost use Rattle.port_history.specs.Past.{Happening, Began, Mixed, is_graphics_port, is_sound_port};
ghost use Rattle.v32_console.specs.Setup.{Setup};
ghost use Rattle.v32_console.specs.Stands.{BoardStands};
ghost use Rattle.v32_console.specs.inner.Bus.{DevicesAnswer, DevicesTake};

use crate::tape::Tape;
use cpu_core::Bus;
use gpu_state::Gpu;
use port_bus::Devices;
use spu_mix::Spu;
use v32_isa::{Port, answers, listens};

/// Graphics, sound and the small devices, the instructions done in this frame, and the tape of its port operations.
#[derive(Drop)]
pub struct Board {
    pub gpu: Gpu,
    pub spu: Spu,
    pub devices: Devices,
    pub cycles: u32,
    pub tape: Tape,
}

fn is_graphics(port: Port) -> bool
    ensures { result ≡ is_graphics_port port }
{
    let number = port.number();
    0x200 <= number && number <= 0x2FF
}

fn is_sound(port: Port) -> bool
    ensures { result ≡ is_sound_port port }
{
    let number = port.number();
    0x300 <= number && number <= 0x3FF
}

impl Board {
    /// A frame begins. Fewer than 1,000,000,000 frames began before.
    pub fn begin_frame(&mut self)
        requires few { self.old.devices.frames < 1000000000 }
        ensures cycles { self.new.cycles ≡ 0 }
        ensures tape { self.new.tape ≡ self.old.tape }
        ensures frames { self.new.devices.frames ≡ self.old.devices.frames + 1 }
        ensures stands { (u : Setup) (past : List Happening) → BoardStands u past self.old → BoardStands u (Began ∷ past) self.new }
    {
        self.gpu.begin_frame();
        self.devices.begin_frame();
        self.cycles = 0;
    }

    /// The sound of a frame is mixed.
    pub fn mix_frame(&mut self)
        ensures cycles { self.new.cycles ≡ self.old.cycles }
        ensures tape { self.new.tape ≡ self.old.tape }
        ensures frames { self.new.devices.frames ≡ self.old.devices.frames }
        ensures stands { (u : Setup) (past : List Happening) → BoardStands u past self.old → BoardStands u (Mixed ∷ past) self.new }
    {
        self.spu.mix_frame();
    }

    /// The answer of a port; 0 of one that does not answer, and before the first frame.
    fn answer(&mut self, port: Port) -> u32
        ensures answering { DevicesAnswer self.old port (Some result) self.new }
    {
        if !answers(port) {
            return 0;
        }
        if is_graphics(port) {
            return self.gpu.answer(port);
        }
        if is_sound(port) {
            return self.spu.answer(port);
        }
        if self.devices.frames() == 0 {
            return 0;
        }
        self.devices.answer(port, self.cycles)
    }

    /// Gives a port a word; nothing where it takes none.
    fn tell(&mut self, port: Port, word: u32)
        ensures telling { DevicesTake self.old port word self.new }
    {
        if !listens(port) {
            return;
        }
        if is_graphics(port) {
            self.gpu.out(port, word);
        } else if is_sound(port) {
            self.spu.out(port, word);
        } else {
            self.devices.out(port, word);
        }
    }
}

impl Bus for Board {
    ghost use Rattle.v32_console.specs.inner.Bus.{Answering as answering, Telling as telling};

    ghost input_gives = { answering };

    ghost output_gives = { telling };

    fn input(&mut self, port: Port) -> Option<u32> {
        let word = self.answer(port);
        self.tape.asked(word);
        Some(word)
    }

    fn output(&mut self, port: Port, word: u32) {
        self.tell(port, word);
        self.tape.told();
    }
}
