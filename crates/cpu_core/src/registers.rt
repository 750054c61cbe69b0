// The sixteen registers.
use std::marker::Model;
use v32_isa::Reg;

/// A word for each register, which contracts see as the list of the sixteen.
#[derive(Drop)]
pub struct Registers {
    words: [u32; 16],
}

impl Model for Registers {
    ghost use Rattle.std.specs.Prelude.{ℕ, List};

    ghost Value = { List ℕ };

    ghost view = { λ r. r.words };
}

ghost use Rattle.std.specs.Prelude.{◌≡◌, slice_index, slice_set};
ghost use Rattle.v32_isa.specs.Runs.{opening_registers};

impl Registers {
    /// The stack pointer at the end of RAM, the others 0.
    pub fn opening() -> Registers
        ensures { result ≡ opening_registers }
    {
        let mut words = [0; 16];
        words[15] = 0x0040_0000;
        Registers { words }
    }

    #[inline(always)]
    pub fn get(&self, r: Reg) -> u32
        ensures { result ≡ slice_index self.now r }
    {
        self.words[r.number() as usize]
    }

    #[inline(always)]
    pub fn set(&mut self, r: Reg, word: u32)
        ensures { self.new ≡ slice_set self.old r word }
    {
        self.words[r.number() as usize] = word;
    }
}
