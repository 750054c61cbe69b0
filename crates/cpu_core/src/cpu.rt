// The processor: its parts, and the reads and writes that instructions are made of.
use crate::memory::Memory;
use crate::registers::Registers;
use std::marker::Model;

/// The processor with its memory: RAM, the program and the memory card, sixteen registers and the
/// program counter.
#[derive(Drop)]
pub struct Cpu {
    pub(crate) memory: Memory,
    pub(crate) registers: Registers,
    pub(crate) counter: u32,
}

impl Model for Cpu {
    ghost use Rattle.cpu_core.specs.Machine.{Machine};

    ghost Value = { Machine };

    ghost view = { λ c. record { memory = c.memory; registers = c.registers; counter = c.counter } };
}

ghost use Rattle.std.specs.Prelude.{◌≡◌, ◌≤◌, ◌<◌, length, true, false, IfOk};
ghost use Rattle.std.specs.Option.{option_map, ForSome};
ghost use Rattle.v32_isa.specs.State.{register_of, with_register, going_to, word_at, is_writable_at, stored};
ghost use Rattle.v32_isa.specs.Machine.{value_of, takes, loads, stores};
ghost use Rattle.v32_isa.specs.Machine.Effect.{Ends};
ghost use Rattle.v32_isa.specs.Runs.{opening};
ghost use Rattle.cpu_core.specs.Space.{words_of};
ghost use Rattle.cpu_core.specs.Machine.{state_of, HasCard};

use kit_base::Memory as OutOfMemory;
use std::alloc::Global;
use v32_isa::{Reg, Src, Stepped};

impl Cpu {
    /// The processor with this program and card, before its first instruction: every word of RAM 0,
    /// the stack pointer at RAM's end, the other registers 0, the counter at the program's first
    /// word. The error is want of memory.
    pub fn open(
        alloc: Global,
        program: Vec<u32>,
        card: Option<Vec<u32>>,
    ) -> Result<Cpu, OutOfMemory>
        requires some_program { 0 < length program.items }
        requires program_room { length program.items ≤ 0x2000000 }
        requires card_room { ForSome card (λ c. length c.items ≡ 0x40000) }
        ensures { IfOk result (λ c. state_of c ≡ opening program.items (words_of card)) }
    {
        let memory = Memory::open(alloc, program, card)?;
        Ok(Cpu {
            memory,
            registers: Registers::opening(),
            counter: 0x2000_0000,
        })
    }

    /// The program counter.
    #[inline(always)]
    #[tactic(auto, unfolding(crate::specs::Machine::state_of))]
    pub fn address(&self) -> u32
        ensures { result ≡ (state_of self.now).counter }
    {
        self.counter
    }

    /// The 262,144 words of the memory card, where one is connected.
    #[tactic(auto, unfolding(crate::specs::Machine::state_of))]
    pub fn card(&self) -> Option<&[u32]>
        ensures { HasCard (state_of self.now) (option_map (λ c. c.now) result) }
    {
        self.memory.card()
    }
}

impl Cpu {
    #[inline(always)]
    #[tactic(auto, unfolding(crate::specs::Machine::state_of))]
    pub(crate) fn register(&self, r: Reg) -> u32
        ensures { result ≡ register_of (state_of self.now) r }
    {
        self.registers.get(r)
    }

    #[inline(always)]
    pub(crate) fn value(&self, operand: Src<u32>) -> u32
        ensures { result ≡ value_of (state_of self.now) operand }
    {
        match operand {
            Src::Imm(word) => word,
            Src::Reg(r) => self.register(r),
        }
    }

    #[inline(always)]
    #[tactic(auto, unfolding(crate::specs::Machine::state_of))]
    pub(crate) fn set(&mut self, r: Reg, word: u32)
        ensures { state_of self.new ≡ with_register r word (state_of self.old) }
    {
        self.registers.set(r, word);
    }

    #[inline(always)]
    #[tactic(auto, unfolding(crate::specs::Machine::state_of))]
    pub(crate) fn go_to(&mut self, address: u32)
        ensures { state_of self.new ≡ going_to address (state_of self.old) }
    {
        self.counter = address;
    }

    /// The word at an address, where it can be read.
    #[inline(always)]
    #[tactic(auto, unfolding(crate::specs::Machine::state_of, v32_isa::specs::State::word_at, v32_isa::specs::State::is_readable_at))]
    pub(crate) fn read(&self, address: u32) -> Option<u32>
        ensures { result ≡ word_at (state_of self.now) address }
    {
        self.memory.read(address)
    }

    /// The same, for the words of instructions.
    #[inline(always)]
    #[tactic(auto, unfolding(crate::specs::Machine::state_of, v32_isa::specs::State::word_at, v32_isa::specs::State::is_readable_at))]
    pub(crate) fn read_code(&self, address: u32) -> Option<u32>
        ensures { result ≡ word_at (state_of self.now) address }
    {
        self.memory.fetch(address)
    }

    /// Stores a word at an address, where it can be written, and says whether it was.
    #[inline(always)]
    #[tactic(auto, unfolding(crate::specs::Machine::state_of, v32_isa::specs::State::is_writable_at))]
    pub(crate) fn write(&mut self, address: u32, word: u32) -> bool
        ensures done { result ≡ is_writable_at (state_of self.old) address }
        ensures after { result ≡ true → state_of self.new ≡ stored (state_of self.old) address word }
        ensures kept { result ≡ false → state_of self.new ≡ state_of self.old }
    {
        self.memory.write(address, word)
    }
}

impl Cpu {
    /// A register takes a word, and the processor goes on at `next`.
    #[inline(always)]
    pub(crate) fn take(&mut self, r: Reg, word: u32, next: u32) -> Stepped
        ensures { Ends result (state_of self.new) ≡ takes r word next (state_of self.old) }
    {
        self.set(r, word);
        self.go_to(next);
        Stepped::Went
    }

    /// A register takes the word at an address.
    #[inline(always)]
    pub(crate) fn load(&mut self, r: Reg, address: u32, next: u32) -> Stepped
        ensures { Ends result (state_of self.new) ≡ loads r address next (state_of self.old) }
    {
        match self.read(address) {
            Some(word) => self.take(r, word, next),
            None => Stepped::Fault(0),
        }
    }

    /// A word goes to an address.
    #[inline(always)]
    pub(crate) fn store(&mut self, address: u32, word: u32, next: u32) -> Stepped
        ensures { Ends result (state_of self.new) ≡ stores address word next (state_of self.old) }
    {
        if !self.write(address, word) {
            return Stepped::Fault(1);
        }
        self.go_to(next);
        Stepped::Went
    }
}
