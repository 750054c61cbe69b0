// The step.
ghost use Rattle.std.specs.Prelude.{◌≡◌};
ghost use Rattle.v32_isa.specs.declared.stepped.Stepped.TheVariants.{Halted};
ghost use Rattle.v32_isa.specs.Machine.{Acts, Steps, act, effect_of, fetched};
ghost use Rattle.v32_isa.specs.Machine.Effect.{Ends};
ghost use Rattle.cpu_core.specs.Machine.{state_of};
ghost use Rattle.cpu_core.specs.Stepping.{Stops, StarvesRightly};

use crate::bus::Bus;
use crate::cpu::Cpu;
use kit_base::wrap_add;
use v32_isa::{Instr, Stepped, decode};

impl Cpu {
    /// Does an instruction; `next` is the address after it.
    #[inline(always)]
    #[tactic(auto, unfolding(v32_isa::specs::Machine::act))]
    fn act<B: Bus>(&mut self, bus: &mut B, i: Instr<u32>, next: u32) -> Stepped
        ensures { Acts B.input_gives B.output_gives (act i next (state_of self.old)) bus.old result (state_of self.new) bus.new }
    {
        match i {
            Instr::Plain(p) => self.plain(p, next),
            Instr::Go(g, target) => self.go(g, target, next),
            Instr::Branch(b, a, target) => self.branch(b, a, target, next),
            Instr::Two(t, a, operand) => self.two(t, a, operand, next),
            Instr::One(o, a) => self.one(o, a, next),
            Instr::Mov(m) => self.mov(m, next),
            Instr::Lea(a, b, offset) => self.lea(a, b, offset, next),
            Instr::In(a, port) => self.ask(bus, a, port, next),
            Instr::Out(port, operand) => self.tell(bus, port, operand, next),
        }
    }

    /// The word at the counter, with the word after it where the flag is set; none where one can't
    /// be read.
    #[inline(always)]
    #[tactic(auto, unfolding(v32_isa::specs::Machine::fetched))]
    fn fetch(&self) -> Option<(u32, Option<u32>)>
        ensures { result ≡ fetched (state_of self.now) }
    {
        let counter = self.address();
        let first = self.read_code(counter)?;
        if first / 0x0200_0000 % 2 == 1 {
            let second = self.read_code(wrap_add(counter, 1))?;
            Some((first, Some(second)))
        } else {
            Some((first, None))
        }
    }

    #[inline(always)]
    #[tactic(auto, unfolding(v32_isa::specs::Machine::effect_of))]
    fn do_step<B: Bus>(&mut self, bus: &mut B) -> Stepped
        ensures { Steps B.input_gives B.output_gives (state_of self.old) bus.old result (state_of self.new) bus.new }
    {
        let Some((first, second)) = self.fetch() else {
            return Stepped::Fault(0);
        };
        let counter = self.address();
        let Some(instr) = decode(first, second) else {
            return Stepped::Undecodable(counter);
        };
        let length = if second.is_some() { 2 } else { 1 };
        self.act(bus, instr, wrap_add(counter, length))
    }

    /// Does the instruction at the counter. A fault (0 read, 1 write, 2 port read, 3 port write, 6
    /// division), an undecodable word, a port without an answer and HLT leave the processor as it
    /// was. An IN at a port that can be read makes one call of the bus's `input`, an OUT at a port
    /// that can be written one of its `output`; no other instruction calls the bus.
    #[inline(always)]
    pub fn step<B: Bus>(&mut self, bus: &mut B) -> Stepped
        ensures step { Steps B.input_gives B.output_gives (state_of self.old) bus.old result (state_of self.new) bus.new }
        ensures starved { StarvesRightly B.input_gives (effect_of (state_of self.old)) bus.old result bus.new }
        ensures unchanged { Stops result → state_of self.new ≡ state_of self.old }
        ensures halted { result ≡ Halted → effect_of (state_of self.new) ≡ Ends Halted (state_of self.new) }
    {
        self.do_step(bus)
    }
}
