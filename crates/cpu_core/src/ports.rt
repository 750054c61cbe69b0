// IN and OUT.
ghost use Rattle.v32_isa.specs.Machine.{Acts, act};
ghost use Rattle.cpu_core.specs.Machine.{state_of};

use crate::bus::Bus;
use crate::cpu::Cpu;
use v32_isa::{Instr, Port, Reg, Src, Stepped, answers, listens};

impl Cpu {
    #[tactic(auto, unfolding(v32_isa::specs::Machine::act))]
    pub(crate) fn ask<B: Bus>(&mut self, bus: &mut B, a: Reg, port: Port, next: u32) -> Stepped
        ensures { Acts B.input_gives B.output_gives (act (Instr.In a port) next (state_of self.old)) bus.old result (state_of self.new) bus.new }
    {
        if !answers(port) {
            return Stepped::Fault(2);
        }
        match bus.input(port) {
            Some(word) => self.take(a, word, next),
            None => Stepped::Starved,
        }
    }

    #[tactic(auto, unfolding(v32_isa::specs::Machine::act))]
    pub(crate) fn tell<B: Bus>(
        &mut self,
        bus: &mut B,
        port: Port,
        operand: Src<u32>,
        next: u32,
    ) -> Stepped
        ensures { Acts B.input_gives B.output_gives (act (Instr.Out port operand) next (state_of self.old)) bus.old result (state_of self.new) bus.new }
    {
        if !listens(port) {
            return Stepped::Fault(3);
        }
        let word = self.value(operand);
        bus.output(port, word);
        self.go_to(next);
        Stepped::Went
    }
}
