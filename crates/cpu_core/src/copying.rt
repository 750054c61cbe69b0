// MOVS, SETS and CMPS.
ghost use Rattle.std.specs.Prelude.{◌≡◌};
ghost use Rattle.v32_isa.specs.Machine.{act_one, act_plain, repeating};
ghost use Rattle.v32_isa.specs.Machine.Effect.{Ends};
ghost use Rattle.cpu_core.specs.Machine.{state_of};

use crate::cpu::Cpu;
use kit_base::{is_below, wrap_add, wrap_sub};
use v32_isa::{CR, DR, One, Plain, Reg, SR, Stepped};

impl Cpu {
    /// The address of this instruction while the count is above 0, then the next.
    fn address_after(&self, count: u32, next: u32) -> u32
        ensures { result ≡ repeating count next (state_of self.now) }
    {
        if is_below(0, count) {
            self.address()
        } else {
            next
        }
    }

    pub(crate) fn movs(&mut self, next: u32) -> Stepped
        ensures { Ends result (state_of self.new) ≡ act_plain Plain.MOVS next (state_of self.old) }
    {
        let count = self.register(Reg::at(CR));
        if !is_below(0, count) {
            self.go_to(next);
            return Stepped::Went;
        }
        let source = self.register(Reg::at(SR));
        let destination = self.register(Reg::at(DR));
        let then = self.address_after(wrap_sub(count, 1), next);
        let Some(word) = self.read(source) else {
            return Stepped::Fault(0);
        };
        if !self.write(destination, word) {
            return Stepped::Fault(1);
        }
        self.set(Reg::at(SR), wrap_add(source, 1));
        self.set(Reg::at(DR), wrap_add(destination, 1));
        self.take(Reg::at(CR), wrap_sub(count, 1), then)
    }

    pub(crate) fn sets(&mut self, next: u32) -> Stepped
        ensures { Ends result (state_of self.new) ≡ act_plain Plain.SETS next (state_of self.old) }
    {
        let count = self.register(Reg::at(CR));
        if !is_below(0, count) {
            self.go_to(next);
            return Stepped::Went;
        }
        let word = self.register(Reg::at(SR));
        let destination = self.register(Reg::at(DR));
        let then = self.address_after(wrap_sub(count, 1), next);
        if !self.write(destination, word) {
            return Stepped::Fault(1);
        }
        self.set(Reg::at(DR), wrap_add(destination, 1));
        self.take(Reg::at(CR), wrap_sub(count, 1), then)
    }

    pub(crate) fn cmps(&mut self, a: Reg, next: u32) -> Stepped
        ensures { Ends result (state_of self.new) ≡ act_one One.CMPS a next (state_of self.old) }
    {
        let count = self.register(Reg::at(CR));
        if !is_below(0, count) {
            return self.take(a, 0, next);
        }
        let source = self.register(Reg::at(SR));
        let destination = self.register(Reg::at(DR));
        let then = self.address_after(wrap_sub(count, 1), next);
        let Some(there) = self.read(destination) else {
            return Stepped::Fault(0);
        };
        let Some(here) = self.read(source) else {
            return Stepped::Fault(0);
        };
        let difference = wrap_sub(there, here);
        if difference != 0 {
            return self.take(a, difference, next);
        }
        self.set(Reg::at(DR), wrap_add(destination, 1));
        self.set(Reg::at(SR), wrap_add(source, 1));
        self.set(Reg::at(CR), wrap_sub(count, 1));
        self.take(a, 0, then)
    }
}
