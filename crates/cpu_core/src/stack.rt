// PUSH, POP, CALL and RET.
ghost use Rattle.std.specs.Prelude.{◌≡◌};
ghost use Rattle.v32_isa.specs.Machine.{act_go, act_one, act_plain};
ghost use Rattle.v32_isa.specs.Machine.Effect.{Ends};
ghost use Rattle.cpu_core.specs.Machine.{state_of};

use crate::cpu::Cpu;
use kit_base::{wrap_add, wrap_sub};
use v32_isa::{Go, One, Plain, Reg, SP, Src, Stepped};

impl Cpu {
    #[inline(always)]
    pub(crate) fn push(&mut self, a: Reg, next: u32) -> Stepped
        ensures { Ends result (state_of self.new) ≡ act_one One.PUSH a next (state_of self.old) }
    {
        let word = self.register(a);
        let top = wrap_sub(self.register(Reg::at(SP)), 1);
        if !self.write(top, word) {
            return Stepped::Fault(1);
        }
        self.take(Reg::at(SP), top, next)
    }

    #[inline(always)]
    pub(crate) fn pop(&mut self, a: Reg, next: u32) -> Stepped
        ensures { Ends result (state_of self.new) ≡ act_one One.POP a next (state_of self.old) }
    {
        let top = self.register(Reg::at(SP));
        let Some(word) = self.read(top) else {
            return Stepped::Fault(0);
        };
        self.set(Reg::at(SP), wrap_add(top, 1));
        self.take(a, word, next)
    }

    #[inline(always)]
    pub(crate) fn call(&mut self, target: Src<u32>, next: u32) -> Stepped
        ensures { Ends result (state_of self.new) ≡ act_go Go.CALL target next (state_of self.old) }
    {
        let address = self.value(target);
        let top = wrap_sub(self.register(Reg::at(SP)), 1);
        if !self.write(top, next) {
            return Stepped::Fault(1);
        }
        self.take(Reg::at(SP), top, address)
    }

    #[inline(always)]
    pub(crate) fn ret(&mut self, next: u32) -> Stepped
        ensures { Ends result (state_of self.new) ≡ act_plain Plain.RET next (state_of self.old) }
    {
        let top = self.register(Reg::at(SP));
        let Some(address) = self.read(top) else {
            return Stepped::Fault(0);
        };
        self.take(Reg::at(SP), wrap_add(top, 1), address)
    }
}
