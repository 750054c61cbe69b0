// MOV and LEA.
ghost use Rattle.std.specs.Prelude.{◌≡◌};
ghost use Rattle.v32_isa.specs.Machine.{act, act_mov};
ghost use Rattle.v32_isa.specs.Machine.Effect.{Ends};
ghost use Rattle.cpu_core.specs.Machine.{state_of};

use crate::cpu::Cpu;
use kit_base::wrap_add;
use v32_isa::{Instr, Mov, Reg, Stepped};

impl Cpu {
    #[inline(always)]
    pub(crate) fn mov(&mut self, m: Mov<u32>, next: u32) -> Stepped
        ensures { Ends result (state_of self.new) ≡ act_mov m next (state_of self.old) }
    {
        match m {
            Mov::RegImm(a, i) => self.take(a, i, next),
            Mov::RegReg(a, b) => {
                let word = self.register(b);
                self.take(a, word, next)
            }
            Mov::RegAt(a, i) => self.load(a, i, next),
            Mov::RegAtReg(a, b) => {
                let address = self.register(b);
                self.load(a, address, next)
            }
            Mov::RegAtOff(a, b, i) => {
                let address = wrap_add(self.register(b), i);
                self.load(a, address, next)
            }
            Mov::AtReg(i, b) => {
                let word = self.register(b);
                self.store(i, word, next)
            }
            Mov::AtRegReg(a, b) => {
                let address = self.register(a);
                let word = self.register(b);
                self.store(address, word, next)
            }
            Mov::AtOffReg(a, i, b) => {
                let address = wrap_add(self.register(a), i);
                let word = self.register(b);
                self.store(address, word, next)
            }
        }
    }

    #[inline(always)]
    #[tactic(auto, unfolding(v32_isa::specs::Machine::act))]
    pub(crate) fn lea(&mut self, a: Reg, b: Reg, offset: Option<u32>, next: u32) -> Stepped
        ensures { Ends result (state_of self.new) ≡ act (Instr.Lea a b offset) next (state_of self.old) }
    {
        let base = self.register(b);
        let address = match offset {
            None => base,
            Some(i) => wrap_add(base, i),
        };
        self.take(a, address, next)
    }
}
