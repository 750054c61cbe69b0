// The instructions that ask no port, by their groups.
ghost use Rattle.std.specs.Prelude.{◌≡◌};
ghost use Rattle.v32_isa.specs.Arithmetic.{two_of};
ghost use Rattle.v32_isa.specs.Machine.{act_plain, act_go, act_branch, act_one, taking, value_of};
ghost use Rattle.v32_isa.specs.Machine.Effect.{Ends};
ghost use Rattle.v32_isa.specs.State.{register_of};
ghost use Rattle.cpu_core.specs.Machine.{state_of};

use crate::cpu::Cpu;
use kit_base::{negate, word_of_bool};
use v32_isa::{Branch, Go, One, Plain, Reg, Src, Stepped, Two, magnitude_of, two_word};

impl Cpu {
    #[inline(always)]
    pub(crate) fn plain(&mut self, p: Plain, next: u32) -> Stepped
        ensures { Ends result (state_of self.new) ≡ act_plain p next (state_of self.old) }
    {
        match p {
            Plain::HLT => Stepped::Halted,
            Plain::WAIT => {
                self.go_to(next);
                Stepped::Waited
            }
            Plain::RET => self.ret(next),
            Plain::MOVS => self.movs(next),
            Plain::SETS => self.sets(next),
        }
    }

    #[inline(always)]
    pub(crate) fn go(&mut self, g: Go, target: Src<u32>, next: u32) -> Stepped
        ensures { Ends result (state_of self.new) ≡ act_go g target next (state_of self.old) }
    {
        match g {
            Go::JMP => {
                let address = self.value(target);
                self.go_to(address);
                Stepped::Went
            }
            Go::CALL => self.call(target, next),
        }
    }

    #[inline(always)]
    pub(crate) fn branch(&mut self, b: Branch, a: Reg, target: Src<u32>, next: u32) -> Stepped
        ensures { Ends result (state_of self.new) ≡ act_branch b a target next (state_of self.old) }
    {
        let address = self.value(target);
        let is_zero = self.register(a) == 0;
        let then = match b {
            Branch::JT => if is_zero { next } else { address },
            Branch::JF => if is_zero { address } else { next },
        };
        self.go_to(then);
        Stepped::Went
    }

    #[inline(always)]
    pub(crate) fn one(&mut self, o: One, a: Reg, next: u32) -> Stepped
        ensures { Ends result (state_of self.new) ≡ act_one o a next (state_of self.old) }
    {
        let word = self.register(a);
        match o {
            One::PUSH => self.push(a, next),
            One::POP => self.pop(a, next),
            One::CMPS => self.cmps(a, next),
            One::CIB => self.take(a, word_of_bool(word != 0), next),
            One::NOT => self.take(a, !word, next),
            One::BNOT => self.take(a, word_of_bool(word == 0), next),
            One::ISGN => self.take(a, negate(word), next),
            One::IABS => self.take(a, magnitude_of(word), next),
        }
    }

    #[inline(always)]
    pub(crate) fn two(&mut self, t: Two, a: Reg, operand: Src<u32>, next: u32) -> Stepped
        ensures { Ends result (state_of self.new)
            ≡ taking a (two_of t (register_of (state_of self.old) a) (value_of (state_of self.old) operand)) next (state_of self.old) }
    {
        match two_word(t, self.register(a), self.value(operand)) {
            Some(word) => self.take(a, word, next),
            None => Stepped::Fault(6),
        }
    }
}
