// The steps of the machine.
ghost use Rattle.std.specs.Prelude.{◌≡◌, IfOk, IfNone, IfSome, OnOk};
ghost use Rattle.c_evaluate.specs.Evaluation.{Gives};
ghost use Rattle.c_evaluate.specs.inner.Machine.{run_left};
ghost use Rattle.c_evaluate.specs.inner.Results.{Leads};
ghost use Rattle.c_evaluate.specs.inner.Swift.{stepped_on};
ghost use Rattle.c_evaluate.specs.inner.Turning.{GoesOn};
ghost use Rattle.c_evaluate.specs.inner.FocusView.{at, stack_of};
ghost use Rattle.c_evaluate.specs.inner.StoreView.{store_of};
ghost use Rattle.c_evaluate.specs.inner.MachineView.{config_of, setting_of};

use crate::answer::Advanced;
use crate::dispatch::{fill_up, take_exit, take_outcome};
use crate::eval::eval;
use crate::exec::exec;
use crate::filling::{fill, nowhere};
use crate::frame::Focus;
use crate::machine::Machine;
use crate::stack::pop;
use crate::stop::Stop;
use crate::store::spend;
use c_meaning::End;
use kit_base::Memory;

impl<'a> Machine<'a> {
    /// What is looked at next.
    #[inline(always)]
    #[tactic(auto, unfolding(crate::specs::inner::Swift::step_on, crate::specs::inner::Steps::step))]
    fn next_focus(&mut self) -> Result<Focus<'a>, Stop>
        ensures same { setting_of self.new ≡ setting_of self.old }
        ensures steps { Leads (λ x. at x (stack_of self.new.stack.items) (store_of self.new.store)) result
            (stepped_on (setting_of self.old) (config_of self.old)) }
    {
        match self.focus {
            Focus::Eval(n, e) => {
                spend(&mut self.store, 1);
                eval(&self.setting, n, e, &mut self.stack, &mut self.store)
            }
            Focus::Fill(n, i, ty, p) => {
                spend(&mut self.store, 1);
                fill(&self.setting, n, i, ty, p, &mut self.stack, &mut self.store)
            }
            Focus::Do(n, r, a) => {
                spend(&mut self.store, 1);
                exec(&self.setting, n, r, a, &mut self.stack, &mut self.store)
            }
            Focus::Outcome(v) => match pop(&mut self.stack) {
                None => Err(Stop::Cause(End::Halted)),
                Some(f) => take_outcome(&self.setting, f, v, &mut self.stack, &mut self.store),
            },
            Focus::Exit(h) => match pop(&mut self.stack) {
                None => Err(Stop::Cause(End::Stray(nowhere()))),
                Some(f) => take_exit(&self.setting, f, h, &mut self.stack, &mut self.store),
            },
            Focus::Full => match pop(&mut self.stack) {
                None => Err(Stop::Cause(End::Stray(nowhere()))),
                Some(f) => fill_up(&self.setting, f, &mut self.stack, &mut self.store),
            },
            Focus::Made(_, _) | Focus::Over(_) => Ok(self.focus),
        }
    }

    #[inline(always)]
    fn step(&mut self) -> Result<(), Memory>
        ensures same { setting_of self.new ≡ setting_of self.old }
        ensures steps { OnOk result (config_of self.new ≡ stepped_on (setting_of self.old) (config_of self.old)) }
    {
        match self.next_focus() {
            Ok(x) => {
                self.focus = x;
                Ok(())
            }
            Err(Stop::Cause(end)) => {
                self.focus = Focus::Over(end);
                Ok(())
            }
            Err(Stop::Memory) => Err(Memory),
        }
    }

    /// What is given before the next step.
    #[inline(always)]
    #[tactic(auto, using(crate::proofs::Running::event_made, crate::proofs::Running::run_ended))]
    fn pause(&mut self) -> Option<Advanced>
        ensures same { setting_of self.new ≡ setting_of self.old }
        ensures none { IfNone result (GoesOn (config_of self.new) × (config_of self.new ≡ config_of self.old)) }
        ensures some { IfSome result (λ a. Gives a (run_left (setting_of self.old) (config_of self.old))
            (run_left (setting_of self.old) (config_of self.new))) }
    {
        match self.focus {
            Focus::Made(event, v) => {
                self.focus = Focus::Outcome(v);
                Some(Advanced::Made(event))
            }
            Focus::Over(end) => Some(Advanced::Ended(end)),
            Focus::Eval(_, _) | Focus::Fill(_, _, _, _) | Focus::Do(_, _, _) => None,
            Focus::Outcome(_) | Focus::Exit(_) | Focus::Full => None,
        }
    }

    /// The next port operation, or the end.
    #[tactic(auto, using(crate::proofs::Running::turn_keeps, crate::proofs::Running::turn_falls))]
    pub(crate) fn advance(&mut self) -> Result<Advanced, Memory>
        ensures same { setting_of self.new ≡ setting_of self.old }
        ensures advances { IfOk result (λ a. Gives a (run_left (setting_of self.old) (config_of self.old))
            (run_left (setting_of self.old) (config_of self.new))) }
    {
        'steps: loop {
            match self.pause() {
                Some(given) => return Ok(given),
                None => self.step()?,
            }
        }
    }
}
