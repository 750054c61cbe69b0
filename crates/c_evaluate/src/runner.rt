// A run that is asked for its port operations one by one.
use crate::answer::{Advanced, Ran};
use crate::machine::Machine;
use crate::opening::begun;
use c_check::Program;
use kit_base::{Memory, Seq};
use obj_mem::Frames;
use std::alloc::Global;
use std::marker::Model;

/// A run of a program. After a refusal of memory it refuses from then on.
#[derive(Drop)]
pub struct Runner<'a> {
    machine: Machine<'a>,
    refused: bool,
}

impl<'a> Model for Runner<'a> {
    ghost use Rattle.c_evaluate.specs.Evaluation.{RunnerT};

    ghost Value = { RunnerT };

    ghost use Rattle.c_evaluate.specs.inner.Machine.{run_left};
    ghost use Rattle.c_evaluate.specs.inner.MachineView.{config_of, setting_of};

    ghost view = { λ r. record { left = run_left (setting_of r.machine) (config_of r.machine); refused = r.refused } };
}

ghost use Rattle.std.specs.Prelude.{◌≡◌, true, false, IfOk, OnErr, option_map};
ghost use Rattle.c_check.specs.View.{program};
ghost use Rattle.c_evaluate.specs.Evaluation.{run_of, Gives};

impl<'a> Runner<'a> {
    /// Begins the run of a program whose frames have these sizes, for that bound on the calls and loop turns that are nested on any path, with
    /// these answers of ports, and a memory card of 262,144 words where one is connected. The error is want of memory.
    pub fn new(
        alloc: Global,
        p: &'a Program,
        f: &'a Frames,
        answers: &'a [u32],
        card: Option<&'a [u32]>,
        bound: u32,
    ) -> Result<Runner<'a>, Memory>
        ensures whole { IfOk result (λ r. r.left ≡ run_of (program p.now) f.now.sizes bound answers.now (option_map (λ w. w.now) card.entry)) }
        ensures begun { IfOk result (λ r. r.refused ≡ false) }
    {
        let frames = f.sizes.as_slice();
        let machine = begun(alloc, p, frames, answers, card, bound)?;
        Ok(Runner {
            machine,
            refused: false,
        })
    }

    /// The work of the run up to what `advance` answered last, as `c_meaning` defines it, and at most 2^64 - 1. It is counted beside the run, wherever the
    /// definitions spend some: that is not proved, but tested against a count apart.
    pub fn work(&self) -> u64 {
        self.machine.store.work
    }

    /// The next port operation of the run, or its end where none is left. The error is want of memory, and from then on every answer is.
    pub fn advance(&mut self) -> Result<Advanced, Memory>
        ensures advances { IfOk result (λ a. Gives a self.old.left self.new.left) }
        ensures goes_on { IfOk result (λ _. (self.old.refused ≡ false) × (self.new.refused ≡ false)) }
        ensures refuses { OnErr result (self.new.refused ≡ true) }
    {
        if self.refused {
            return Err(Memory);
        }
        match self.machine.advance() {
            Ok(given) => Ok(given),
            Err(e) => {
                self.refused = true;
                Err(e)
            }
        }
    }
}

/// The whole run of a program whose frames have these sizes, for that bound on the calls and loop turns that are nested on any path, with these
/// answers of ports, and a memory card of 262,144 words where one is connected. The error is want of memory.
pub fn evaluate(
    alloc: Global,
    p: &Program,
    f: &Frames,
    answers: &[u32],
    card: Option<&[u32]>,
    bound: u32,
) -> Result<Ran, Memory>
    ensures events { IfOk result (λ r. r.events ≡ (run_of (program p.now) f.now.sizes bound answers.now (option_map (λ w. w.now) card.entry)).events) }
    ensures end { IfOk result (λ r. r.end ≡ (run_of (program p.now) f.now.sizes bound answers.now (option_map (λ w. w.now) card.entry)).end) }
{
    let mut runner = Runner::new(alloc, p, f, answers, card, bound)?;
    let mut events = Vec::new(alloc);
    'events: loop {
        match runner.advance()? {
            Advanced::Made(event) => events.push(event)?,
            Advanced::Ended(end) => {
                return Ok(Ran {
                    events: Seq::from_vec(events),
                    end,
                });
            }
        }
    }
}
