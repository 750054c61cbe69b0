// The meaning of a program beside a recorded run.
ghost use Rattle.std.specs.Prelude.{◌≡◌, ◌-◌, IfOk, option_map};
ghost use Rattle.c_check.specs.View.{program};
ghost use Rattle.c_meaning.specs.Runs.{final_of};
ghost use Rattle.c_watch.specs.Watching.{watched_by};

use crate::verdict::{Goal, Watched, verdict};
use c_check::Program;
use c_evaluate::{Advanced, Runner};
use kit_base::Memory;
use obj_mem::Frames;
use std::alloc::Global;

/// One fewer, where there is one.
fn one_fewer(left: u64) -> u64
    ensures { result ≡ left - 1 }
{
    left.saturating_sub(1)
}

/// The verdict on a program whose frames have these sizes, with these answers of ports, and a memory card of 262,144 words where one is connected, as
/// the recorded run had it at its beginning. The error is want of memory.
pub fn watch(
    alloc: Global,
    p: &Program,
    f: &Frames,
    answers: &[u32],
    card: Option<&[u32]>,
    goal: &Goal,
) -> Result<Watched, Memory>
    ensures { IfOk result (λ w. w ≡ watched_by goal.now.events goal.now.ended
        (final_of (program p.now) f.now.sizes goal.now.bound answers.now (option_map (λ x. x.now) card.entry))) }
{
    let mut runner = Runner::new(alloc, p, f, answers, card, goal.bound)?;
    let mut left = goal.events;
    'events: while goal.ended || left > 0 {
        match runner.advance()? {
            Advanced::Made(_) => left = one_fewer(left),
            Advanced::Ended(end) => return Ok(verdict(end)),
        }
    }
    Ok(Watched::Met)
}
