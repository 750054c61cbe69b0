// Rounds of what settles code.
ghost use Rattle.std.specs.Prelude.{IfOk};
ghost use Rattle.mid_code.specs.Whole.{mid};
ghost use Rattle.mid_improve.specs.ImprovedFrom.{IsImprovedFrom};
ghost use Rattle.mid_improve.specs.inner.Rounds.{IsForwarded, IsRoundFrom};

use crate::forward::forward_words;
use crate::retarget::retarget_moves;
use crate::settled::is_swept;
use crate::sinking::sink_words;
use crate::sweep::sweep_dead;
use kit_base::Memory;
use mid_code::Mid;
use mid_fold::{fold_words, reuse_results};
use std::alloc::Global;

/// The code with its known words worked out, with results that stand in a temporary already used again, with addresses and known words where they are used,
/// with targets where they are moved at once, in which no operand in a run is a copy.
fn fold_and_forward(alloc: Global, m: Mid) -> Result<Mid, Memory>
    ensures { IfOk result (λ r. IsForwarded (mid m) (mid r)) }
{
    let folded = fold_words(alloc, m)?;
    let reused = reuse_results(alloc, folded)?;
    let sunk = sink_words(alloc, reused);
    let moved = retarget_moves(alloc, sunk);
    let forward = forward_words(alloc, moved)?;
    Ok(forward)
}

/// The code without what only puts something where nothing reads it, in which no operand in a run is a copy then.
fn sweep_and_forward(alloc: Global, m: Mid) -> Result<Mid, Memory>
    ensures { IfOk result (λ r. IsRoundFrom (mid m) (mid r)) }
{
    let swept = sweep_dead(alloc, m)?;
    let forward = forward_words(alloc, swept)?;
    Ok(forward)
}

/// The code of the first round. Whether there is anything to sweep is not asked before it: in code that was just lowered or promoted there mostly is.
fn first_round(alloc: Global, m: Mid) -> Result<Mid, Memory>
    ensures { IfOk result (λ r. IsForwarded (mid m) (mid r)) }
{
    let forward = fold_and_forward(alloc, m)?;
    let swept = sweep_and_forward(alloc, forward)?;
    Ok(swept)
}

/// The settled code: operators on known words are worked out, what an operator made of the same operands is moved, what is moved at once is put where it is
/// moved, copies are used as what they are copies of, and what only puts something where nothing reads it is taken out, in rounds. Runs are kept, in no
/// more work; one that strays may go on. Loads, stores, calls, loops, port operations and what makes or ends a local stay. The error is want of memory, and
/// then the code given is dropped.
#[tactic(auto, using(crate::proofs::Improving::round_falls, crate::proofs::Improving::improved))]
pub fn improve(alloc: Global, m: Mid) -> Result<Mid, Memory>
    ensures improved { IfOk result (λ r. IsImprovedFrom (mid m) (mid r)) }
{
    let mut now = first_round(alloc, m)?;
    let mut settled = is_swept(alloc, &now)?;
    'rounds: while !settled {
        now = sweep_and_forward(alloc, now)?;
        settled = is_swept(alloc, &now)?;
    }
    Ok(now)
}
