// Promotion and improvement, until neither changes anything.
ghost use Rattle.std.specs.Prelude.{◌≡◌, ◌≢◌, IfOk, length, map, true, false};
ghost use Rattle.mid_code.specs.Functions.{function};
ghost use Rattle.mid_code.specs.Whole.{mid};
ghost use Rattle.mid_improve.specs.MadeFrom.{IsSettledFrom};
ghost use Rattle.mid_improve.specs.inner.Counted.{counts};

use crate::turns::improve;
use kit_base::Memory;
use mid_code::{Function, Mid};
use mid_scalars::promote;
use std::alloc::Global;

fn counts_of(alloc: Global, functions: &[Function<u32>]) -> Result<Vec<usize>, Memory>
    ensures { IfOk result (λ r. r.items ≡ map (λ f. length f.locals) (map function functions.now)) }
{
    let mut found = Vec::new(alloc);
    let mut rest = functions;
    'each: while let Some((f, after)) = rest.split_first() {
        found.push(f.locals.as_slice().len())?;
        rest = after;
    }
    Ok(found)
}

/// How many locals each function has.
fn local_counts(alloc: Global, m: &Mid) -> Result<Vec<usize>, Memory>
    ensures counts { IfOk result (λ r. r.items ≡ counts (mid m.now)) }
{
    counts_of(alloc, m.code().functions.as_slice())
}

fn are_same(some: &[usize], others: &[usize]) -> bool
    ensures yes { result ≡ true → some.now ≡ others.now }
    ensures no { result ≡ false → some.now ≢ others.now }
{
    some == others
}

/// The settled code without locals of one word whose address is never taken: such locals become temporaries and the code is improved, in rounds, since a local
/// may be such a one only where copies of its address are gone. A round in which no local goes is the last one, and each other takes one at least. Runs are
/// kept, in no more work; one that strays may go on. The error is want of memory, and then the code given is dropped.
pub fn settle(alloc: Global, m: Mid) -> Result<Mid, Memory>
    ensures settled { IfOk result (λ r. IsSettledFrom (mid m) (mid r)) }
{
    let mut at = promote(alloc, m)?;
    let mut left = local_counts(alloc, &at)?;
    'rounds: loop {
        at = promote(alloc, improve(alloc, at)?)?;
        let now = local_counts(alloc, &at)?;
        if are_same(now.as_slice(), left.as_slice()) {
            return Ok(at);
        }
        left = now;
    }
}
