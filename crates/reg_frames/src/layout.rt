// The layout of a frame.
ghost use Rattle.std.specs.Prelude.{◌≡◌, ◌+◌, ◌<◌, ◌^◌, IfOk, sum};
ghost use Rattle.reg_frames.specs.inner.Placing.{rising, begins_from};

use crate::slices::next;
use kit_base::Memory;
use std::alloc::Global;

/// So many offsets from 0 on.
#[tactic(auto, using(crate::proofs::Steps::rising_turn))]
pub(crate) fn rising(alloc: Global, count: u32) -> Result<Vec<u32>, Memory>
    ensures { IfOk result (λ r. r.items ≡ rising 0 count) }
{
    let mut found = Vec::new(alloc);
    let mut from: u32 = 0;
    let mut left = count;
    while left > 0 {
        found.push(from)?;
        from += 1;
        left -= 1;
    }
    Ok(found)
}

/// Where words of these sizes begin, one behind the other.
pub(crate) fn begins(alloc: Global, first: u32, sizes: &[u32]) -> Result<Vec<u32>, Memory>
    requires fits { first + sum sizes.now < 2 ^ 32 }
    ensures { IfOk result (λ r. r.items ≡ begins_from first sizes.now) }
{
    let mut found = Vec::new(alloc);
    let mut from = first;
    let mut rest = sizes;
    while let Some((size, after)) = next(rest) {
        found.push(from)?;
        from += *size;
        rest = after;
    }
    Ok(found)
}

/// The sum of the sizes.
pub(crate) fn total(sizes: &[u32]) -> u32
    requires fits { sum sizes.now < 2 ^ 32 }
    ensures { result ≡ sum sizes.now }
{
    let mut total: u32 = 0;
    let mut rest = sizes;
    while let Some((size, after)) = next(rest) {
        total += *size;
        rest = after;
    }
    total
}
