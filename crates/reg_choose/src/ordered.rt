// The spans of temporaries, in the order of their first places.
ghost use Rattle.std.specs.Prelude.{◌≡◌, ℕ, ◌<◌, length, IfOk, map, All};
ghost use Rattle.std.specs.List.Sorted.{IsPermutation, IsNonDecreasingBy};
ghost use Rattle.reg_choose.specs.inner.Handing.{span, spans_from};

use crate::interval::Interval;
use crate::trail::Trail;
use kit_base::Memory;
use std::alloc::Global;

/// The spans of what stands anywhere and is live across no call.
fn intervals(alloc: Global, trails: &[Trail]) -> Result<Vec<Interval>, Memory>
    ensures is { IfOk result (λ v. map span v.items ≡ spans_from 0 trails.now) }
    ensures below { IfOk result (λ v. All (λ s. s.temp < length trails.now) v.items) }
{
    let mut found = Vec::with_capacity(alloc, trails.len())?;
    let mut x = 0;
    while x < trails.len() {
        let r = trails[x];
        if r.held && !r.crosses {
            found.push(Interval {
                temp: x,
                first: r.first,
                last: r.last,
            })?;
        }
        x += 1;
    }
    Ok(found)
}

/// The same, by their first places.
pub(crate) fn in_order(alloc: Global, trails: &[Trail]) -> Result<Vec<Interval>, Memory>
    ensures permutation { IfOk result (λ v. IsPermutation (spans_from 0 trails.now) (map span v.items)) }
    ensures below { IfOk result (λ v. All (λ s. s.temp < length trails.now) v.items) }
    ensures rises { IfOk result (λ v. IsNonDecreasingBy (λ s. s.first) (map span v.items)) }
{
    let mut found = intervals(alloc, trails)?;
    found.sort_by_key(|s| s.first)?;
    Ok(found)
}
