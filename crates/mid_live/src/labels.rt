// What is live at the ends and the beginnings of what encloses a point.
ghost use Rattle.std.specs.Prelude.{◌≡◌, ◌∷◌, [], ℕ, ◌<◌, ◌||◌, ◌&&◌, not, length, IfOk};
ghost use Rattle.mid_code.specs.Live.{label, ends_of, begins_of, is_among};
ghost use Rattle.mid_live.specs.Sets.{on, room};
ghost use Rattle.mid_live.specs.Labels.{labels_of};

use crate::live::{Kept, Live};
use kit_base::Memory;
use std::alloc::Global;

/// What is live where the enclosing blocks and loops begin anew and where they end.
#[derive(Drop)]
pub enum Labels<'a> {
    Outside,
    Inside(&'a Kept, &'a Kept, &'a Labels<'a>),
}

/// Nothing encloses the point.
pub fn outside<'a>() -> Labels<'a>
    ensures { (y : ℕ) → labels_of y result ≡ [] }
{
    Labels::Outside
}

/// A block or a loop more, the innermost one: what is live where it begins anew, and where it ends.
pub fn nested<'a>(begins: &'a Kept, ends: &'a Kept, around: &'a Labels<'a>) -> Labels<'a>
    ensures { (y : ℕ) → labels_of y result ≡ label (on begins.now y) (on ends.now y) ∷ labels_of y around.now }
{
    Labels::Inside(begins, ends, around)
}

/// Makes the set what is live where the k-th enclosing block or loop ends, counted outwards from 0; none where there is none.
#[tactic(auto, using(crate::proofs::Facts::ends_below))]
pub fn at_end(m: &Labels, k: u32, s: &mut Live)
    ensures len { length s.new ≡ length s.old }
    ensures is { (y : ℕ) → y < room s.old → on s.new y ≡ ends_of (labels_of y m.now) k }
{
    match m {
        Labels::Outside => s.clear(),
        Labels::Inside(_, e, rest) => {
            if k == 0 {
                s.set_to(e);
            } else {
                at_end(rest, k - 1, s);
            }
        }
    }
}

/// Makes the set what is live where the k-th enclosing block or loop begins anew.
#[tactic(auto, using(crate::proofs::Facts::begins_below))]
pub fn at_begin(m: &Labels, k: u32, s: &mut Live)
    ensures len { length s.new ≡ length s.old }
    ensures is { (y : ℕ) → y < room s.old → on s.new y ≡ begins_of (labels_of y m.now) k }
{
    match m {
        Labels::Outside => s.clear(),
        Labels::Inside(b, _, rest) => {
            if k == 0 {
                s.set_to(b);
            } else {
                at_begin(rest, k - 1, s);
            }
        }
    }
}

/// Puts in what is live where the k-th enclosing block or loop begins anew.
#[tactic(auto, using(crate::proofs::Facts::begins_below, crate::proofs::Facts::or_none))]
pub(crate) fn join_begin(m: &Labels, k: u32, s: &mut Live)
    ensures len { length s.new ≡ length s.old }
    ensures is { (y : ℕ) → y < room s.old → on s.new y ≡ (on s.old y || begins_of (labels_of y m.now) k) }
{
    match m {
        Labels::Outside => {}
        Labels::Inside(b, _, rest) => {
            if k == 0 {
                s.join(b);
            } else {
                join_begin(rest, k - 1, s);
            }
        }
    }
}

/// Those that are live where the k-th enclosing block or loop begins anew, and are not in the set. The error is want of memory.
#[tactic(auto, using(crate::proofs::Facts::begins_below))]
pub fn begin_less(alloc: Global, m: &Labels, k: u32, s: &Live) -> Result<Vec<u32>, Memory>
    ensures { IfOk result (λ v. (y : ℕ) → is_among v.items y ≡ (begins_of (labels_of y m.now) k && not (on s.now y))) }
{
    match m {
        Labels::Outside => Ok(Vec::new(alloc)),
        Labels::Inside(b, _, rest) => {
            if k == 0 {
                let found = b.less(alloc, s)?;
                Ok(found)
            } else {
                let found = begin_less(alloc, rest, k - 1, s)?;
                Ok(found)
            }
        }
    }
}
