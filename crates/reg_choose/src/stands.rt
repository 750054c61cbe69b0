// Places added to trails.
ghost use Rattle.std.specs.Prelude.{◌≡◌, ℕ, ◌+◌, ◌<◌, ◌&&◌, ◌||◌, not, length, Bool, true, false, cond, eqb, OnOk};
ghost use Rattle.mid_code.specs.Code.{Stop, maybe};
ghost use Rattle.mid_code.specs.Functions.{op_before};
ghost use Rattle.mid_code.specs.Live.{is_among, is_target, is_used};
ghost use Rattle.mid_code.specs.Operands.{listed_uses};
ghost use Rattle.mid_live.specs.Sets.{on};
ghost use Rattle.reg_choose.specs.inner.Trails.{longer, stood, trail_at};
ghost use Rattle.reg_choose.specs.inner.Sparse.{ceases};

use crate::trail::Trail;
use kit_base::Memory;
use mid_code::{Op, Uses};
use mid_live::{Kept, Live};
use std::alloc::Global;

fn with_place(r: Trail, place: u64) -> Trail
    ensures { result ≡ longer place r }
{
    Trail {
        held: true,
        first: if r.held { place.min(r.first) } else { place },
        last: if r.held { place.max(r.last) } else { place },
        crosses: r.crosses,
    }
}

pub(crate) fn stand_one(trails: &mut [Trail], x: usize, place: u64)
    ensures len { length trails.new ≡ length trails.old }
    ensures is { (y : ℕ) → y < length trails.old → trail_at trails.new y ≡ stood (eqb x y || false) place (trail_at trails.old y) }
{
    if x < trails.len() {
        trails[x] = with_place(trails[x], place);
    }
}

/// The place behind a node, added to what is live there and not before it, where more nodes follow.
#[tactic(auto, using(crate::proofs::Walked::ceases_more, crate::proofs::Walked::ceases_none))]
pub(crate) fn cease(
    alloc: Global,
    trails: &mut [Trail],
    behind: &Kept,
    before: &Live,
    place: u64,
    more: bool,
) -> Result<(), Memory>
    ensures len { OnOk result (length trails.new ≡ length trails.old) }
    ensures is { OnOk result ((y : ℕ) → y < length trails.old → trail_at trails.new y
        ≡ stood (ceases (on before.now y) (on behind.now y) more) place (trail_at trails.old y)) }
{
    if more {
        let gone = behind.less(alloc, before)?;
        stand_all(trails, gone.as_slice(), place);
    }
    Ok(())
}

#[tactic(auto, using(crate::proofs::Walked::use_more))]
pub(crate) fn stand_all(trails: &mut [Trail], xs: &[u32], place: u64)
    ensures len { length trails.new ≡ length trails.old }
    ensures is { (y : ℕ) → y < length trails.old → trail_at trails.new y ≡ stood (is_among xs.now y) place (trail_at trails.old y) }
{
    for x in xs {
        stand_one(trails, *x as usize, place);
    }
}

pub(crate) fn stand_maybe(trails: &mut [Trail], x: Option<u32>, place: u64)
    ensures len { length trails.new ≡ length trails.old }
    ensures is { (y : ℕ) → y < length trails.old → trail_at trails.new y ≡ stood (is_among (maybe x) y) place (trail_at trails.old y) }
{
    if let Some(x) = x {
        stand_one(trails, x as usize, place);
    }
}

#[tactic(auto, using(crate::proofs::Walked::use_two))]
fn stand_two(trails: &mut [Trail], a: u32, b: u32, place: u64)
    ensures len { length trails.new ≡ length trails.old }
    ensures is { (y : ℕ) → y < length trails.old → trail_at trails.new y ≡ stood (eqb a y || (eqb b y || false)) place (trail_at trails.old y) }
{
    stand_one(trails, b as usize, place);
    stand_one(trails, a as usize, place);
}

fn stand_each(trails: &mut [Trail], uses: &Uses<'_, u32>, place: u64)
    ensures len { length trails.new ≡ length trails.old }
    ensures is { (y : ℕ) → y < length trails.old → trail_at trails.new y ≡ stood (is_among (listed_uses uses.now) y) place (trail_at trails.old y) }
{
    match uses {
        Uses::Nothing => {}
        Uses::One(a) => stand_one(trails, *a as usize, place),
        Uses::Two(a, b) => stand_two(trails, *a, *b, place),
        Uses::All(args) => stand_all(trails, args, place),
    }
}

pub(crate) fn stand_uses(trails: &mut [Trail], o: &Op<u32>, place: u64)
    ensures len { length trails.new ≡ length trails.old }
    ensures is { (y : ℕ) → y < length trails.old → trail_at trails.new y ≡ stood (is_used (op_before o.now Stop) y) place (trail_at trails.old y) }
{
    stand_each(trails, &o.uses(), place);
}

pub(crate) fn stand_target(trails: &mut [Trail], o: &Op<u32>, place: u64)
    ensures len { length trails.new ≡ length trails.old }
    ensures is { (y : ℕ) → y < length trails.old → trail_at trails.new y ≡ stood (is_target (op_before o.now Stop) y) place (trail_at trails.old y) }
{
    stand_maybe(trails, o.target(), place);
}
