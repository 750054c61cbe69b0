// The choice of places.
ghost use Rattle.std.specs.Prelude.{◌≡◌, ℕ, ◌<◌, ◌^◌, length, IfOk, map, true, All};
ghost use Rattle.mid_code.specs.Functions.{function};
ghost use Rattle.mid_code.specs.Invariants.{Names, AllOf, IsTemporary};
ghost use Rattle.mid_code.specs.Safe.{IsSafe, SparesSlots};
ghost use Rattle.reg_choose.specs.inner.Scan.{scan, AllG, Has};
ghost use Rattle.reg_choose.specs.inner.Trails.{trail_at};
ghost use Rattle.reg_choose.specs.inner.Handing.{span, flag, kept, got, give, first_got, numbered};

use crate::gather::trails_of;
use crate::interval::Interval;
use crate::ordered::in_order;
use crate::registers::{hand_out, put_out_longest};
use crate::trail::Trail;
use kit_base::{Memory, Seq};
use mid_code::{Choice, Function, Where};
use std::alloc::Global;

/// Of each temporary whether it is live across a call.
fn crossing(alloc: Global, trails: &[Trail]) -> Result<Vec<bool>, Memory>
    ensures { IfOk result (λ v. v.items ≡ map (λ r. r.crosses) trails.now) }
{
    let mut found = Vec::with_capacity(alloc, trails.len())?;
    for r in trails {
        found.push(r.crosses)?;
    }
    Ok(found)
}

/// What each temporary has before the scan: a slot, where it is put out.
fn beginning(alloc: Global, out: &[bool]) -> Result<Vec<Option<u32>>, Memory>
    ensures { IfOk result (λ v. v.items ≡ map first_got out.now) }
{
    let mut given = Vec::with_capacity(alloc, out.len())?;
    for o in out {
        given.push(if *o { None } else { Some(0) })?;
    }
    Ok(given)
}

/// The places, with slots by their numbers from 0 on.
fn places(alloc: Global, given: &[Option<u32>]) -> Result<Vec<Where>, Memory>
    requires few { length given.now < 2 ^ 32 }
    ensures { IfOk result (λ v. v.items ≡ numbered 0 given.now) }
{
    let mut at = Vec::with_capacity(alloc, given.len())?;
    let mut slots = 0;
    for g in given {
        match g {
            Some(register) => at.push(Where::Reg(*register))?,
            None => {
                at.push(Where::Slot(slots))?;
                slots += 1;
            }
        }
    }
    Ok(at)
}

/// Of each temporary whether it gets a slot before registers are handed out: what is live across a call, and the longest where more than nine
/// spans meet.
fn put_out(alloc: Global, trails: &[Trail], spans: &[Interval]) -> Result<Vec<bool>, Memory>
    ensures len { IfOk result (λ v. length v.items ≡ length trails.now) }
    ensures crossing { IfOk result (λ v. (x : ℕ) → (trail_at trails.now x).crosses ≡ true → flag v.items x ≡ true) }
    ensures spared { IfOk result (λ v. AllG Has (scan (λ r. 0) (map span spans.now)) → (x : ℕ) → flag v.items x ≡ (trail_at trails.now x).crosses) }
{
    let mut out = crossing(alloc, trails)?;
    put_out_longest(spans, out.as_mut_slice());
    Ok(out)
}

/// What each temporary has after registers are handed out: a register, or none where it gets a slot.
fn registers(alloc: Global, spans: &[Interval], out: &[bool]) -> Result<Vec<Option<u32>>, Memory>
    requires below { All (λ s. s.temp < length out.now) spans.now }
    ensures len { IfOk result (λ v. length v.items ≡ length out.now) }
    ensures is { IfOk result (λ v. got v.items ≡ give (got (map first_got out.now)) (λ r. 0) (kept (flag out.now) (map span spans.now))) }
{
    let mut given = beginning(alloc, out)?;
    hand_out(spans, out, given.as_mut_slice());
    Ok(given)
}

/// A safe choice for the function, whose temporaries are named by numbers below their count. Registers are handed out by one scan over the spans of
/// temporaries; what is live across a call gets a slot, and where more than nine spans meet those that end last. Slots are numbered from 0 on
/// without gaps. `Memory` comes only where the live sets, spans and places find no room.
pub fn choose(alloc: Global, f: &Function<u32>) -> Result<Choice, Memory>
    requires names { Names (IsTemporary (function f.now)) (function f.now).body }
    requires params { AllOf (IsTemporary (function f.now)) (function f.now).params }
    ensures safe { IfOk result (λ c. IsSafe (function f.now) c.at) }
    ensures spares { IfOk result (λ c. SparesSlots (function f.now) c.at) }
{
    let trails = trails_of(alloc, f)?;
    let spans = in_order(alloc, trails.as_slice())?;
    let out = put_out(alloc, trails.as_slice(), spans.as_slice())?;
    let given = registers(alloc, spans.as_slice(), out.as_slice())?;
    let at = places(alloc, given.as_slice())?;
    Ok(Choice {
        at: Seq::from_vec(at),
    })
}
