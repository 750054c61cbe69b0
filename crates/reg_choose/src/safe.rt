// Whether a choice is safe.
ghost use Rattle.std.specs.Prelude.{◌≡◌, ℕ, suc, ◌+◌, ◌<◌, ◌≤◌, ◌↔◌, length, IfOk, Bool, true, false};
ghost use Rattle.mid_code.specs.Functions.{function};
ghost use Rattle.mid_code.specs.Invariants.{Names, AllOf, IsTemporary};
ghost use Rattle.mid_code.specs.Live.{is_among};
ghost use Rattle.mid_code.specs.Safe.{IsSafe, IsChosen, AllPlaces};
ghost use Rattle.mid_live.specs.Sets.{on, room};
ghost use Rattle.reg_choose.specs.inner.Checked.{ApartIn};
ghost use Rattle.reg_choose.specs.inner.Holding.{slots_in, IsPlan, Stands};

use crate::checks::{Check, try_nodes};
use crate::hold::lay_all;
use crate::plan::plan;
use kit_base::Memory;
use mid_code::{Choice, Function, Where};
use mid_live::{Live, heads_in, outside};
use std::alloc::Global;

fn is_chosen(w: Where) -> bool
    ensures { (result ≡ true) ↔ IsChosen w }
{
    match w {
        Where::Reg(number) => number < 9,
        Where::Slot(_) => true,
    }
}

fn all_chosen(at: &[Where]) -> bool
    ensures { (result ≡ true) ↔ AllPlaces IsChosen at.now }
{
    for w in at {
        if !is_chosen(*w) {
            return false;
        }
    }
    true
}

/// Holders of no set: one for each register, and one for each slot that is named.
#[tactic(auto, using(crate::proofs::Planned::none_stands))]
fn no_holders(alloc: Global, at: &[Where], slots: usize, s: &Live) -> Result<Vec<usize>, Memory>
    requires chosen { AllPlaces IsChosen at.now }
    requires slots { slots ≡ suc (length (slots_in at.now)) }
    requires wide { length at.now ≤ room s.now }
    requires nothing { (y : ℕ) → on s.now y ≡ false }
    ensures { IfOk result (λ v. Stands at.now s.now v.items) }
{
    let mut held = Vec::new(alloc);
    held.resize(slots.saturating_add(10), 0)?;
    Ok(held)
}

/// Whether no two of these share a place.
fn apart(
    alloc: Global,
    at: &[Where],
    numbers: &[usize],
    slots: usize,
    xs: &[u32],
) -> Result<bool, Memory>
    requires chosen { AllPlaces IsChosen at.now }
    requires plan { IsPlan at.now numbers.now }
    requires slots { slots ≡ suc (length (slots_in at.now)) }
    ensures { IfOk result (λ b. (b ≡ true) ↔ ApartIn (length at.now) at.now (is_among xs.now)) }
{
    let mut s = Live::none(alloc, at.len())?;
    let mut held = no_holders(alloc, at, slots, &s)?;
    let fits = lay_all(at, numbers, &mut s, held.as_mut_slice(), xs);
    Ok(fits)
}

/// Whether the choice is safe for the function, whose temporaries are named by numbers below their count. It is computed by live sets alone. A
/// choice without one place per temporary is not safe. `Memory` comes only where the live sets find no room.
pub fn is_safe(alloc: Global, f: &Function<u32>, c: &Choice) -> Result<bool, Memory>
    requires names { Names (IsTemporary (function f.now)) (function f.now).body }
    requires params { AllOf (IsTemporary (function f.now)) (function f.now).params }
    ensures { IfOk result (λ b. (b ≡ true) ↔ IsSafe (function f.now) c.now.at) }
{
    let at = c.at.as_slice();
    if at.len() != f.temps as usize || !all_chosen(at) {
        return Ok(false);
    }
    let (numbers, slots) = plan(alloc, at)?;
    if !apart(alloc, at, numbers.as_slice(), slots, f.params.as_slice())? {
        return Ok(false);
    }
    let mut behind = Live::none(alloc, at.len() + 1)?;
    let heads = heads_in(alloc, f.body.as_slice(), &mut behind, at.len())?;
    let mut next = 0;
    let mut held = no_holders(alloc, at, slots, &behind)?;
    let check = Check {
        at,
        numbers: numbers.as_slice(),
        heads: heads.as_slice(),
    };
    let safe = try_nodes(
        alloc,
        &check,
        f.body.as_slice(),
        &outside(),
        &mut behind,
        held.as_mut_slice(),
        &mut next,
    )?;
    Ok(safe)
}
