// Which temporary of a set stands at each place.
ghost use Rattle.std.specs.Prelude.{◌≡◌, ℕ, ◌+◌, ◌<◌, ◌≤◌, ◌||◌, ◌&&◌, ◌↔◌, not, IfOk, OnOk, length, Bool, true, false, cond, eqb};
ghost use Rattle.mid_code.specs.Live.{is_among};
ghost use Rattle.mid_live.specs.Sets.{on, room};
ghost use Rattle.reg_choose.specs.inner.Holding.{number_at, IsPlan, Stands, Laid, Made};

use crate::plan::place_number;
use kit_base::Memory;
use mid_code::Where;
use mid_live::{Kept, Live};
use std::alloc::Global;

fn is_there(at: &[Where], s: &Live, x: usize) -> bool
    ensures { (result ≡ true) ↔ ((x < length at.now) × (on s.now x ≡ true)) }
{
    x < at.len() && s.has(x)
}

fn is_new(at: &[Where], s: &Live, x: usize) -> bool
    ensures { (result ≡ true) ↔ ((x < length at.now) × (on s.now x ≡ false)) }
{
    x < at.len() && !s.has(x)
}

/// Takes a temporary out of the set.
pub(crate) fn lift(at: &[Where], numbers: &[usize], s: &mut Live, hs: &mut [usize], x: usize)
    requires plan { IsPlan at.now numbers.now }
    requires stands { Stands at.now s.old hs.old }
    ensures len { length s.new ≡ length s.old }
    ensures is { (y : ℕ) → y < length at.now → on s.new y ≡ cond (eqb x y) false (on s.old y) }
    ensures stands { Stands at.now s.new hs.new }
{
    if is_there(at, s, x) {
        hs[place_number(at, numbers, x)] = 0;
        s.strike(x);
    } else {
        s.strike(x);
    }
}

/// Puts a temporary into the set; false where another one stands at its place.
pub(crate) fn lay(at: &[Where], numbers: &[usize], s: &mut Live, hs: &mut [usize], x: usize) -> bool
    requires plan { IsPlan at.now numbers.now }
    requires stands { Stands at.now s.old hs.old }
    ensures len { length s.new ≡ length s.old }
    ensures laid { Laid at.now (λ y. eqb x y || false) s.old s.new hs.new result }
{
    if !is_new(at, s, x) {
        s.put(x);
        return true;
    }
    let k = place_number(at, numbers, x);
    if hs[k] != 0 {
        return false;
    }
    hs[k] = x + 1;
    s.put(x);
    true
}

/// Puts two into the set, the second one first.
pub(crate) fn lay_two(
    at: &[Where],
    numbers: &[usize],
    s: &mut Live,
    hs: &mut [usize],
    a: u32,
    b: u32,
) -> bool
    requires plan { IsPlan at.now numbers.now }
    requires stands { Stands at.now s.old hs.old }
    ensures len { length s.new ≡ length s.old }
    ensures laid { Laid at.now (λ y. eqb a y || (eqb b y || false)) s.old s.new hs.new result }
{
    if !lay(at, numbers, s, hs, b as usize) {
        return false;
    }
    lay(at, numbers, s, hs, a as usize)
}

pub(crate) fn lay_all(
    at: &[Where],
    numbers: &[usize],
    s: &mut Live,
    hs: &mut [usize],
    xs: &[u32],
) -> bool
    requires plan { IsPlan at.now numbers.now }
    requires stands { Stands at.now s.old hs.old }
    ensures len { length s.new ≡ length s.old }
    ensures laid { Laid at.now (is_among xs.now) s.old s.new hs.new result }
{
    for x in xs {
        if !lay(at, numbers, s, hs, *x as usize) {
            return false;
        }
    }
    true
}

/// Takes these out of the set.
#[tactic(auto, using(crate::proofs::Holders::lift_turn))]
fn lift_all(at: &[Where], numbers: &[usize], s: &mut Live, hs: &mut [usize], xs: &[u32])
    requires plan { IsPlan at.now numbers.now }
    requires stands { Stands at.now s.old hs.old }
    ensures len { length s.new ≡ length s.old }
    ensures is { (y : ℕ) → y < length at.now → on s.new y ≡ (on s.old y && not (is_among xs.now y)) }
    ensures stands { Stands at.now s.new hs.new }
{
    for x in xs {
        lift(at, numbers, s, hs, *x as usize);
    }
}

/// Puts in what another set had.
pub(crate) fn lay_set(
    alloc: Global,
    at: &[Where],
    numbers: &[usize],
    s: &mut Live,
    hs: &mut [usize],
    t: &Kept,
) -> Result<bool, Memory>
    requires plan { IsPlan at.now numbers.now }
    requires stands { Stands at.now s.old hs.old }
    ensures len { OnOk result (length s.new ≡ length s.old) }
    ensures laid { IfOk result (λ b. Laid at.now (on t.now) s.old s.new hs.new b) }
{
    let fresh = t.less(alloc, s)?;
    let fits = lay_all(at, numbers, s, hs, fresh.as_slice());
    Ok(fits)
}

/// Where the set was another one, for which the holders stand, makes them stand for what it is; false where two of it share a place.
pub(crate) fn settle(
    alloc: Global,
    at: &[Where],
    numbers: &[usize],
    s: &mut Live,
    hs: &mut [usize],
    was: &Kept,
) -> Result<bool, Memory>
    requires plan { IsPlan at.now numbers.now }
    requires same { length s.old ≡ length was.now }
    requires stands { Stands at.now was.now hs.old }
    ensures len { OnOk result (length s.new ≡ length s.old) }
    ensures made { IfOk result (λ b. Made at.now s.old s.new hs.new b) }
{
    let target = s.kept(alloc)?;
    let gone = was.less(alloc, s)?;
    s.restore(was);
    lift_all(at, numbers, s, hs, gone.as_slice());
    let fits = lay_set(alloc, at, numbers, s, hs, &target)?;
    Ok(fits)
}
