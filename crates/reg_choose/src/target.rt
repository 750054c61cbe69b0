// What an operation does to a set, and whether its target is free.
ghost use Rattle.std.specs.Prelude.{◌≡◌, ◌≢◌, ℕ, ◌<◌, ◌↔◌, length, Bool, true, false, cond, Some, IfSome};
ghost use Rattle.mid_code.specs.Code.{Stop, maybe};
ghost use Rattle.mid_code.specs.Functions.{op_before, DoN};
ghost use Rattle.mid_code.specs.Live.{is_among, is_used, is_target};
ghost use Rattle.mid_code.specs.Operands.{listed_uses};
ghost use Rattle.mid_code.specs.declared.placed.Where.TheVariants.{Reg};
ghost use Rattle.mid_code.specs.Safe.{place_of, IsSlot};
ghost use Rattle.mid_live.specs.Sets.{on};
ghost use Rattle.mid_live.specs.Labels.{labels_of};
ghost use Rattle.reg_choose.specs.inner.Checked.{FreeIn, TargetIn};
ghost use Rattle.reg_choose.specs.inner.Holding.{IsPlan, Stands, Laid, NodeTried};

use crate::hold::{lay, lay_all, lay_two, lift};
use crate::plan::place_number;
use mid_code::{Op, Uses, Where};
use mid_live::{Labels, Live};

/// Whether no other temporary of the set stands at the place of one.
fn free(at: &[Where], numbers: &[usize], s: &Live, hs: &[usize], t: u32) -> bool
    requires plan { IsPlan at.now numbers.now }
    requires stands { Stands at.now s.now hs.now }
    ensures { (result ≡ true) ↔ FreeIn (length at.now) at.now (Some t) (on s.now) }
{
    let held = hs[place_number(at, numbers, t as usize)];
    held == 0 || held - 1 == t as usize
}

fn free_maybe(at: &[Where], numbers: &[usize], s: &Live, hs: &[usize], t: Option<u32>) -> bool
    requires plan { IsPlan at.now numbers.now }
    requires stands { Stands at.now s.now hs.now }
    ensures { (result ≡ true) ↔ FreeIn (length at.now) at.now t (on s.now) }
{
    match t {
        Some(t) => free(at, numbers, s, hs, t),
        None => true,
    }
}

fn is_it(t: &Option<u32>, y: usize) -> bool
    ensures { (result ≡ true) ↔ (t.now ≡ Some y) }
{
    match t {
        Some(t) => *t as usize == y,
        None => false,
    }
}

/// Whether every temporary of the set but one stands in a slot.
fn slots(at: &[Where], s: &Live, hs: &[usize], t: &Option<u32>) -> bool
    requires chosen { (x r : ℕ) → place_of at.now x ≡ Reg r → r < 9 }
    requires stands { Stands at.now s.now hs.now }
    ensures { (result ≡ true) ↔ ((y : ℕ) → y < length at.now → on s.now y ≡ true → t.now ≢ Some y → IsSlot (place_of at.now y)) }
{
    let mut r = 0;
    while r < 9 {
        if hs[r] != 0 && !is_it(t, hs[r] - 1) {
            return false;
        }
        r += 1;
    }
    true
}

/// Whether the target of an operation shares no place with another temporary of the set, and at a call all others of the set have slots.
fn target_free(at: &[Where], numbers: &[usize], s: &Live, hs: &[usize], o: &Op<u32>) -> bool
    requires plan { IsPlan at.now numbers.now }
    requires stands { Stands at.now s.now hs.now }
    ensures { (result ≡ true) ↔ TargetIn (length at.now) at.now (op_before o.now Stop) (on s.now) }
{
    match o {
        Op::Call(t, _, _) => free_maybe(at, numbers, s, hs, *t) && slots(at, s, hs, t),
        _ => free_maybe(at, numbers, s, hs, o.target()),
    }
}

fn lift_maybe(at: &[Where], numbers: &[usize], s: &mut Live, hs: &mut [usize], t: Option<u32>)
    requires plan { IsPlan at.now numbers.now }
    requires stands { Stands at.now s.old hs.old }
    ensures len { length s.new ≡ length s.old }
    ensures is { (y : ℕ) → y < length at.now → on s.new y ≡ cond (is_among (maybe t) y) false (on s.old y) }
    ensures stands { Stands at.now s.new hs.new }
{
    if let Some(t) = t {
        lift(at, numbers, s, hs, t as usize);
    }
}

/// Takes the target out of the set.
#[tactic(auto, using(mid_live::proofs::Facts::or_none))]
fn lift_target(at: &[Where], numbers: &[usize], s: &mut Live, hs: &mut [usize], o: &Op<u32>)
    requires plan { IsPlan at.now numbers.now }
    requires stands { Stands at.now s.old hs.old }
    ensures len { length s.new ≡ length s.old }
    ensures is { (y : ℕ) → y < length at.now → on s.new y ≡ cond (is_target (op_before o.now Stop) y) false (on s.old y) }
    ensures stands { Stands at.now s.new hs.new }
{
    lift_maybe(at, numbers, s, hs, o.target());
}

fn lay_each(
    at: &[Where],
    numbers: &[usize],
    s: &mut Live,
    hs: &mut [usize],
    uses: &Uses<'_, u32>,
) -> bool
    requires plan { IsPlan at.now numbers.now }
    requires stands { Stands at.now s.old hs.old }
    ensures len { length s.new ≡ length s.old }
    ensures laid { Laid at.now (is_among (listed_uses uses.now)) s.old s.new hs.new result }
{
    match uses {
        Uses::Nothing => true,
        Uses::One(a) => lay(at, numbers, s, hs, *a as usize),
        Uses::Two(a, b) => lay_two(at, numbers, s, hs, *a, *b),
        Uses::All(args) => lay_all(at, numbers, s, hs, args),
    }
}

/// Puts what an operation uses into the set.
fn lay_uses(at: &[Where], numbers: &[usize], s: &mut Live, hs: &mut [usize], o: &Op<u32>) -> bool
    requires plan { IsPlan at.now numbers.now }
    requires stands { Stands at.now s.old hs.old }
    ensures len { length s.new ≡ length s.old }
    ensures laid { Laid at.now (λ y. is_used (op_before o.now Stop) y) s.old s.new hs.new result }
{
    lay_each(at, numbers, s, hs, &o.uses())
}

/// Makes the set what is live before an operation; false where its target is not free, or two share a place.
pub(crate) fn try_op(
    at: &[Where],
    numbers: &[usize],
    m: &Labels,
    s: &mut Live,
    hs: &mut [usize],
    o: &Op<u32>,
) -> bool
    requires plan { IsPlan at.now numbers.now }
    requires stands { Stands at.now s.old hs.old }
    ensures len { length s.new ≡ length s.old }
    ensures tried { NodeTried at.now (λ y. labels_of y m.now) (DoN o.now) s.old s.new hs.new result }
{
    if !target_free(at, numbers, s, hs, o) {
        return false;
    }
    lift_target(at, numbers, s, hs, o);
    lay_uses(at, numbers, s, hs, o)
}
