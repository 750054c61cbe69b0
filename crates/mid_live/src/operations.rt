// What operations and returns do to a live set.
ghost use Rattle.std.specs.Prelude.{◌≡◌, ℕ, ◌<◌, ◌||◌, length, false, cond};
ghost use Rattle.mid_code.specs.Code.{Stop, maybe};
ghost use Rattle.mid_code.specs.Functions.{op_before};
ghost use Rattle.mid_code.specs.Operands.{listed_uses};
ghost use Rattle.mid_code.specs.Live.{is_live, is_among, is_used, is_target};
ghost use Rattle.mid_live.specs.Sets.{on, room};
ghost use Rattle.mid_live.specs.Labels.{labels_of};

use crate::labels::Labels;
use crate::live::Live;
use mid_code::{Op, Uses};

#[tactic(auto, using(crate::proofs::Facts::or_swap))]
fn put_all(s: &mut Live, xs: &[u32])
    ensures len { length s.new ≡ length s.old }
    ensures is { (y : ℕ) → y < room s.old → on s.new y ≡ (is_among xs.now y || on s.old y) }
{
    for x in xs {
        s.put(*x as usize);
    }
}

#[tactic(auto, using(crate::proofs::Facts::or_all))]
fn put_each(s: &mut Live, uses: &Uses<'_, u32>)
    ensures len { length s.new ≡ length s.old }
    ensures is { (y : ℕ) → y < room s.old → on s.new y ≡ (is_among (listed_uses uses.now) y || on s.old y) }
{
    match uses {
        Uses::Nothing => {}
        Uses::One(a) => s.put(*a as usize),
        Uses::Two(a, b) => {
            s.put(*b as usize);
            s.put(*a as usize);
        }
        Uses::All(args) => put_all(s, args),
    }
}

/// Puts in what an operation uses.
pub fn put_uses(s: &mut Live, o: &Op<u32>)
    ensures len { length s.new ≡ length s.old }
    ensures is { (y : ℕ) → y < room s.old → on s.new y ≡ (is_used (op_before o.now Stop) y || on s.old y) }
{
    put_each(s, &o.uses());
}

/// Takes the temporary out, where there is one.
fn strike_maybe(s: &mut Live, t: Option<u32>)
    ensures len { length s.new ≡ length s.old }
    ensures is { (y : ℕ) → y < room s.old → on s.new y ≡ cond (is_among (maybe t) y) false (on s.old y) }
{
    if let Some(t) = t {
        s.strike(t as usize);
    }
}

/// Takes out the target of an operation, where it has one.
pub fn strike_target(s: &mut Live, o: &Op<u32>)
    ensures len { length s.new ≡ length s.old }
    ensures is { (y : ℕ) → y < room s.old → on s.new y ≡ cond (is_target (op_before o.now Stop) y) false (on s.old y) }
{
    strike_maybe(s, o.target());
}

/// Makes the set, of what is live behind an operation, what is live before it.
#[tactic(auto, using(crate::proofs::Facts::op_live))]
pub fn before_op(o: &Op<u32>, m: &Labels, s: &mut Live)
    ensures len { length s.new ≡ length s.old }
    ensures is { (y : ℕ) → y < room s.old → on s.new y ≡ is_live y (labels_of y m.now) (op_before o.now Stop) (on s.old y) }
{
    strike_target(s, o);
    put_uses(s, o);
}

/// Makes the set what is live before a return: the temporary that it gives, where there is one.
pub fn at_return(p: &Option<u32>, s: &mut Live)
    ensures len { length s.new ≡ length s.old }
    ensures is { (y : ℕ) → y < room s.old → on s.new y ≡ is_among (maybe p.now) y }
{
    s.clear();
    if let Some(p) = p {
        s.put(*p as usize);
    }
}
