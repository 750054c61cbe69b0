// The slots of a choice, numbered anew.
ghost use Rattle.std.specs.Prelude.{◌≡◌, ◌+◌, ◌<◌, ◌^◌, ℕ, IfOk, OnOk, length};
ghost use Rattle.mid_code.specs.declared.placed.Where.TheVariants.{Slot};
ghost use Rattle.mid_code.specs.Choices.{with_slot, slot_count};
ghost use Rattle.reg_frames.specs.inner.Placing.{index_in, renumbered, placing};
ghost use Rattle.reg_frames.specs.inner.Moved.{stands};

use crate::places::Places;
use crate::slices::next;
use indexmap::IndexSet;
use kit_base::Memory;
use mid_code::Where;
use std::alloc::Global;

/// The new number of a slot, where those before it were named.
#[tactic(auto, using(crate::proofs::Named::key_added, crate::proofs::Named::index_now))]
fn slot_number(named: &mut IndexSet<u32>, number: u32) -> Result<u32, Memory>
    requires few { length named.old.keys < 2 ^ 31 }
    ensures named { OnOk result (named.new.keys ≡ with_slot named.old.keys (Slot number)) }
    ensures number { IfOk result (λ n. n ≡ index_in named.new.keys number) }
{
    let (index, _) = named.insert_full(number)?;
    Ok(index as u32)
}

/// A place with its slot numbered anew.
fn new_place(named: &mut IndexSet<u32>, place: Where) -> Result<Where, Memory>
    requires few { length named.old.keys < 2 ^ 31 }
    ensures named { OnOk result (named.new.keys ≡ with_slot named.old.keys place) }
    ensures place { IfOk result (λ p. p ≡ renumbered named.new.keys place) }
{
    match place {
        Where::Reg(number) => Ok(Where::Reg(number)),
        Where::Slot(number) => Ok(Where::Slot(slot_number(named, number)?)),
    }
}

/// The places of a choice with its slots numbered anew, and how many slots there are.
#[tactic(auto, using(crate::proofs::Steps::count_turn, crate::proofs::Steps::named_turn, crate::proofs::Steps::place_turn, crate::proofs::Steps::places_are))]
pub(crate) fn renumber(alloc: Global, at: &[Where]) -> Result<(Places, u32), Memory>
    requires few { length at.now < 2 ^ 31 }
    ensures places { IfOk result (λ r. (x : ℕ) → stands r.0 x ≡ placing at.now x) }
    ensures count { IfOk result (λ r. r.1 ≡ slot_count at.now) }
{
    let mut named = IndexSet::new(alloc);
    let mut places = Vec::new(alloc);
    let mut rest = at;
    while let Some((place, after)) = next(rest) {
        places.push(new_place(&mut named, *place)?)?;
        rest = after;
    }
    let count = named.len() as u32;
    let other = Where::Slot(slot_number(&mut named, 0)?);
    Ok((Places { at: places, other }, count))
}
