// Register 8 left to immediate operands.
use crate::sharing::immediates::immediates;
use crate::sharing::singles::Count;
use kit_base::Memory;
use mid_code::{Node, Where};
use std::alloc::Global;

/// The register in which the emitter keeps nothing where each temporary that stands there is inside an instruction.
const SPARE: u32 = 8;

fn flag(flags: &[bool], i: usize) -> bool {
    i < flags.len() && flags[i]
}

fn is_any(flags: &[bool]) -> bool {
    for f in flags {
        if *f {
            return true;
        }
    }
    false
}

/// Whether a temporary is named somewhere and no immediate operand.
fn stays(counts: &[Count], immediate: &[bool], i: usize) -> bool {
    i < counts.len() && (counts[i].made > 0 || counts[i].used > 0) && !flag(immediate, i)
}

/// Whether something stands in the register that is named and no immediate operand.
fn is_used(at: &[Where], counts: &[Count], immediate: &[bool], register: u32) -> bool {
    let mut i: usize = 0;
    for w in at {
        if *w == Where::Reg(register) && stays(counts, immediate, i) {
            return true;
        }
        i = i.saturating_add(1);
    }
    false
}

/// A register in which nothing stands but immediate operands.
fn unused(at: &[Where], counts: &[Count], immediate: &[bool]) -> Option<u32> {
    for r in [8, 7, 6, 5, 4, 3, 2, 1, 0] {
        if !is_used(at, counts, immediate, r) {
            return Some(r);
        }
    }
    None
}

fn weight_at(counts: &[Count], i: usize) -> u32 {
    if i < counts.len() {
        counts[i].weight
    } else {
        0
    }
}

/// How much all that is named of immediate operands counts, once for each time they are put.
fn weight_of_immediates(counts: &[Count], immediate: &[bool]) -> u32 {
    let mut sum: u32 = 0;
    let mut i: usize = 0;
    for is in immediate {
        if *is {
            sum = sum.saturating_add(weight_at(counts, i) / 2);
        }
        i = i.saturating_add(1);
    }
    sum
}

/// How much all that is named of others in a register counts.
fn weight_in(at: &[Where], counts: &[Count], immediate: &[bool], register: u32) -> u32 {
    let mut sum: u32 = 0;
    let mut i: usize = 0;
    for w in at {
        if *w == Where::Reg(register) && !flag(immediate, i) {
            sum = sum.saturating_add(weight_at(counts, i));
        }
        i = i.saturating_add(1);
    }
    sum
}

/// The register of which least is named, but for immediate operands.
fn least_named(at: &[Where], counts: &[Count], immediate: &[bool]) -> u32 {
    let mut best = SPARE;
    let mut least = weight_in(at, counts, immediate, SPARE);
    for r in [7, 6, 5, 4, 3, 2, 1, 0] {
        let weight = weight_in(at, counts, immediate, r);
        if weight < least {
            best = r;
            least = weight;
        }
    }
    best
}

/// A slot behind all that are named.
fn slot_behind(at: &[Where]) -> u32 {
    let mut next: u32 = 0;
    for w in at {
        if let Where::Slot(k) = *w {
            next = next.max(k.saturating_add(1));
        }
    }
    next
}

fn put_out_at(at: &mut [Where], immediate: &[bool], i: usize, from: Where, to: Where) {
    if i < at.len() && at[i] == from && !flag(immediate, i) {
        at[i] = to;
    }
}

/// What stands at a place and is no immediate operand, to another place.
fn put_out(at: &mut [Where], immediate: &[bool], from: Where, to: Where) {
    for i in 0..at.len() {
        put_out_at(at, immediate, i, from, to);
    }
}

/// The choice in which what stands in one register goes to a slot, where there are slots already and more is gained by immediate operands than lost by that.
fn made_room(
    alloc: Global,
    ns: &[Node<u32>],
    counts: &[Count],
    at: &[Where],
    immediate: &[bool],
) -> Result<Option<Vec<Where>>, Memory> {
    if slot_behind(at) == 0 {
        return Ok(None);
    }
    let r = least_named(at, counts, immediate);
    let lost = weight_in(at, counts, immediate, r);
    let slot = slot_behind(at);
    let mut other = at.to_vec(alloc)?;
    put_out(
        other.as_mut_slice(),
        immediate,
        Where::Reg(r),
        Where::Slot(slot),
    );
    let left = immediates(alloc, counts, other.as_slice(), ns)?;
    let gained = weight_of_immediates(counts, left.as_slice());
    Ok(if gained > lost { Some(other) } else { None })
}

fn take_spare(at: &mut [Where], i: usize) {
    if i < at.len() {
        at[i] = Where::Reg(SPARE);
    }
}

/// Immediate operands to register 8, and what stood there to another one.
fn spread(at: &mut [Where], immediate: &[bool], other: u32) {
    put_out(at, immediate, Where::Reg(SPARE), Where::Reg(other));
    let mut i: usize = 0;
    for is in immediate {
        if *is {
            take_spare(at, i);
        }
        i = i.saturating_add(1);
    }
}

fn strike_at(single: &mut [bool], i: usize) {
    if i < single.len() {
        single[i] = false;
    }
}

/// An immediate operand goes to no other place.
fn strike_all(single: &mut [bool], immediate: &[bool]) {
    let mut i: usize = 0;
    for is in immediate {
        if *is {
            strike_at(single, i);
        }
        i = i.saturating_add(1);
    }
}

/// The same where a register is unused; whether register 8 is left to some.
fn place_all(counts: &[Count], single: &mut [bool], at: &mut [Where], immediate: &[bool]) -> bool {
    let Some(other) = unused(at, counts, immediate) else {
        return false;
    };
    spread(at, immediate, other);
    strike_all(single, immediate);
    is_any(immediate)
}

/// Puts immediate operands into register 8, where another one is unused for what stood there; the emitter has them inside instructions then, and none puts
/// them anywhere. They are single no more. Whether register 8 is left to them.
pub(crate) fn leave_register(
    alloc: Global,
    ns: &[Node<u32>],
    counts: &[Count],
    single: &mut [bool],
    at: &mut [Where],
) -> Result<bool, Memory> {
    let found = immediates(alloc, counts, at, ns)?;
    if unused(at, counts, found.as_slice()).is_some() {
        return Ok(place_all(counts, single, at, found.as_slice()));
    }
    let Some(other) = made_room(alloc, ns, counts, at, found.as_slice())? else {
        return Ok(false);
    };
    let left = immediates(alloc, counts, other.as_slice(), ns)?;
    if unused(other.as_slice(), counts, left.as_slice()).is_some() && other.len() == at.len() {
        at.copy_from_slice(other.as_slice());
        return Ok(place_all(counts, single, at, left.as_slice()));
    }
    Ok(false)
}
