// What a table has of each temporary.
ghost use Rattle.std.specs.Prelude.{◌≡◌, ℕ, ◌<◌, ◌+◌, length, set, IfOk, OnErr, OnOk, Option, Some, None};
ghost use Rattle.mid_improve.specs.inner.Slots.{no_slot, slot_at, with_slot, changed, holding, facts_in, fact_in};
ghost use Rattle.mid_improve.specs.inner.Facts.{fact_word, fact_source};

use kit_base::Memory;

/// What a temporary has: a word, or the cell of another temporary, which had taken so many cells by then.
#[derive(Clone, Copy)]
pub(crate) enum Held {
    Nothing,
    Word(u32),
    Copy(u32, u64),
}

/// What a temporary has, in which stretch of nodes that was put there, and how many cells it took.
#[derive(Clone, Copy)]
pub(crate) struct Slot {
    pub held: Held,
    pub stretch: u64,
    pub changes: u64,
}

fn no_slot() -> Slot
    ensures { result ≡ no_slot }
{
    Slot {
        held: Held::Nothing,
        stretch: 0,
        changes: 0,
    }
}

/// The slot of a temporary.
#[tactic(auto, unfolding(crate::specs::inner::Slots::slot_at))]
fn slot_of(slots: &[Slot], q: u32) -> Slot
    ensures { result ≡ slot_at slots.now q }
{
    match slots.get(q as usize) {
        None => no_slot(),
        Some(s) => *s,
    }
}

#[tactic(auto, using(crate::proofs::Tabled::no_word))]
fn held_word(held: Held) -> Option<u32>
    ensures { (at : ℕ → Slot) → result ≡ fact_word (fact_in at held) }
{
    match held {
        Held::Nothing => None,
        Held::Word(word) => Some(word),
        Held::Copy(_, _) => None,
    }
}

fn held_source(slots: &[Slot], held: Held) -> Option<u32>
    ensures { result ≡ fact_source (fact_in (slot_at slots.now) held) }
{
    match held {
        Held::Nothing => None,
        Held::Word(_) => None,
        Held::Copy(a, stamp) => {
            if stamp == slot_of(slots, a).changes {
                Some(a)
            } else {
                None
            }
        }
    }
}

/// The word of a temporary, where it is known.
pub(crate) fn find_word(slots: &[Slot], stretch: u64, q: u32) -> Option<u32>
    ensures { result ≡ fact_word (facts_in (slot_at slots.now) stretch q) }
{
    let s = slot_of(slots, q);
    if s.stretch == stretch {
        held_word(s.held)
    } else {
        None
    }
}

/// The other temporary whose cell it has, where that is known.
pub(crate) fn find_source(slots: &[Slot], stretch: u64, q: u32) -> Option<u32>
    ensures { result ≡ fact_source (facts_in (slot_at slots.now) stretch q) }
{
    let s = slot_of(slots, q);
    if s.stretch == stretch {
        held_source(slots, s.held)
    } else {
        None
    }
}

/// Adds slots until a temporary has one.
#[tactic(auto, using(crate::proofs::Slotted::one_more))]
fn reach(slots: &mut Vec<Slot>, t: u32) -> Result<(), Memory>
    ensures same { slot_at slots.new.items ≡ slot_at slots.old.items }
    ensures there { OnOk result (t < length slots.new.items) }
{
    'reach: while slots.len() <= t as usize {
        slots.push(no_slot())?;
    }
    Ok(())
}

fn set_slot(slots: &mut Vec<Slot>, t: u32, s: Slot)
    ensures { slots.new.items ≡ set slots.old.items t s }
{
    if (t as usize) < slots.len() {
        slots[t as usize] = s;
    }
}

/// Puts a slot in the place of that of a temporary.
#[tactic(auto, using(crate::proofs::Slotted::put_after))]
fn put(slots: &mut Vec<Slot>, t: u32, s: Slot) -> Result<(), Memory>
    ensures put { OnOk result (slot_at slots.new.items ≡ with_slot (slot_at slots.old.items) t s) }
    ensures same { OnErr result (slot_at slots.new.items ≡ slot_at slots.old.items) }
{
    reach(slots, t)?;
    set_slot(slots, t, s);
    Ok(())
}

/// One more. Where it has no word of 64 bits it is told as want of memory: no memory holds so many nodes.
pub(crate) fn one_more(count: u64) -> Result<u64, Memory>
    ensures { IfOk result (λ n. n ≡ count + 1) }
{
    match count.checked_add(1) {
        Some(n) => Ok(n),
        None => Err(Memory),
    }
}

/// The temporary takes another cell.
pub(crate) fn change(slots: &mut Vec<Slot>, t: u32) -> Result<(), Memory>
    ensures put { OnOk result (slot_at slots.new.items
        ≡ with_slot (slot_at slots.old.items) t (changed ((slot_at slots.old.items t).changes + 1) (slot_at slots.old.items t))) }
    ensures same { OnErr result (slot_at slots.new.items ≡ slot_at slots.old.items) }
{
    let s = slot_of(slots.as_slice(), t);
    let changes = one_more(s.changes)?;
    put(
        slots,
        t,
        Slot {
            held: Held::Nothing,
            stretch: s.stretch,
            changes,
        },
    )
}

/// The temporary has this.
pub(crate) fn hold(slots: &mut Vec<Slot>, stretch: u64, t: u32, held: Held) -> Result<(), Memory>
    ensures put { OnOk result (slot_at slots.new.items ≡ with_slot (slot_at slots.old.items) t (holding held stretch (slot_at slots.old.items t))) }
    ensures same { OnErr result (slot_at slots.new.items ≡ slot_at slots.old.items) }
{
    let s = slot_of(slots.as_slice(), t);
    put(
        slots,
        t,
        Slot {
            held,
            stretch,
            changes: s.changes,
        },
    )
}

/// How many cells a temporary took.
pub(crate) fn changes_of(slots: &[Slot], q: u32) -> u64
    ensures { result ≡ (slot_at slots.now q).changes }
{
    slot_of(slots, q).changes
}
