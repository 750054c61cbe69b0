// What is known in a run, in a table.
ghost use Rattle.std.specs.Prelude.{◌≡◌, ℕ, true};
ghost use Rattle.mid_improve.specs.inner.Slots.{slot_at, is_past};

use crate::slots::{Held, Slot, change, changes_of, find_source, find_word, hold, one_more};
use kit_base::Memory;
use std::alloc::Global;

/// The temporaries whose word is known, and those that have the cell of another one. What is asked or changed costs no more where much is known.
#[derive(Drop)]
pub(crate) struct Table {
    slots: Vec<Slot>,
    stretch: u64,
    ghost past: { (q : ℕ) → is_past (slot_at slots.items) stretch q ≡ true },
}

impl Table {
    ghost use Rattle.std.specs.Prelude.{OnOk, ◌≡◌, eqb, false};
    ghost use Rattle.mid_improve.specs.inner.Facts.{none_known, behind, with_fact, IsWord, IsCopy, fact_word, fact_source};
    ghost use Rattle.mid_improve.specs.inner.Tables.{facts};

    /// Nothing is known.
    pub(crate) fn none(alloc: Global) -> Table
        ensures { facts result ≡ none_known }
    {
        Table {
            slots: Vec::new(alloc),
            stretch: 0,
        }
    }

    /// The word of a temporary, where it is known.
    #[tactic(auto, unfolding(crate::specs::inner::Tables::facts))]
    pub(crate) fn word(&self, q: u32) -> Option<u32>
        ensures { result ≡ fact_word (facts self.now q) }
    {
        find_word(self.slots.as_slice(), self.stretch, q)
    }

    /// The other temporary whose cell it has, where that is known.
    #[tactic(auto, unfolding(crate::specs::inner::Tables::facts))]
    pub(crate) fn source(&self, q: u32) -> Option<u32>
        ensures { result ≡ fact_source (facts self.now q) }
    {
        find_source(self.slots.as_slice(), self.stretch, q)
    }

    /// The temporary takes another cell.
    #[tactic(auto, using(crate::proofs::Tabled::past_same, crate::proofs::Tabled::past_changed))]
    pub(crate) fn change(&mut self, t: u32) -> Result<(), Memory>
        ensures { OnOk result (facts self.new ≡ behind (facts self.old) t) }
    {
        change(&mut self.slots, t)?;
        Ok(())
    }

    /// The temporary has this word.
    #[tactic(auto, using(crate::proofs::Tabled::past_same, crate::proofs::Tabled::past_word))]
    pub(crate) fn hold_word(&mut self, t: u32, word: u32) -> Result<(), Memory>
        ensures { OnOk result (facts self.new ≡ with_fact t (IsWord word) (facts self.old)) }
    {
        hold(&mut self.slots, self.stretch, t, Held::Word(word))?;
        Ok(())
    }

    /// The temporary has the cell of another one.
    #[tactic(auto, using(crate::proofs::Tabled::past_same, crate::proofs::Tabled::past_copy))]
    pub(crate) fn hold_copy(&mut self, t: u32, a: u32) -> Result<(), Memory>
        ensures { OnOk result (facts self.new ≡ with_fact t (IsCopy a) (facts self.old)) }
    {
        let stamp = changes_of(self.slots.as_slice(), a);
        hold(&mut self.slots, self.stretch, t, Held::Copy(a, stamp))?;
        Ok(())
    }

    /// Nothing is known any more.
    #[tactic(auto, using(crate::proofs::Tabled::past_later))]
    pub(crate) fn clear(&mut self) -> Result<(), Memory>
        ensures { OnOk result (facts self.new ≡ none_known) }
    {
        self.stretch = one_more(self.stretch)?;
        Ok(())
    }
}
