// Which words may be other than 0, found by steps over 262,144 bits.
use crate::words::{clear_words, next_held, put_in, strike_from};
use kit_base::Memory;
use std::alloc::Global;
use std::marker::Model;

/// A bit for each word of a list that may be other than 0; and a bit for each word of these bits that may be.
#[derive(Drop)]
pub(crate) struct Marks {
    held: Vec<u64>,
    tops: Vec<u64>,
}

impl Model for Marks {
    ghost use Rattle.std.specs.Prelude.{ℕ, List};

    ghost Value = { List ℕ };

    ghost use Rattle.mid_live.specs.inner.Words.{IsHeld};

    ghost view = { λ m. m.held.items };

    ghost invariant = { λ m. IsHeld m.held.items m.tops.items };
}

ghost use Rattle.std.specs.Prelude.{◌≡◌, ℕ, ◌+◌, ◌*◌, ◌<◌, ◌≤◌, ◌||◌, false, cond, eqb, length, IfOk};
ghost use Rattle.mid_live.specs.Sets.{on, room};

impl Marks {
    /// No bit for any of so many words.
    pub(crate) fn none(alloc: Global, count: usize) -> Result<Marks, Memory>
        requires few { count ≤ 0x400_0000 }
        ensures wide { IfOk result (λ m. count ≤ 64 * length m) }
    {
        let mut held = Vec::new(alloc);
        held.resize(count / 64 + 1, 0)?;
        let mut tops = Vec::new(alloc);
        tops.resize(count / 4096 + 1, 0)?;
        Ok(Marks { held, tops })
    }

    pub(crate) fn put(&mut self, i: usize)
        ensures len { length self.new ≡ length self.old }
        ensures is { (j : ℕ) → j < room self.old → on self.new j ≡ (eqb i j || on self.old j) }
    {
        put_in(&mut self.held, &mut self.tops, i);
    }

    pub(crate) fn strike(&mut self, i: usize)
        ensures len { length self.new ≡ length self.old }
        ensures is { (j : ℕ) → j < room self.old → on self.new j ≡ cond (eqb i j) false (on self.old j) }
    {
        strike_from(&mut self.held, &mut self.tops, i);
    }

    pub(crate) fn clear(&mut self)
        ensures len { length self.new ≡ length self.old }
    {
        clear_words(&mut self.held, &mut self.tops);
    }

    /// No bit stands from this one on and below the answer.
    pub(crate) fn next(&self, i: usize) -> usize
        requires few { i ≤ 0x800_0000 }
        ensures from { i ≤ result }
        ensures few { result ≤ i + 4224 }
        ensures none { (j : ℕ) → i ≤ j → j < result → on self.now j ≡ false }
    {
        next_held(self.held.as_slice(), self.tops.as_slice(), i)
    }
}
