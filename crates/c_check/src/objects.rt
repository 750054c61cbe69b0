// The globals of a unit.
ghost use Rattle.std.specs.Prelude.{◌≡◌, ◌*◌, ◌^◌, ◌<◌, ◌≤◌, ◌++◌, ◌∷◌, [], sum_by, length, OnOk};

use kit_base::{Memory, Name};
use std::alloc::Global;
use std::marker::Model;

/// The globals so far with their sizes in words, and the sum of these.
#[derive(Drop)]
pub struct Objects {
    items: Vec<(Name, u32)>,
    words: u64,
    ghost summed: { words ≡ sum_by (λ o. o.1) items.items },
    ghost bounded: { words ≤ 4294967295 * length items.items },
    ghost few: { length items.items ≤ 4294967296 },
}

impl Model for Objects {
    ghost use Rattle.std.specs.Prelude.{List, ℕ};

    ghost Value = { List (List ℕ × ℕ) };

    ghost view = { λ o. o.items.items };
}

impl Objects {
    pub(crate) fn new(alloc: Global) -> Objects
        ensures none { result ≡ [] }
    {
        Objects {
            items: Vec::new(alloc),
            words: 0,
        }
    }

    pub(crate) fn words(&self) -> u64
        ensures words { result ≡ sum_by (λ o. o.1) self.now }
    {
        self.words
    }

    /// The number of the next global.
    pub(crate) fn next(&self) -> u32
        requires few { length self.now < 2 ^ 32 }
        ensures next { result ≡ length self.now }
    {
        self.items.len() as u32
    }

    /// Adds the next global. The error is want of memory.
    pub(crate) fn add(&mut self, name: Name, size: u32) -> Result<(), Memory>
        requires few { length self.old < 2 ^ 32 }
        ensures added { OnOk result (self.new ≡ self.old ++ (name, size) ∷ []) }
    {
        self.items.push((name, size))?;
        self.words += size as u64;
        Ok(())
    }

    pub(crate) fn into_vec(self) -> Vec<(Name, u32)>
        ensures globals { result.items ≡ self }
    {
        let Objects { items, words: _ } = self;
        items
    }
}
