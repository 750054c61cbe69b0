// The sizes of the objects of a function's call.
ghost use Rattle.std.specs.Prelude.{◌≡◌, ◌<◌, ◌^◌, ◌++◌, ◌∷◌, [], length, OnOk};

use kit_base::Memory;
use std::alloc::Global;
use std::marker::Model;

/// The sizes so far, in words, by the objects' numbers.
#[derive(Drop)]
pub(crate) struct Sizes {
    items: Vec<u32>,
}

impl Model for Sizes {
    ghost use Rattle.std.specs.Prelude.{List, ℕ};

    ghost Value = { List ℕ };

    ghost view = { λ t. t.items.items };
}

impl Sizes {
    pub(crate) fn new(alloc: Global) -> Sizes
        ensures none { result ≡ [] }
    {
        Sizes {
            items: Vec::new(alloc),
        }
    }

    /// The number of the next object, where there are fewer than 2^32.
    pub(crate) fn next(&self) -> u32
        requires room { length self.now < 2 ^ 32 }
        ensures next { result ≡ length self.now }
    {
        self.items.len() as u32
    }

    /// Adds the next object, where there are fewer than 2^32. The error is want of memory.
    pub(crate) fn add(&mut self, size: u32) -> Result<(), Memory>
        requires room { length self.old < 2 ^ 32 }
        ensures added { OnOk result (self.new ≡ self.old ++ size ∷ []) }
    {
        self.items.push(size)?;
        Ok(())
    }

    pub(crate) fn into_vec(self) -> Vec<u32>
        ensures sizes { result.items ≡ self }
    {
        let Sizes { items } = self;
        items
    }
}
