// The names that are types.
ghost use Rattle.std.specs.Prelude.{◌≡◌, ◌++◌, ◌∷◌, [], List, ℕ, OnOk};
ghost use Rattle.std.specs.List.{list_any};
ghost use Rattle.std.specs.Str.{bytes_eq};

use indexmap::IndexSet;
use kit_base::{Memory, Name};
use std::alloc::Global;
use std::marker::Model;

/// The names that are types so far, in the order of their declarations, and a table in which each of them is found.
#[derive(Drop)]
pub(crate) struct Types {
    names: Vec<Name>,
    table: IndexSet<Name>,
    ghost found: { (word : List ℕ) → list_any (bytes_eq word) table.keys ≡ list_any (λ n. bytes_eq n word) names.items },
}

impl Model for Types {
    ghost use Rattle.std.specs.Prelude.{List, ℕ};

    ghost Value = { List (List ℕ) };

    ghost view = { λ t. t.names.items };
}

impl Types {
    /// No names.
    pub(crate) fn new(alloc: Global) -> Types
        ensures none { result ≡ [] }
    {
        Types {
            names: Vec::new(alloc),
            table: IndexSet::new(alloc),
        }
    }

    pub(crate) fn has(&self, word: &Name) -> bool
        ensures has { result ≡ list_any (λ n. bytes_eq n word.now) self.now }
    {
        self.table.contains(word)
    }

    /// The same of bytes for which there is no name, looked for one after another.
    pub(crate) fn has_bytes(&self, word: &[u8]) -> bool
        ensures has { result ≡ list_any (λ n. bytes_eq n word.now) self.now }
    {
        self.names.iter().any(|n| n.bytes() == word)
    }

    /// Adds a name, which may be there already. The error is want of memory.
    pub(crate) fn add(&mut self, name: &Name) -> Result<(), Memory>
        ensures added { OnOk result (self.new ≡ self.old ++ name.now ∷ []) }
    {
        let key = name.copy()?;
        self.names.push(name.copy()?)?;
        match self.table.insert(key) {
            Ok(_) => Ok(()),
            Err(_) => {
                let _last = self.names.pop();
                Err(Memory)
            }
        }
    }
}
