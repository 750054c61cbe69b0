// Labels while a program is assembled.
ghost use Rattle.std.specs.Prelude.{◌≡◌, [], true, not, IfOk, OnOk};
ghost use Rattle.assembler.specs.Labels.{address_in, address_of, are_words, has_label, with_label};

use indexmap::IndexMap;
use kit_base::{Memory, Name};
use std::alloc::Global;
use std::marker::Model;

/// The labels of a program with their addresses, in the order in which they stand.
#[derive(Drop)]
pub struct Labels<'a> {
    table: IndexMap<&'a Name, u64>,
}

impl<'a> Model for Labels<'a> {
    ghost use Rattle.std.specs.Prelude.{ℕ, List, map};

    ghost Value = { List (List ℕ × ℕ) };

    ghost view = { λ l. map (λ e. (e.0.now, e.1)) l.table.entries };
}

impl<'a> Labels<'a> {
    pub fn new(alloc: Global) -> Labels<'a>
        ensures { result ≡ [] }
    {
        Labels {
            table: IndexMap::new(alloc),
        }
    }

    /// The address of a label.
    pub fn address_of(&self, name: &Name) -> Option<u64>
        ensures { result ≡ address_of self.now name.now }
    {
        self.table.get(&name).copied()
    }

    pub fn has(&self, name: &Name) -> bool
        ensures { result ≡ has_label self.now name.now }
    {
        self.address_of(name).is_some()
    }

    /// The word that stands for a name; 0 for a name that is no label.
    #[tactic(auto, using(crate::proofs::Lookups::is_word))]
    pub fn word_of(&self, name: &Name) -> u32
        requires { are_words self.now ≡ true }
        ensures { result ≡ address_in self.now name.now }
    {
        match self.address_of(name) {
            Some(address) => address as u32,
            None => 0,
        }
    }

    /// Adds a label, unless there is one of that name; whether it was added.
    pub fn add(&mut self, name: &'a Name, address: u64) -> Result<bool, Memory>
        ensures added { IfOk result (λ added. added ≡ not (has_label self.old name.now)) }
        ensures labels { OnOk result (self.new ≡ with_label self.old name.now address) }
    {
        if self.table.contains_key(&name) {
            return Ok(false);
        }
        self.table.insert(name, address)?;
        Ok(true)
    }
}
