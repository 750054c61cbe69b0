// What the ports answered, and how many port operations there were.
use std::marker::Model;

/// Answers of ports, as many as the vector has room for, and the number of port operations, which wraps. With no room
/// nothing is kept.
#[derive(Drop)]
pub(crate) struct Tape {
    words: Vec<u32>,
    events: u32,
}

impl Model for Tape {
    ghost use Rattle.std.specs.Prelude.{◌-◌, vec_len, vec_capacity};
    ghost use Rattle.v32_console.specs.Taking.{Taped};

    ghost Value = { Taped };

    ghost view = { λ t. record { answers = t.words.items; spare = vec_capacity t.words - vec_len t.words; events = t.events } };
}

ghost use Rattle.std.specs.Prelude.{◌≡◌, ◌≤◌, Some, [], OnOk};
ghost use Rattle.v32_console.specs.Taking.{asked_by, told_by};

use kit_base::Memory;
use std::alloc::Global;

impl Tape {
    /// A tape with no room.
    pub(crate) fn new(alloc: Global) -> Tape
        ensures answers { result.answers ≡ [] }
        ensures events { result.events ≡ 0 }
    {
        Tape {
            words: Vec::new(alloc),
            events: 0,
        }
    }

    /// Room for the answers of a frame.
    pub(crate) fn room(&mut self) -> Result<(), Memory>
        ensures answers { self.new.answers ≡ self.old.answers }
        ensures events { self.new.events ≡ self.old.events }
        ensures more { self.old.spare ≤ self.new.spare }
        ensures ok { OnOk result (250000 ≤ self.new.spare) }
    {
        if self.words.reserve(250_000).is_err() {
            return Err(Memory);
        }
        Ok(())
    }

    /// The count begins anew.
    pub(crate) fn recount(&mut self)
        ensures { self.new ≡ record { answers = self.old.answers; spare = self.old.spare; events = 0 } }
    {
        self.events = 0;
    }

    /// How many operations there were.
    pub(crate) fn events(&self) -> u32
        ensures { result ≡ self.now.events }
    {
        self.events
    }

    /// The answers, the first one first.
    pub(crate) fn answers(&self) -> &[u32]
        ensures { result.now ≡ self.now.answers }
    {
        self.words.as_slice()
    }

    /// A port answered.
    #[inline(always)]
    pub(crate) fn asked(&mut self, word: u32)
        ensures { self.new ≡ asked_by (Some word) self.old }
    {
        if self.words.len() < self.words.capacity() {
            self.words.push_reserved(word);
        }
        self.events = self.events.wrapping_add(1);
    }

    /// A port took a word, or the processor waits.
    #[inline(always)]
    pub(crate) fn told(&mut self)
        ensures { self.new ≡ told_by self.old }
    {
        self.events = self.events.wrapping_add(1);
    }
}
