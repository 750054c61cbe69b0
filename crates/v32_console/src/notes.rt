// Notes of what the ports answered.
use crate::tape::Tape;
use std::marker::Model;

/// What the ports answered in the frames that were noted, and how many port operations and instructions there were.
#[derive(Drop)]
pub struct Notes {
    pub(crate) tape: Tape,
    events: u64,
    instructions: u64,
}

impl Model for Notes {
    ghost use Rattle.std.specs.Prelude.{◌≤◌};
    ghost use Rattle.v32_console.specs.Taking.{Noted};

    ghost Value = { Noted };

    ghost view = { λ n. record { answers = n.tape.answers; events = n.events; instructions = n.instructions; spare = n.tape.spare } };

    ghost invariant = { λ n. n.events ≤ n.instructions };
}

ghost use Rattle.std.specs.Prelude.{◌≡◌, ◌≤◌, ◌+◌, [], OnOk};

use kit_base::Memory;
use std::alloc::Global;

impl Notes {
    /// Of no frame, with room for no answer.
    pub fn new(alloc: Global) -> Notes
        ensures answers { result.answers ≡ [] }
        ensures events { result.events ≡ 0 }
        ensures instructions { result.instructions ≡ 0 }
    {
        Notes {
            tape: Tape::new(alloc),
            events: 0,
            instructions: 0,
        }
    }

    /// Room for the answers of a frame.
    pub fn room(&mut self) -> Result<(), Memory>
        ensures answers { self.new.answers ≡ self.old.answers }
        ensures events { self.new.events ≡ self.old.events }
        ensures instructions { self.new.instructions ≡ self.old.instructions }
        ensures more { self.old.spare ≤ self.new.spare }
        ensures ok { OnOk result (250000 ≤ self.new.spare) }
    {
        self.tape.room()
    }

    /// How many port operations there were, waits among them.
    pub fn events(&self) -> u64
        ensures events { result ≡ self.now.events }
        ensures few { result ≤ self.now.instructions }
    {
        self.events
    }

    /// How many instructions were done.
    pub fn instructions(&self) -> u64
        ensures { result ≡ self.now.instructions }
    {
        self.instructions
    }

    /// The answers, the first one first.
    pub fn answers(&self) -> &[u32]
        ensures { result.now ≡ self.now.answers }
    {
        self.tape.answers()
    }

    /// A frame had `instructions` instructions, and not more port operations.
    pub(crate) fn count(&mut self, events: u32, instructions: u32)
        requires few { events ≤ instructions }
        requires room { self.old.instructions ≤ 1000000000 }
        ensures { self.new ≡ record {
          answers = self.old.answers;
          events = self.old.events + events;
          instructions = self.old.instructions + instructions;
          spare = self.old.spare;
        } }
    {
        self.events += events as u64;
        self.instructions += instructions as u64;
    }
}
