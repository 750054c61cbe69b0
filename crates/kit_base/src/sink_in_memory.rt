// A sink in memory, whose calls fail where the caller says.
ghost use Rattle.std.specs.Prelude.{◌≡◌, ◌++◌, ◌+◌, ◌≤◌, ℕ, [], Some, OnOk, OnErr, take, IsTrue};
ghost use Rattle.kit_base.specs.Outside.{HasSinkCause, has_sink_failed};
ghost use Rattle.std.specs.Bool.{OnTrue};
ghost use Rattle.kit_base.specs.Counts.{Rose};

use crate::files_in_memory::is_failing;
use crate::outside::{Sink, SinkErr};
use std::alloc::Global;
use std::marker::Model;

/// What was put, held in memory. Calls are numbered from 0, and those whose number is in the list
/// given at first raise the count of faults and answer `Failed`.
#[derive(Drop)]
pub struct SinkInMemory {
    written: Vec<u8>,
    failing: Vec<u32>,
    calls: u64,
    faults: u64,
}

impl Model for SinkInMemory {
    ghost use Rattle.kit_base.specs.Store.{Written};

    ghost Value = { Written };

    ghost view = { λ s. record { bytes = s.written.items; failing = s.failing.items; calls = s.calls; faults = s.faults } };
}

impl SinkInMemory {
    ghost use Rattle.kit_base.specs.Store.{CountsPut};

    /// A sink with nothing put yet, whose calls of the numbers `failing` fail.
    pub fn new(alloc: Global, failing: Vec<u32>) -> SinkInMemory
        ensures bytes { result.bytes ≡ [] }
        ensures failing { result.failing ≡ failing.items }
        ensures counts { (result.calls ≡ 0) × (result.faults ≡ 0) }
    {
        SinkInMemory {
            written: Vec::new(alloc),
            failing,
            calls: 0,
            faults: 0,
        }
    }

    /// All that was put.
    pub fn written(&self) -> &[u8]
        ensures { result.now ≡ self.now.bytes }
    {
        self.written.as_slice()
    }

    /// Counts a call, and answers whether it is to fail.
    fn begins_failing(&mut self) -> bool
        ensures call { CountsPut self.old self.new result }
        ensures rose { OnTrue result (Rose self.old.faults self.new.faults) }
        ensures later { self.old.faults ≤ self.new.faults }
        ensures bytes { self.new.bytes ≡ self.old.bytes }
    {
        let fails = is_failing(&self.failing, self.calls);
        self.calls = self.calls.saturating_add(1);
        if fails {
            self.faults = self.faults.saturating_add(1);
        }
        fails
    }
}

impl Sink for SinkInMemory {
    ghost use Rattle.std.specs.Prelude.{Some};
    ghost use Rattle.kit_base.specs.Store.{CountsPut};

    ghost written = { λ s. Some s.bytes };

    ghost faults = { λ s. s.faults };

    fn put(&mut self, piece: &[u8]) -> Result<(), SinkErr>
        ensures ok { OnOk result (Some self.new.bytes ≡ Some (self.old.bytes ++ piece.now)) }
        ensures err { OnErr result ((n : ℕ) × (Some self.new.bytes ≡ Some (self.old.bytes ++ take n piece.now))) }
        ensures faults { HasSinkCause self.old.faults self.new.faults result }
        // The call fails exactly where its number is one of those that fail.
        ensures call { CountsPut self.old self.new (has_sink_failed result) }
    {
        if self.begins_failing() {
            return Err(SinkErr::Failed);
        }
        match self.written.extend_from_slice(piece) {
            Ok(()) => Ok(()),
            Err(_) => Err(SinkErr::Memory),
        }
    }
}
