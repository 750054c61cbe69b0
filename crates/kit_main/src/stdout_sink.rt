// Standard output. Nothing is told of what was put.
ghost use Rattle.std.specs.Prelude.{None};

use crate::counts::risen;
use crate::streams::write_whole;
use kit_base::{Sink, SinkErr};

/// Standard output, with the count of what went wrong.
#[derive(Drop)]
pub struct StdoutSink<'a, R> {
    rt: &'a R,
    faults: u64,
}

impl<'a, R: Print> StdoutSink<'a, R> {
    /// Standard output, with no call yet.
    pub fn new(rt: &'a R) -> Self {
        StdoutSink { rt, faults: 0 }
    }
}

impl<R: Print> Sink for StdoutSink<'_, R> {
    ghost written = { λ _. None };

    ghost faults = { λ s. s.faults };

    fn put(&mut self, piece: &[u8]) -> Result<(), SinkErr> {
        if write_whole(&mut std::io::writer(self.rt), piece) {
            return Ok(());
        }
        self.faults = risen(self.faults);
        Err(SinkErr::Failed)
    }
}
