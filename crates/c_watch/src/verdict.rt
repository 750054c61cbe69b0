// What a recorded run came to, and the verdict on it.
ghost use Rattle.std.specs.Prelude.{◌≡◌};
ghost use Rattle.c_watch.specs.Watching.{verdict_of};

use c_meaning::End;
use c_tree::Span;

/// A recorded run: how many port operations it made, waits among them, whether it ended, and the bound on the calls and loop turns that are nested
/// on any path of the meaning.
#[derive(Clone, Copy, Debug, PartialEq, Eq)]
pub struct Goal {
    pub events: u64,
    pub ended: bool,
    pub bound: u32,
}

/// The program neither strays nor lacks room for a frame before the recorded run is over; or it strays, or a call has no room for its frame, at these
/// tokens.
#[derive(Clone, Copy, Debug, PartialEq, Eq)]
pub enum Watched {
    Met,
    Stray(Span),
    Deep(Span),
}

/// The verdict on an end.
pub(crate) fn verdict(end: End) -> Watched
    ensures { result ≡ verdict_of end }
{
    match end {
        End::Stray(span) => Watched::Stray(span),
        End::Deep(span) => Watched::Deep(span),
        End::Halted | End::Fault(_) | End::Starved | End::OutOfBound => Watched::Met,
    }
}
