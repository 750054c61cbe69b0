// How runs end.
use c_tree::Span;

/// How a run ended: the program halted, faulted with a number, or found no answer left at a port; it did what has no meaning, or a call had
/// no room for its frame, with the tokens where it stands; or more calls or loop turns were nested than the bound allows.
#[derive(Clone, Copy, Debug, PartialEq, Eq)]
pub enum End {
    Halted,
    Fault(u32),
    Starved,
    Stray(Span),
    Deep(Span),
    OutOfBound,
}
