// Putting a text in pieces.
ghost use Rattle.std.specs.Prelude.{◌≡◌, ◌++◌};
ghost use Rattle.kit_base.specs.Outside.{HasSinkCause};
ghost use Rattle.trace_core.specs.Putting.{PutsText};

use kit_base::{Sink, SinkErr};

/// Puts one piece.
pub fn put_piece<S: Sink>(out: &mut S, piece: &[u8]) -> Result<(), SinkErr>
    ensures puts { PutsText piece.now result (S.written out.old) (S.written out.new) }
    ensures faults { HasSinkCause (S.faults out.old) (S.faults out.new) result }
{
    out.put(piece)
}

/// Puts one piece, then another.
pub fn put_both<S: Sink>(out: &mut S, first: &[u8], second: &[u8]) -> Result<(), SinkErr>
    ensures puts { PutsText (first.now ++ second.now) result (S.written out.old) (S.written out.new) }
    ensures faults { HasSinkCause (S.faults out.old) (S.faults out.new) result }
{
    put_piece(out, first)?;
    put_piece(out, second)
}
