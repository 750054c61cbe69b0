// What a watch comes to, and its line.
ghost use Rattle.std.specs.Prelude.{◌≡◌, ◌++◌};
ghost use Rattle.kit_base.specs.Outside.{HasSinkCause};
ghost use Rattle.trace_core.specs.Putting.{PutsText};
ghost use Rattle.kit_tools.specs.Watching.{line_end, watch_line};

use crate::putting::{put_both, put_piece};
use kit_base::{Name, Sink, SinkErr};
use trace_core::Line;

/// What a source did under the answers that its run got: it kept to what its meaning rests on, or before that run was over it strayed, or had no room for
/// the frame of a call, at that line of that file. Lines count from 1.
#[derive(Drop)]
pub enum Verdict {
    Met,
    Stray { file: Name, line: u32 },
    Deep { file: Name, line: u32 },
}

/// The end of a line that names a line of a file.
#[tactic(auto, using(run_core::proofs::Endings::few_digits))]
fn line_end(line: u32) -> Line
    ensures { result ≡ line_end line }
{
    let mut text = Line::new();
    text.push_all(b":");
    text.push_decimal(line);
    text.push_all(b"\n");
    text
}

/// Puts a line that names a line of a file.
fn put_place<S: Sink>(out: &mut S, start: &[u8], file: &[u8], line: u32) -> Result<(), SinkErr>
    ensures puts { PutsText (start.now ++ file.now ++ line_end line) result (S.written out.old) (S.written out.new) }
    ensures faults { HasSinkCause (S.faults out.old) (S.faults out.new) result }
{
    put_both(out, start, file)?;
    put_piece(out, line_end(line).bytes())
}

/// Puts the line of a verdict, with its LF. After a refusal a front of it was put.
pub fn put_verdict<S: Sink>(out: &mut S, verdict: &Verdict) -> Result<(), SinkErr>
    ensures puts { PutsText (watch_line verdict.now) result (S.written out.old) (S.written out.new) }
    ensures faults { HasSinkCause (S.faults out.old) (S.faults out.new) result }
{
    match verdict {
        Verdict::Met => put_piece(out, b"met\n"),
        Verdict::Stray { file, line } => put_place(out, b"stray at ", file.bytes(), *line),
        Verdict::Deep { file, line } => put_place(out, b"deep at ", file.bytes(), *line),
    }
}
