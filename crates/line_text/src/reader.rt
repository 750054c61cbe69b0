// A loop over the lines of a text.
ghost use Rattle.std.specs.Prelude.{◌≡◌, ◌≤◌, IfErr, OnErr, List, ℕ, length};
ghost use Rattle.line_text.specs.Reading.{Leaves, Step, Steps, Reads, placed, read_from};
ghost use Rattle.line_text.specs.Lines.{lines_of};

use crate::line::first_line;
use std::alloc::Global;

/// Why a line was refused: the code of its fault, or want of memory.
#[derive(Clone, Copy, Debug, PartialEq, Eq, thiserror::Error)]
pub enum LineErr {
    #[error("fault {0}")]
    Code(u32),
    #[error("out of memory")]
    Memory,
}

/// Why a text was refused: the code of its first faulty line and that line's number, counted from 1,
/// or want of memory.
#[derive(Clone, Copy, Debug, PartialEq, Eq, thiserror::Error)]
pub enum LinesErr {
    #[error("fault {code} at line {line}")]
    At { code: u32, line: u32 },
    #[error("out of memory")]
    Memory,
}

/// What takes the lines of a text one after another. A line that it refuses leaves it as it was.
pub trait LineReader {
    /// What a line makes of the value, or the code of its fault.
    ghost step: { Self → List ℕ → Step Self };

    fn line(&mut self, alloc: Global, line: &[u8]) -> Result<(), LineErr>
        ensures made { Steps self.new result (step self.old line.now) }
        ensures kept { OnErr result (self.new ≡ self.old) };
}

fn placed(e: LineErr, line: u32) -> LinesErr
    ensures { result ≡ placed e line }
{
    match e {
        LineErr::Memory => LinesErr::Memory,
        LineErr::Code(code) => LinesErr::At { code, line },
    }
}

/// Gives the lines of the text to the reader in order, up to the first that it refuses, for a fault or
/// want of memory. The reader is then what the lines before that one made of it. The text has at most
/// 268,435,456 bytes.
pub fn read_lines<R: LineReader>(
    alloc: Global,
    reader: &mut R,
    bytes: &[u8],
) -> Result<(), LinesErr>
    requires { length bytes.now ≤ 268435456 }
    ensures read { Reads reader.new result (read_from R.step 1 reader.old (lines_of bytes.now)) }
    // Where a line was refused, the reader is what the lines before it made of it.
    ensures left { IfErr result (Leaves R.step reader.old (lines_of bytes.now) reader.new) }
{
    let mut number = 1;
    let mut rest = bytes;
    'each: while let Some((line, after)) = first_line(rest) {
        match reader.line(alloc, line) {
            Ok(()) => {}
            Err(e) => return Err(placed(e, number)),
        }
        number += 1;
        rest = after;
    }
    Ok(())
}
