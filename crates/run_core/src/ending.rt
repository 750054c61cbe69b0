// The line of a run that ended by a fault or at an undecodable word.
use cart_format::LineRow;
use kit_base::Name;
use std::marker::Model;

/// What tells the place of an address of a cartridge's program: its length and its line table.
#[derive(Drop)]
pub struct Ending {
    words: u32,
    files: Vec<Name>,
    rows: Vec<LineRow>,
}

impl Model for Ending {
    ghost use Rattle.run_core.specs.Ending.{Lines};

    ghost Value = { Lines };

    ghost view = { λ e. record { words = e.words; files = e.files.items; rows = e.rows.items } };
}

ghost use Rattle.std.specs.Prelude.{◌≡◌, ◌++◌, ◌∷◌, [], codes, get_or, length, IfOk, Some};
ghost use Rattle.std.specs.Option.{option_map};
ghost use Rattle.std.specs.Fmt.{decimal};
ghost use Rattle.kit_base.specs.Outside.{HasSinkCause};
ghost use Rattle.kit_base.specs.Digits.{word_digits};
ghost use Rattle.trace_core.specs.Putting.{PutsText};
ghost use Rattle.run_core.specs.Ending.{end_text, fault_text, found_text, is_in_program, last_row, lines_of, place_text, row_text, undecodable_text};

use cart_format::Cart;
use kit_base::{Memory, Sink, SinkErr, word_digits};
use std::alloc::Global;
use trace_core::Line;
use v32_console::FrameEnd;

/// The same names once more. The error is want of memory.
fn copy_names(alloc: Global, names: &[Name]) -> Result<Vec<Name>, Memory>
    ensures { IfOk result (λ v. v.items ≡ names.now) }
{
    let mut copies = Vec::new(alloc);
    'names: for name in names {
        copies.push(name.copy()?)?;
    }
    Ok(copies)
}

fn copy_row(row: &LineRow) -> Result<LineRow, Memory>
    ensures { IfOk result (λ r. r ≡ row.now) }
{
    let name = row.name.copy()?;
    Ok(LineRow {
        address: row.address,
        file: row.file,
        line: row.line,
        name,
    })
}

/// The same rows once more. The error is want of memory.
fn copy_rows(alloc: Global, rows: &[LineRow]) -> Result<Vec<LineRow>, Memory>
    ensures { IfOk result (λ v. v.items ≡ rows.now) }
{
    let mut copies = Vec::new(alloc);
    'rows: for row in rows {
        copies.push(copy_row(row)?)?;
    }
    Ok(copies)
}

/// The last row whose address is not above that one.
fn last_row(address: u32, rows: &[LineRow]) -> Option<&LineRow>
    ensures { option_map (λ row. row.now) result ≡ last_row address rows.now }
{
    let mut found = None;
    let mut rest = rows;
    'rows: while let Some((row, after)) = rest.split_first() {
        if row.address <= address {
            found = Some(row);
        }
        rest = after;
    }
    found
}

/// The name of that file, none where there is no such file.
fn file_named(files: &[Name], file: u32) -> &[u8]
    ensures { result.now ≡ get_or files.now file [] }
{
    match files.get(file as usize) {
        Some(name) => name.bytes(),
        None => &[],
    }
}

/// Whether the address lies in a program of `words` words.
fn is_in_program(words: u32, address: u32) -> bool
    ensures { result ≡ is_in_program words address }
{
    0x2000_0000 <= address && u64::from(address) < 0x2000_0000 + u64::from(words)
}

fn put_piece<S: Sink>(out: &mut S, piece: &[u8]) -> Result<(), SinkErr>
    ensures puts { PutsText piece.now result (S.written out.old) (S.written out.new) }
    ensures faults { HasSinkCause (S.faults out.old) (S.faults out.new) result }
{
    out.put(piece)
}

fn put_both<S: Sink>(out: &mut S, first: &[u8], second: &[u8]) -> Result<(), SinkErr>
    ensures puts { PutsText (first.now ++ second.now) result (S.written out.old) (S.written out.new) }
    ensures faults { HasSinkCause (S.faults out.old) (S.faults out.new) result }
{
    put_piece(out, first)?;
    put_piece(out, second)
}

fn put_function<S: Sink>(out: &mut S, name: &[u8]) -> Result<(), SinkErr>
    ensures puts { PutsText (codes " in " ++ name.now) result (S.written out.old) (S.written out.new) }
    ensures faults { HasSinkCause (S.faults out.old) (S.faults out.new) result }
{
    put_both(out, b" in ", name)
}

fn put_file<S: Sink>(out: &mut S, name: &[u8]) -> Result<(), SinkErr>
    ensures puts { PutsText (codes " at " ++ name.now) result (S.written out.old) (S.written out.new) }
    ensures faults { HasSinkCause (S.faults out.old) (S.faults out.new) result }
{
    put_both(out, b" at ", name)
}

fn put_line_end<S: Sink>(out: &mut S) -> Result<(), SinkErr>
    ensures puts { PutsText (10 ∷ []) result (S.written out.old) (S.written out.new) }
    ensures faults { HasSinkCause (S.faults out.old) (S.faults out.new) result }
{
    put_piece(out, b"\n")
}

/// The text of a line's number.
#[tactic(auto, using(crate::proofs::Endings::few_digits))]
fn line_number(line: u32) -> Line
    ensures { result ≡ codes ":" ++ decimal line }
{
    let mut text = Line::new();
    text.push_all(b":");
    text.push_decimal(line);
    text
}

#[tactic(auto, using(crate::proofs::Endings::few_digits))]
fn fault_text(number: u32, address: u32) -> Line
    ensures { result ≡ fault_text number address }
{
    let mut text = Line::new();
    text.push_all(b"fault ");
    text.push_decimal(number);
    text.push_all(b" at 0x");
    text.push_all(&word_digits(address));
    text
}

fn undecodable_text(address: u32) -> Line
    ensures { result ≡ undecodable_text address }
{
    let mut text = Line::new();
    text.push_all(b"undecodable at 0x");
    text.push_all(&word_digits(address));
    text
}

/// Puts the file and the line of a row.
fn put_file_line<S: Sink>(out: &mut S, file: &[u8], line: u32) -> Result<(), SinkErr>
    ensures puts { PutsText (codes " at " ++ file.now ++ (codes ":" ++ decimal line)) result (S.written out.old) (S.written out.new) }
    ensures faults { HasSinkCause (S.faults out.old) (S.faults out.new) result }
{
    put_file(out, file)?;
    put_piece(out, line_number(line).bytes())
}

/// Puts that function, that file and that line.
fn put_lines<S: Sink>(out: &mut S, function: &[u8], file: &[u8], line: u32) -> Result<(), SinkErr>
    ensures puts { PutsText (codes " in " ++ function.now ++ (codes " at " ++ file.now ++ (codes ":" ++ decimal line))) result (S.written out.old)
        (S.written out.new) }
    ensures faults { HasSinkCause (S.faults out.old) (S.faults out.new) result }
{
    put_function(out, function)?;
    put_file_line(out, file, line)
}

/// Puts the function, the file and the line of a row.
fn put_row<S: Sink>(out: &mut S, files: &[Name], row: &LineRow) -> Result<(), SinkErr>
    ensures puts { PutsText (row_text files.now row.now) result (S.written out.old) (S.written out.new) }
    ensures faults { HasSinkCause (S.faults out.old) (S.faults out.new) result }
{
    put_lines(out, row.name.bytes(), file_named(files, row.file), row.line)
}

/// Puts where an address is from, where it is of the program and has a row.
fn put_place<S: Sink>(
    out: &mut S,
    words: u32,
    files: &[Name],
    rows: &[LineRow],
    address: u32,
) -> Result<(), SinkErr>
    ensures puts { PutsText (place_text (record { words = words; files = files.now; rows = rows.now }) address) result (S.written out.old)
        (S.written out.new) }
    ensures faults { HasSinkCause (S.faults out.old) (S.faults out.new) result }
{
    if !is_in_program(words, address) {
        return Ok(());
    }
    match last_row(address, rows) {
        Some(row) => put_row(out, files, row),
        None => Ok(()),
    }
}

/// Puts the start of a line and where its address is from.
fn put_start<S: Sink>(
    out: &mut S,
    start: &[u8],
    words: u32,
    files: &[Name],
    rows: &[LineRow],
    address: u32,
) -> Result<(), SinkErr>
    ensures puts { PutsText (start.now ++ place_text (record { words = words; files = files.now; rows = rows.now }) address) result
        (S.written out.old) (S.written out.new) }
    ensures faults { HasSinkCause (S.faults out.old) (S.faults out.new) result }
{
    put_piece(out, start)?;
    put_place(out, words, files, rows, address)
}

/// Puts a line of that start.
fn put_line<S: Sink>(
    out: &mut S,
    start: &[u8],
    words: u32,
    files: &[Name],
    rows: &[LineRow],
    address: u32,
) -> Result<(), SinkErr>
    ensures puts { PutsText (start.now ++ place_text (record { words = words; files = files.now; rows = rows.now }) address ++ 10 ∷ []) result
        (S.written out.old) (S.written out.new) }
    ensures faults { HasSinkCause (S.faults out.old) (S.faults out.new) result }
{
    put_start(out, start, words, files, rows, address)?;
    put_line_end(out)
}

/// Puts the line of an end.
fn put_text<S: Sink>(
    out: &mut S,
    words: u32,
    files: &[Name],
    rows: &[LineRow],
    end: FrameEnd,
) -> Result<(), SinkErr>
    ensures puts { PutsText (end_text (record { words = words; files = files.now; rows = rows.now }) end) result (S.written out.old) (S.written out.new) }
    ensures faults { HasSinkCause (S.faults out.old) (S.faults out.new) result }
{
    match end {
        FrameEnd::Full | FrameEnd::Waited | FrameEnd::Halted => Ok(()),
        FrameEnd::Fault { number, address } => {
            let start = fault_text(number, address);
            put_line(out, start.bytes(), words, files, rows, address)
        }
        FrameEnd::Undecodable(address) => {
            let start = undecodable_text(address);
            put_line(out, start.bytes(), words, files, rows, address)
        }
    }
}

impl Ending {
    /// What tells the places of that cartridge. The error is want of memory; putting a line takes none.
    pub fn of(alloc: Global, cart: &Cart) -> Result<Ending, Memory>
        ensures lines { IfOk result (λ e. e ≡ lines_of cart.now) }
    {
        let words = cart.program().len() as u32;
        let files = copy_names(alloc, cart.line_files())?;
        let rows = copy_rows(alloc, cart.rows())?;
        Ok(Ending { words, files, rows })
    }

    /// Puts the line of an end: of a fault or of an undecodable word, with the function, the file and the line where the address
    /// lies in the program and has a row. Nothing is printed for the other ends. After a refusal a prefix of the line was printed.
    pub fn put_end<S: Sink>(&self, end: FrameEnd, out: &mut S) -> Result<(), SinkErr>
        ensures puts { PutsText (end_text self.now end) result (S.written out.old) (S.written out.new) }
        ensures faults { HasSinkCause (S.faults out.old) (S.faults out.new) result }
    {
        put_text(out, self.words, &self.files, &self.rows, end)
    }
}
