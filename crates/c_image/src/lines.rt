// The line table of a program.
ghost use Rattle.std.specs.Prelude.{◌≡◌, ◌<◌, ◌^◌, [], true, IfOk, length, map};
ghost use Rattle.c_types.specs.View.{function};
ghost use Rattle.c_front.specs.Places.{place_at};
ghost use Rattle.assembler.specs.Labels.{address_in, are_words};
ghost use Rattle.c_image.specs.Lines.{files_behind, has_file, number_of, rows_of};

use crate::naming::address_of_function;
use assembler::Labels;
use c_front::Places;
use c_types::TFunction;
use cart_format::LineRow;
use kit_base::{Memory, Name};
use std::alloc::Global;

/// The number of a file's name among these, and their count where it is none of them.
fn number_of(name: &[u8], files: &[Name]) -> u32
    requires { length files.now < 2 ^ 32 }
    ensures { result ≡ number_of name.now files.now }
{
    let mut number: u32 = 0;
    let mut rest = files;
    'each: while let Some((file, after)) = rest.split_first() {
        if file.bytes() == name {
            return number;
        }
        number += 1;
        rest = after;
    }
    number
}

/// Whether a file's name is among these.
fn has_file(name: &[u8], files: &[Name]) -> bool
    ensures { result ≡ has_file name.now files.now }
{
    files.iter().any(|file| file.bytes() == name)
}

/// The files in which the tokens of these numbers stand, each once, in the order of first use. The error is want of memory.
pub fn files_of(alloc: Global, places: &Places, starts: &[u32]) -> Result<Vec<Name>, Memory>
    ensures { IfOk result (λ v. v.items ≡ files_behind [] (map (place_at places.now) starts.now)) }
{
    let mut files: Vec<Name> = Vec::new(alloc);
    'each: for start in starts {
        let (name, _) = places.place_at(*start);
        if !has_file(name.bytes(), &files) {
            files.push(name.copy()?)?;
        }
    }
    Ok(files)
}

/// A row for each function, defined where the token of its number stands. The error is want of memory.
pub fn rows_of(
    alloc: Global,
    labels: &Labels<'_>,
    files: &[Name],
    functions: &[TFunction],
    places: &Places,
    starts: &[u32],
) -> Result<Vec<LineRow>, Memory>
    requires words { are_words labels.now ≡ true }
    requires few { length files.now < 2 ^ 32 }
    ensures { IfOk result (λ v. v.items ≡ rows_of (address_in labels.now) files.now (map function functions.now) (map (place_at places.now) starts.now)) }
{
    let mut rows = Vec::new(alloc);
    let mut left = functions;
    let mut starts_left = starts;
    'each: while let Some((f, after)) = left.split_first() {
        let Some((start, starts_after)) = starts_left.split_first() else {
            return Ok(rows);
        };
        let (name, line) = places.place_at(*start);
        let address = address_of_function(alloc, labels, &f.name)?;
        let file = number_of(name.bytes(), files);
        rows.push(LineRow {
            address,
            file,
            line,
            name: f.name.copy()?,
        })?;
        left = after;
        starts_left = starts_after;
    }
    Ok(rows)
}
