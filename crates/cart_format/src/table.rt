// The line table of a cartridge.
ghost use Rattle.std.specs.Prelude.{◌≡◌, ◌≤◌, ◌<◌, ◌+◌, ◌^◌, List, ℕ, length};
ghost use Rattle.std.specs.List.{list_all};
ghost use Rattle.std.specs.Str.{is_utf8};
ghost use Rattle.kit_base.specs.Gives.{Gives};
ghost use Rattle.cart_format.specs.Table.{padding, begins_name, continues_name, is_name, is_row, are_rows, is_table};
ghost use Rattle.cart_format.specs.Reading.{number_at, name_at, row_at, begins, table_at, tail_at};

use crate::error::{CartErr, CartFault};
use crate::header::all_zero;
use crate::row::{LineRow, LineTable};
use crate::sections::{Part, many};
use asset_pack::word_at;
use kit_base::Name;
use std::alloc::Global;

/// The zeros up to a whole word.
pub(crate) fn padding(n: usize) -> usize
    ensures same { result ≡ padding n }
    ensures few { result ≤ 3 }
{
    (4 - n % 4) % 4
}

#[tactic(auto, unfolding(crate::specs::Reading::number_at))]
fn number_at(index: u32, bytes: &[u8]) -> Result<(u32, &[u8]), CartErr>
    ensures { Gives (λ x. (x.0, x.1.now)) result (number_at index bytes.now) }
{
    if bytes.len() < 4 {
        return Err(CartErr::Cause(CartFault::BadSection(index)));
    }
    Ok((word_at(bytes, 0), &bytes[4..]))
}

impl Part for Name {
    ghost at = { name_at };

    #[tactic(auto, unfolding(crate::specs::Reading::name_at))]
    fn at(alloc: Global, index: u32, bytes: &[u8]) -> Result<(Name, &[u8]), CartErr> {
        let (len, rest) = number_at(index, bytes)?;
        let len = len as usize;
        let zeros = padding(len);
        if rest.len() < len + zeros || !all_zero(&rest[len..len + zeros]) {
            return Err(CartErr::Cause(CartFault::BadSection(index)));
        }
        match Name::from_bytes(alloc, &rest[..len]) {
            Ok(name) => Ok((name, &rest[len + zeros..])),
            Err(_) => Err(CartErr::Memory),
        }
    }
}

impl Part for LineRow {
    ghost at = { row_at };

    #[tactic(auto, unfolding(crate::specs::Reading::row_at))]
    fn at(alloc: Global, index: u32, bytes: &[u8]) -> Result<(LineRow, &[u8]), CartErr> {
        let (address, rest) = number_at(index, bytes)?;
        let (file, rest) = number_at(index, rest)?;
        let (line, rest) = number_at(index, rest)?;
        let (name, rest) = Name::at(alloc, index, rest)?;
        Ok((
            LineRow {
                address,
                file,
                line,
                name,
            },
            rest,
        ))
    }
}

fn all_continue(text: &[u8]) -> bool
    ensures { result ≡ list_all continues_name text.now }
{
    text.iter().all(|b| b.is_ascii_alphanumeric() || *b == b'_')
}

/// Whether it is a name of C.
#[tactic(auto, unfolding(crate::specs::Table::is_name))]
fn is_name(text: &[u8]) -> bool
    ensures { result ≡ is_name text.now }
{
    match text.split_first() {
        Some((first, after)) => (first.is_ascii_alphabetic() || *first == b'_')
            && all_continue(after),
        None => false,
    }
}

/// Whether it is a row of one of `files` files, at an address from `least` on and below `end`.
#[tactic(auto, unfolding(crate::specs::Table::is_row))]
fn is_row(files: usize, least: u64, end: u64, row: &LineRow) -> bool
    ensures { result ≡ is_row files least end row.now }
{
    let address = u64::from(row.address);
    least <= address
        && address < end
        && (row.file as usize) < files
        && 1 <= row.line
        && is_name(row.name.bytes())
}

/// Whether they are rows of `files` files, whose addresses rise from `least` on.
#[tactic(auto, using(crate::proofs::Rows::row_more, crate::proofs::Rows::row_bad, crate::proofs::Rows::no_row))]
fn are_rows(files: usize, least: u64, end: u64, rows: &[LineRow]) -> bool
    ensures { result ≡ are_rows files least end rows.now }
{
    let mut least = least;
    let mut rest = rows;
    'each: while let Some((row, after)) = rest.split_first() {
        if !is_row(files, least, end, row) {
            return false;
        }
        least = u64::from(row.address) + 1;
        rest = after;
    }
    true
}

#[tactic(auto, using(crate::proofs::Names::is_text))]
fn is_text(name: &Name) -> bool
    ensures { result ≡ is_utf8 name.now }
{
    name.is_text()
}

fn all_texts(files: &[Name]) -> bool
    ensures { result ≡ list_all is_utf8 files.now }
{
    files.iter().all(|name| is_text(name))
}

/// Whether they are the table of a program of `words` words.
#[tactic(auto, unfolding(crate::specs::Table::is_table))]
pub(crate) fn is_table(words: usize, table: &LineTable) -> bool
    requires { words ≤ 33554432 }
    ensures { result ≡ is_table words table.now }
{
    let files = table.files.as_slice();
    let rows = table.rows.as_slice();
    let end = 0x2000_0000 + words as u64;
    files.len() <= 40_000
        && rows.len() <= 40_000
        && all_texts(files)
        && are_rows(files.len(), 0x2000_0000, end, rows)
}

fn begins(index: u32, bytes: &[u8]) -> Result<&[u8], CartErr>
    ensures { Gives (λ x. x.now) result (begins index bytes.now) }
{
    if bytes.len() < 8 || &bytes[..8] != b"KIT-LINE".as_slice() {
        return Err(CartErr::Cause(CartFault::BadSection(index)));
    }
    Ok(&bytes[8..])
}

#[tactic(auto, unfolding(crate::specs::Reading::table_at))]
fn table_at(
    alloc: Global,
    index: u32,
    words: u32,
    bytes: &[u8],
) -> Result<(LineTable, &[u8]), CartErr>
    requires words { words ≤ 33554432 }
    requires index { index ≤ 2000 }
    ensures { Gives (λ x. (x.0, x.1.now)) result (table_at index words bytes.now) }
{
    let rest = begins(index, bytes)?;
    let (file_count, rest) = number_at(index, rest)?;
    let (row_count, rest) = number_at(index, rest)?;
    if file_count > 40_000 || row_count > 40_000 {
        return Err(CartErr::Cause(CartFault::BadSection(index)));
    }
    let (files, rest) = many::<Name>(alloc, 0, index, file_count, rest)?;
    let (rows, rest) = many::<LineRow>(alloc, 0, index, row_count, rest)?;
    let table = LineTable { files, rows };
    if !is_table(words as usize, &table) {
        return Err(CartErr::Cause(CartFault::BadSection(index)));
    }
    Ok((table, rest))
}

/// The line table, which the second revision alone has.
#[tactic(auto, unfolding(crate::specs::Reading::tail_at))]
pub(crate) fn tail_at(
    alloc: Global,
    revision: u32,
    index: u32,
    words: u32,
    bytes: &[u8],
) -> Result<(Option<LineTable>, &[u8]), CartErr>
    requires words { words ≤ 33554432 }
    requires index { index ≤ 2000 }
    ensures { Gives (λ x. (x.0, x.1.now)) result (tail_at revision index words bytes.now) }
{
    if revision == 1 {
        return Ok((None, bytes));
    }
    let (table, rest) = table_at(alloc, index, words, bytes)?;
    Ok((Some(table), rest))
}
