// Rows of a line table.
use kit_base::{Name, Seq};

/// The code from this address on, up to the next row's, is of the function of that name, which stands
/// in the file of that index at that line, counted from 1.
#[derive(Drop)]
pub struct LineRow {
    pub address: u32,
    pub file: u32,
    pub line: u32,
    pub name: Name,
}

/// The files that rows name, and the rows by address.
#[derive(Drop)]
pub(crate) struct LineTable {
    pub(crate) files: Seq<Name>,
    pub(crate) rows: Seq<LineRow>,
}
