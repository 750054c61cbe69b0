// Loops that copy words, and loops that fill words with one.

/// The registers of a loop that copies words: the address of the next word to read, that of the next to write, the word that was read,
/// how many are left, and 1. A loop that reads no words writes the one in `cell` each time.
#[derive(Clone, Copy)]
pub struct Copying {
    pub from: Option<u32>,
    pub to: u32,
    pub cell: u32,
    pub count: u32,
    pub one: u32,
}
