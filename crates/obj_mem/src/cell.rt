// Cells and kinds of objects.

/// What a cell of an object holds: nothing yet, a word, a pointer to a cell of an object, or the null pointer.
#[derive(Clone, Copy, Debug, PartialEq, Eq)]
pub enum Cell {
    Unwritten,
    Num(u32),
    Ptr { object: u64, offset: u32 },
    Null,
}

/// What an object is: a global, an object of a call, a text literal, or the memory card.
#[derive(Clone, Copy, Debug, PartialEq, Eq)]
pub enum ObjectKind {
    Global,
    Local,
    Literal,
    Card,
}

/// The words of the memory card.
pub(crate) const CARD_WORDS: usize = 262144;
