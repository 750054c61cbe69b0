// The tokens.
use kit_base::Name;

/// The marks, in the order of the C page's table.
#[derive(Clone, Copy, Debug, PartialEq, Eq)]
pub enum Punct {
    OpenBrace,
    CloseBrace,
    OpenParen,
    CloseParen,
    OpenBracket,
    CloseBracket,
    Semicolon,
    Comma,
    Dot,
    Arrow,
    Question,
    Colon,
    Hash,
    Assign,
    PlusAssign,
    MinusAssign,
    StarAssign,
    SlashAssign,
    PercentAssign,
    ShlAssign,
    ShrAssign,
    AndAssign,
    OrAssign,
    XorAssign,
    OrOr,
    AndAnd,
    Or,
    Xor,
    And,
    EqualEqual,
    NotEqual,
    Less,
    LessEqual,
    Greater,
    GreaterEqual,
    Shl,
    Shr,
    Plus,
    Minus,
    Star,
    Slash,
    Percent,
    Bang,
    Tilde,
    PlusPlus,
    MinusMinus,
}

/// What a token is. A number is below 2^32, a character is one byte, a text has the bytes that stand
/// for its escapes.
#[derive(Drop)]
pub enum Kind {
    Word(Name),
    Number(u32),
    Char(u32),
    Text(Name),
    Punct(Punct),
}

/// A token with its place: the number of its file, its line, counted from 1, the bytes from `start` up
/// to `end` of that file, and whether it begins its line.
#[derive(Drop)]
pub struct Token {
    pub kind: Kind,
    pub file: u32,
    pub line: u32,
    pub start: u32,
    pub end: u32,
    pub first: bool,
}
