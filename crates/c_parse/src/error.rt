// Why tokens are no unit.

use thiserror::Error;

/// Why tokens are no unit. Tokens count from 0, and the end is their number.
#[derive(Debug, Drop, Error)]
pub enum ParseErr {
    /// No unit begins with the tokens up to this one, and some unit begins with those before it.
    #[error("token {token} does not belong there")]
    Syntax { token: u32 },
    /// Units begin with the tokens up to this one, and none that is shallow enough.
    #[error("token {token} lies too deep")]
    TooDeep { token: u32 },
    /// As `Syntax`, at a word that the language refuses, with its number.
    #[error("token {token} is the refused word {what}")]
    Unsupported { token: u32, what: u32 },
    #[error("out of memory")]
    Memory,
}
