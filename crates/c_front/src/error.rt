// Why a source has no syntax tree.

use kit_base::Name;
use std::fmt;
use thiserror::Error;

/// Why a source has no syntax tree.
#[derive(Drop, Error)]
pub enum FrontErr {
    /// What a file says. The codes are 10 to 14 where a file is no list of tokens, 20 to 26 for directives
    /// and macros, of which 21 is an include that is not held, and 30 to 32 where the tokens are no unit:
    /// 30 at a token with which none goes on, 31 at one with which none of at most 200 trees on a path
    /// does, and 32 at a word that the language refuses. Lines count from 1.
    #[error("error {code} in line {line} of a file")]
    Source { code: u32, file: Name, line: u32 },
    /// The source of this name is not held.
    #[error("the source is missing")]
    Missing(Name),
    /// The system failed at the file of this name.
    #[error("a file could not be read")]
    Failed(Name),
    /// The file of this name has over 268,435,456 bytes.
    #[error("a file is too long")]
    Limit(Name),
    /// Memory ran out.
    #[error("out of memory")]
    Memory,
}

// By hand, since a name need not be text.
impl fmt::Debug for FrontErr {
    fn fmt<W: fmt::Write>(&self, f: &mut fmt::Formatter<W>) -> fmt::Result {
        fmt::Display::fmt(self, f)
    }
}
