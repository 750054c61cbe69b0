// Why a build is refused.
use kit_base::Name;
use std::fmt;
use thiserror::Error;

/// Why a build is refused.
#[derive(Drop, Error)]
pub enum BuildErr {
    /// A source has no program: a code from 10 to 50, with the file and the line of the token that decides. Lines count from 1.
    #[error("error {code} in line {line} of a source")]
    Source {
        code: u32,
        file: Name,
        line: u32,
    },
    /// No file of this name is held.
    #[error("a file is missing")]
    Missing(Name),
    /// The system failed at the file of this name.
    #[error("a file could not be read")]
    Failed(Name),
    /// A text or a file is not of its grammar. The codes are 90 to 93 for the project's text, which
    /// is called `project`, with its first faulty line, and 70 to 73 for a texture or a sound, which
    /// have no lines. Lines count from 1.
    #[error("bad data, code {code}")]
    Bad {
        code: u32,
        name: Name,
        line: Option<u32>,
    },
    /// The file of this name has more bytes than are read; or this is `cartridge`, and the cartridge
    /// would have over 268,435,456 bytes.
    #[error("a file or the cartridge is too long")]
    Limit(Name),
    /// Memory ran out.
    #[error("out of memory")]
    Memory,
}

// By hand, since a name need not be text.
impl fmt::Debug for BuildErr {
    fn fmt<W: fmt::Write>(&self, f: &mut fmt::Formatter<W>) -> fmt::Result {
        fmt::Display::fmt(self, f)
    }
}
