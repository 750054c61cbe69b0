// Why a text does not expand.
ghost use Rattle.std.specs.Prelude.{◌≡◌};
ghost use Rattle.c_prep.specs.Faults.{fault_at};

use c_lex::Token;
use kit_base::Failure;
use thiserror::Error;

/// Why a source does not expand. Files are numbered by the reads of a call from 0, lines from 1.
#[derive(Clone, Copy, Debug, PartialEq, Eq, Error)]
pub enum PrepFault {
    /// The first fault. The codes are 10 to 14, those of `c_lex`, where a file is no list of tokens;
    /// 20 a bad directive, 21 an include that is not held, 22 includes that lie too deep or are too
    /// many, 23 a file that ends inside a condition, 24 `#error`, 25 too many tokens or replacements
    /// and 26 a macro that is defined again otherwise.
    #[error("error {code} at line {line} of file {file}")]
    At { code: u32, file: u32, line: u32 },
    /// The source is not held.
    #[error("the source is missing")]
    NoSource,
    /// The system failed at this file.
    #[error("file {file} could not be read")]
    Failed { file: u32 },
    /// This file has over 268,435,456 bytes.
    #[error("file {file} is too long")]
    TooLong { file: u32 },
}

/// Why a source does not expand: the cause, or want of memory.
pub type PrepErr = Failure<PrepFault>;

/// What is wrong with the tokens of a file.
#[derive(Clone, Copy, Debug, PartialEq, Eq)]
pub enum Fault {
    BadDirective,
    TooDeep,
    OpenCondition,
    ErrorDirective,
    TooManyTokens,
    Redefined,
}

/// A fault with its place.
#[derive(Clone, Copy, Debug, PartialEq, Eq)]
pub struct FaultAt {
    pub fault: Fault,
    pub file: u32,
    pub line: u32,
}

/// Why a step that asks no file is refused: its fault, or want of memory.
pub type StepErr = Failure<FaultAt>;

/// The fault at that token.
pub fn fault_at(fault: Fault, at: &Token) -> FaultAt
    ensures { result ≡ fault_at fault at.now }
{
    FaultAt {
        fault,
        file: at.file,
        line: at.line,
    }
}
