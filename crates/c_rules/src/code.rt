// Why a node has no type.
ghost use Rattle.std.specs.Prelude.{◌≡◌, Bool, Ok, Err, if◌then◌else◌};
ghost use Rattle.c_rules.specs.Rules.{number_of};
ghost use Rattle.kit_base.specs.declared.failure.Failure.TheVariants as failures;

use kit_base::Failure;
use thiserror::Error;

/// The rules that a checked unit keeps, by the numbers that a report gives: an unknown name; a name declared twice; operands that
/// no rule types; what has to be a place is none; a call with a wrong count of arguments or without a body; a port that is no such
/// port; no `main`; a size that is asked for is not known; what has to be a constant is none; a `break` or `continue` without its
/// loop; a limit is passed.
#[derive(Clone, Copy, Debug, PartialEq, Eq, Error)]
pub enum Code {
    #[error("unknown name")]
    UnknownName,
    #[error("declared twice")]
    Twice,
    #[error("wrong type")]
    WrongType,
    #[error("not a place")]
    NotAPlace,
    #[error("bad call")]
    BadCall,
    #[error("bad port")]
    BadPort,
    #[error("no main")]
    NoMain,
    #[error("unknown size")]
    InfiniteType,
    #[error("not a constant")]
    NotConstant,
    #[error("outside a loop")]
    BreakOutside,
    #[error("too large")]
    TooLarge,
}

/// Why a node has no type: the lowest code that is broken there, or want of memory.
pub type RuleErr = Failure<Code>;

impl From<Code> for Failure<Code> {
    ghost from_gives = { λ code e. e ≡ failures.Cause code };

    fn from(code: Code) -> Failure<Code> {
        Failure::Cause(code)
    }
}

/// The number of a code.
pub fn code_number(code: Code) -> u32
    ensures number { result ≡ number_of code }
{
    match code {
        Code::UnknownName => 40,
        Code::Twice => 41,
        Code::WrongType => 42,
        Code::NotAPlace => 43,
        Code::BadCall => 44,
        Code::BadPort => 45,
        Code::NoMain => 46,
        Code::InfiniteType => 47,
        Code::NotConstant => 48,
        Code::BreakOutside => 49,
        Code::TooLarge => 50,
    }
}

/// The code where the test does not hold.
pub(crate) fn demand(code: Code, holds: bool) -> Result<(), Code>
    ensures { result ≡ (if holds then Ok tt else Err code) }
{
    if holds { Ok(()) } else { Err(code) }
}
