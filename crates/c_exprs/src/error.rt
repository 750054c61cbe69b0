// Why a unit has no typed program.
ghost use Rattle.std.specs.Prelude.{◌≡◌, Ok, Err, IfOk, IfErr};
ghost use Rattle.c_exprs.specs.Faults.{known, demanded, placed};
ghost use Rattle.kit_base.specs.Gives.{Gives};
ghost use Rattle.c_exprs.specs.Gives.{taken};

use c_rules::{Code, RuleErr};
use c_tree::Span;
use kit_base::Failure;
use thiserror::Error;

/// The code of a broken rule, and the tokens of the node that breaks it.
#[derive(Clone, Copy, Debug, PartialEq, Eq, Error)]
#[error("{code}")]
pub struct Fault {
    pub code: Code,
    pub span: Span,
}

/// Why a unit has no typed program: the rule that it breaks first, or want of memory.
pub type CheckErr = Failure<Fault>;

/// What a rule answers, with its code at a node of this span.
pub fn at_node<T: Drop>(span: Span, answer: Result<T, RuleErr>) -> Result<T, CheckErr>
    ensures taken { result ≡ taken span answer }
{
    match answer {
        Ok(found) => Ok(found),
        Err(RuleErr::Cause(code)) => Err(CheckErr::Cause(Fault { code, span })),
        Err(RuleErr::Memory) => Err(CheckErr::Memory),
    }
}

/// An answer that wants no memory, with its code at a node of this span.
pub fn placed<T: Drop>(span: Span, answer: Result<T, Code>) -> Result<T, CheckErr>
    ensures placed { Gives (λ x. x) result (placed span answer) }
{
    match answer {
        Ok(found) => Ok(found),
        Err(code) => Err(CheckErr::Cause(Fault { code, span })),
    }
}

/// What has to be there at a node of this span, else the code.
#[tactic(auto, unfolding(crate::specs::Faults::known))]
pub fn known<T: Drop>(span: Span, code: Code, found: Option<T>) -> Result<T, CheckErr>
    ensures known { Gives (λ x. x) result (known span code found) }
{
    match found {
        Some(found) => Ok(found),
        None => Err(CheckErr::Cause(Fault { code, span })),
    }
}

/// The code at a node of this span, where the test does not hold.
#[tactic(auto, unfolding(crate::specs::Faults::demanded))]
pub fn demanded(span: Span, code: Code, holds: bool) -> Result<(), CheckErr>
    ensures demanded { Gives (λ x. x) result (demanded span code holds) }
{
    if holds {
        Ok(())
    } else {
        Err(CheckErr::Cause(Fault { code, span }))
    }
}

/// A value and what an answer gives, or the answer's refusal. A function that is refused while it owns a tree ends it in this one place, which
/// spares a proof of that at each of its exits.
pub fn keeping<T: Drop, A, E>(kept: T, answer: Result<A, E>) -> Result<(T, A), E>
    ensures ok { IfOk result (λ r. (r.0 ≡ kept) × (answer ≡ Ok r.1)) }
    ensures err { IfErr result (λ e. answer ≡ Err e) }
{
    match answer {
        Ok(given) => Ok((kept, given)),
        Err(error) => Err(error),
    }
}
