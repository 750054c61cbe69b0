// The labels of a switch.
ghost use Rattle.std.specs.Prelude.{◌≡◌, ◌++◌, ◌∷◌, [], true, not, OnOk};
ghost use Rattle.c_rules.specs.declared.code.Code.TheVariants as codes;
ghost use Rattle.c_exprs.specs.Faults.{demanded};
ghost use Rattle.kit_base.specs.Gives.{Gives};
ghost use Rattle.c_stmts.specs.State.{no_labels, is_case};
ghost use Rattle.c_stmts.specs.View.{labels};

use c_exprs::{CheckErr, Fault};
use c_rules::Code;
use c_tree::Span;
use indexmap::IndexSet;
use std::alloc::Global;

/// The labels of a switch so far.
#[derive(Drop)]
pub(crate) struct Labels {
    cases: IndexSet<u32>,
    has_default: bool,
}

/// No labels.
pub(crate) fn no_labels(alloc: Global) -> Labels
    ensures none { labels result ≡ no_labels }
{
    Labels {
        cases: IndexSet::new(alloc),
        has_default: false,
    }
}

/// Adds the label of a case of this span, which has to be new.
#[tactic(auto, unfolding(c_exprs::specs::Faults::demanded))]
pub(crate) fn add_case(seen: &mut Labels, span: Span, label: u32) -> Result<(), CheckErr>
    ensures gives { Gives (λ x. x) result (demanded span codes.Twice (not (is_case label (labels seen.old)))) }
    ensures added { OnOk result (labels seen.new ≡ record { cases = (labels seen.old).cases ++ label ∷ []; has_default = (labels seen.old).has_default }) }
{
    let (_, new) = seen.cases.insert_full(label)?;
    if !new {
        return Err(CheckErr::Cause(Fault {
            code: Code::Twice,
            span,
        }));
    }
    Ok(())
}

/// Adds a default label of this span, which has to be the only one.
#[tactic(auto, unfolding(c_exprs::specs::Faults::demanded))]
pub(crate) fn add_default(seen: &mut Labels, span: Span) -> Result<(), CheckErr>
    ensures gives { Gives (λ x. x) result (demanded span codes.Twice (not (labels seen.old).has_default)) }
    ensures added { OnOk result (labels seen.new ≡ record { cases = (labels seen.old).cases; has_default = true }) }
{
    if seen.has_default {
        return Err(CheckErr::Cause(Fault {
            code: Code::Twice,
            span,
        }));
    }
    seen.has_default = true;
    Ok(())
}
