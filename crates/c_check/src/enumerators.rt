// Enumerators.
ghost use Rattle.std.specs.Prelude.{◌≡◌, map, option_map};
ghost use Rattle.c_tree.specs.View.{expr};
ghost use Rattle.kit_base.specs.Gives.{Gives};
ghost use Rattle.c_check.specs.inner.ItemTyping.{enumerator, named_enumerator, enumerators};
ghost use Rattle.c_check.specs.View.{un};

use crate::declaring::{declare, is_free};
use crate::parts::value_at;
use crate::reading::Reading;
use c_exprs::{CheckErr, Decl, constant, demanded, known, span_of};
use c_rules::Code;
use c_tree::{Expr, Span};
use kit_base::{Name, wrap_add};
use std::alloc::Global;

/// The number of an enumerator.
#[tactic(auto, unfolding(crate::specs::inner::ItemTyping::enumerator))]
fn read_number(
    alloc: Global,
    reading: &mut Reading,
    next: u32,
    value: &Option<Expr>,
) -> Result<u32, CheckErr>
    ensures { Gives (λ r. (r, un reading.new)) result (enumerator (un reading.old) next (option_map expr value.now)) }
{
    match value {
        None => Ok(next),
        Some(e) => {
            let x = value_at(alloc, reading, e)?;
            known(span_of(e), Code::NotConstant, constant(&x))
        }
    }
}

/// The enumerators of an item of this span.
pub(crate) fn read_enumerators(
    alloc: Global,
    reading: &mut Reading,
    span: Span,
    values: &[(Name, Option<Expr>)],
) -> Result<(), CheckErr>
    ensures { Gives (λ r. (r, un reading.new)) result (enumerators (un reading.old) span 0 (map (λ v. (v.0, option_map expr v.1)) values.now)) }
{
    let mut next = 0;
    for value in values {
        next = read_enumerator(alloc, reading, span, next, value)?;
    }
    Ok(())
}

/// Declares an enumerator, and gives the number behind its own.
#[tactic(auto, unfolding(crate::specs::inner::ItemTyping::named_enumerator))]
fn read_enumerator(
    alloc: Global,
    reading: &mut Reading,
    span: Span,
    next: u32,
    value: &(Name, Option<Expr>),
) -> Result<u32, CheckErr>
    ensures { Gives (λ r. (r, un reading.new)) result (named_enumerator (un reading.old) span next (value.now.0, option_map expr value.now.1)) }
{
    let number = read_number(alloc, reading, next, &value.1)?;
    demanded(span, Code::Twice, is_free(&reading.globals, &value.0))?;
    declare(reading, &value.0, Decl::Constant(number))?;
    Ok(wrap_add(number, 1))
}
