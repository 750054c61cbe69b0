// What is told of each function.
ghost use Rattle.std.specs.Prelude.{◌≡◌, IfOk, Option, None, Some};
ghost use Rattle.std.specs.List.{AllZip};
ghost use Rattle.asm_laws.specs.Labelled.{label_of_function};
ghost use Rattle.cycle_bound.specs.inner.Places.{place_in, told};
ghost use Rattle.cycle_bound.specs.inner.Settled.{known};
ghost use Rattle.cycle_bound.specs.Told.{IsBoundOf};

use crate::node::place_at;
use crate::places::{labels_of, nodes_of};
use crate::table::{CAP, known, values_of};
use asm_items::AsmItem;
use assembler::Labels;
use kit_base::{Memory, Name, join_pieces};
use std::alloc::Global;

/// How many instructions a call of a function takes, those of called functions and its `RET` counted: at most this number, at most
/// 1,000,000,000,000; more than that on some path; or no number.
#[derive(Clone, Copy)]
pub enum Bound {
    Most(u64),
    Over,
    Unbounded,
}

fn bound_by(value: Option<u64>) -> Bound
    ensures { result ≡ told value }
{
    match value {
        None => Bound::Unbounded,
        Some(value) => {
            if value < CAP {
                Bound::Most(value)
            } else {
                Bound::Over
            }
        }
    }
}

/// The label of a function: `f_` and its name.
fn function_label(alloc: Global, name: &Name) -> Result<Name, Memory>
    ensures { IfOk result (λ label. label ≡ label_of_function name.now) }
{
    let label = join_pieces(alloc, &[b"f_", name.bytes()])?;
    Name::from_bytes(alloc, &label)
}

/// What is told of the place behind a label.
fn told_at(labels: &Labels<'_>, end: u64, values: &[Option<u64>], label: &Name) -> Bound
    ensures { result ≡ told (known values.now (place_in labels.now end label.now)) }
{
    bound_by(known(values, place_at(labels, end, label)))
}

/// What is told of each of these functions, in their order: the greatest count of instructions over the paths behind the label `f_` and its name,
/// up to `RET` or `HLT`, a `CALL` of a label with the longest path of that label. A name without a label is `Unbounded`; of two labels of one name
/// the first counts. The error is want of memory.
pub fn bounds(alloc: Global, items: &[AsmItem], names: &[Name]) -> Result<Vec<Bound>, Memory>
    ensures each { IfOk result (λ v. AllZip (IsBoundOf items.now) names.now v.items) }
{
    let end = items.len() as u64;
    let labels = labels_of(alloc, items)?;
    let nodes = nodes_of(alloc, &labels, items)?;
    let values = values_of(alloc, nodes.as_slice())?;
    let mut bounds = Vec::new(alloc);
    for name in names {
        let label = function_label(alloc, name)?;
        bounds.push(told_at(&labels, end, values.as_slice(), &label))?;
    }
    Ok(bounds)
}
