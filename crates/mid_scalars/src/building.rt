// The table of a function.
ghost use Rattle.std.specs.Prelude.{◌≡◌, ◌≤◌, ◌+◌, IfOk, length};
ghost use Rattle.mid_code.specs.Functions.{function};
ghost use Rattle.mid_code.specs.Invariants.{Names, IsTemporary};
ghost use Rattle.mid_scalars.specs.inner.Table.{flags, kept};
ghost use Rattle.mid_scalars.specs.inner.Tabled.{numbers_from, falses, IsTableOf};

use crate::plain::plain_of;
use crate::slices::next;
use crate::table::Table;
use crate::walk::roles_of;
use kit_base::Memory;
use mid_code::Function;
use std::alloc::Global;

/// The number of each local, where those that are plain become temporaries from a first one on.
fn numbers_of(alloc: Global, plain: &[bool], first: u32) -> Result<(Vec<u32>, u32), Memory>
    requires fits { first + length plain.now ≤ 1000000 }
    ensures numbers { IfOk result (λ r. r.0.items ≡ numbers_from first 0 plain.now) }
    ensures kept { IfOk result (λ r. r.1 ≡ falses plain.now) }
{
    let mut numbers = Vec::new(alloc);
    let mut temporary = first;
    let mut kept: u32 = 0;
    let mut rest = plain;
    while let Some((is_plain, after)) = next(rest) {
        if *is_plain {
            numbers.push(temporary)?;
            temporary += 1;
        } else {
            numbers.push(kept)?;
            kept += 1;
        }
        rest = after;
    }
    Ok((numbers, kept))
}

/// The words of the locals that are not plain.
pub(crate) fn kept_of(alloc: Global, plain: &[bool], sizes: &[u32]) -> Result<Vec<u32>, Memory>
    requires long { length plain.now ≡ length sizes.now }
    ensures { IfOk result (λ r. r.items ≡ kept plain.now sizes.now) }
{
    let mut found = Vec::new(alloc);
    let mut flags = plain;
    let mut rest = sizes;
    while let Some((size, after)) = next(rest) {
        let Some((is_plain, others)) = next(flags) else {
            break;
        };
        if !*is_plain {
            found.push(*size)?;
        }
        flags = others;
        rest = after;
    }
    Ok(found)
}

/// The table of a function.
#[tactic(auto, using(crate::proofs::Tabled::flags_long))]
pub(crate) fn table_of(alloc: Global, f: &Function<u32>) -> Result<Table, Memory>
    requires names { Names (IsTemporary (function f.now)) (function f.now).body }
    requires count { (function f.now).temps + length (function f.now).locals ≤ 1000000 }
    ensures table { IfOk result (λ t. IsTableOf (function f.now) t) }
{
    let roles = roles_of(alloc, f)?;
    let plain = plain_of(alloc, f, roles.as_slice())?;
    let (numbers, kept) = numbers_of(alloc, plain.as_slice(), f.temps)?;
    Ok(Table {
        roles,
        plain,
        numbers,
        kept,
    })
}
