// Which locals of a function are held: a guess, that is tested where the body is made.
ghost use Rattle.std.specs.Prelude.{◌≡◌, ◌≤◌, ◌+◌, IfOk, IfSome, length};
ghost use Rattle.mid_code.specs.Functions.{function};
ghost use Rattle.mid_replace.specs.inner.Tables.{IsTableOf};

use crate::building::table_of;
use crate::losing::{Guess, lost_in};
use crate::masks::bit;
use crate::spread::{are_some, masks_of};
use crate::table::Table;
use kit_base::Memory;
use mid_code::Function;
use std::alloc::Global;

/// Whether a local has a few words.
fn is_small(size: u32) -> bool {
    2 <= size && size <= 4
}

pub(crate) fn has_small(sizes: &[u32]) -> bool {
    sizes.iter().any(|n| is_small(*n))
}

/// The small locals, in order, so long as they have sixteen words at most.
fn candidates(alloc: Global, sizes: &[u32]) -> Result<Vec<bool>, Memory> {
    let mut found = Vec::with_capacity(alloc, sizes.len())?;
    let mut left: u32 = 16;
    for size in sizes {
        let takes = is_small(*size) && *size <= left;
        if takes {
            left -= *size;
        }
        found.push(takes)?;
    }
    Ok(found)
}

/// Those that are not lost.
fn remaining(alloc: Global, held: &[bool], lost: u32) -> Result<Vec<bool>, Memory> {
    let mut found = Vec::with_capacity(alloc, held.len())?;
    let mut local: u32 = 0;
    for is_held in held {
        found.push(*is_held && lost & bit(local) == 0)?;
        local = local.wrapping_add(1);
    }
    Ok(found)
}

/// A table by which the body may be made, or by which fewer locals are held in the next round.
fn guess(alloc: Global, f: &Function<u32>, held: Vec<bool>) -> Result<Option<(Table, u32)>, Memory>
    requires count { (function f.now).temps + length (function f.now).locals ≤ 1000000 }
    ensures table { IfOk result (λ r. IfSome r (λ x. IsTableOf (function f.now) x.0)) }
{
    let masks = masks_of(alloc, f, held.as_slice())?;
    let unsure = are_some(alloc, masks.as_slice())?;
    let Some(table) = table_of(alloc, f, held, unsure)? else {
        return Ok(None);
    };
    let by = Guess {
        table: &table,
        masks: masks.as_slice(),
    };
    let lost = lost_in(alloc, by, f)?;
    Ok(Some((table, lost)))
}

/// The table of the locals that are held, in at most eight rounds.
pub(crate) fn choose(alloc: Global, f: &Function<u32>) -> Result<Option<Table>, Memory>
    requires count { (function f.now).temps + length (function f.now).locals ≤ 1000000 }
    ensures table { IfOk result (λ r. IfSome r (λ t. IsTableOf (function f.now) t)) }
{
    let mut held = candidates(alloc, f.locals.as_slice())?;
    for _ in 0..8u32 {
        if !held.iter().any(|is_held| *is_held) {
            return Ok(None);
        }
        let Some((table, lost)) = guess(alloc, f, held)? else {
            return Ok(None);
        };
        if lost == 0 {
            return Ok(Some(table));
        }
        held = remaining(alloc, table.held.as_slice(), lost)?;
    }
    Ok(None)
}
