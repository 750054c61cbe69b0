// The lines that tell of functions.
ghost use Rattle.std.specs.Prelude.{◌≡◌, IfOk};
ghost use Rattle.cycle_bound.specs.Lines.{IsTold, bound_line, bound_lines};

use crate::bound::{Bound, bounds};
use asm_items::AsmItem;
use kit_base::{Memory, Name, join_pieces};
use std::alloc::Global;

/// The line of a function.
#[tactic(auto, unfolding(crate::specs::Lines::bound_line))]
fn bound_line(alloc: Global, name: &Name, bound: Bound) -> Result<Vec<u8>, Memory>
    ensures { IfOk result (λ v. v.items ≡ bound_line name.now bound) }
{
    match bound {
        Bound::Most(most) => {
            let most = format!(in alloc; "{}", most)?;
            Ok(join_pieces(
                alloc,
                &[b"bound ", name.bytes(), b" ", most.as_bytes(), b"\n"],
            )?)
        }
        Bound::Over => Ok(join_pieces(alloc, &[b"bound ", name.bytes(), b" over\n"])?),
        Bound::Unbounded => Ok(join_pieces(alloc, &[b"bound ", name.bytes(), b" none\n"])?),
    }
}

/// A line for each function, with its bound.
fn bound_lines(alloc: Global, names: &[Name], bounds: &[Bound]) -> Result<Vec<u8>, Memory>
    ensures { IfOk result (λ v. v.items ≡ bound_lines names.now bounds.now) }
{
    let mut lines = Vec::new(alloc);
    let mut left = names;
    let mut bounds_left = bounds;
    'each: while let Some((name, after)) = left.split_first() {
        let Some((bound, bounds_after)) = bounds_left.split_first() else {
            return Ok(lines);
        };
        let line = bound_line(alloc, name, *bound)?;
        lines.extend_from_slice(&line)?;
        left = after;
        bounds_left = bounds_after;
    }
    Ok(lines)
}

/// A line for each of these functions of the program of these items, in their order: `bound NAME N`, `bound NAME over` or `bound NAME none`, each
/// with LF. The bounds are those of `bounds`. The error is want of memory.
pub fn tell_bounds(alloc: Global, items: &[AsmItem], names: &[Name]) -> Result<Vec<u8>, Memory>
    ensures told { IfOk result (λ v. IsTold items.now names.now v.items) }
{
    let told = bounds(alloc, items, names)?;
    bound_lines(alloc, names, &told)
}
