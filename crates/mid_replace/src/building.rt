// The table of a function.
ghost use Rattle.std.specs.Prelude.{◌≡◌, ◌≤◌, ◌+◌, IfOk, IfSome, length};
ghost use Rattle.mid_code.specs.Functions.{function};
ghost use Rattle.mid_replace.specs.inner.Chosen.{held_words};
ghost use Rattle.mid_replace.specs.inner.Tables.{firsts_from, IsTableOf};

use crate::slices::next;
use crate::table::Table;
use kit_base::Memory;
use mid_code::Function;
use std::alloc::Global;

/// The temporary of the first word of each local, were it held, and that of one behind them; none where more than sixteen words are held.
fn firsts_of(
    alloc: Global,
    held: &[bool],
    sizes: &[u32],
    first: u32,
) -> Result<Option<(Vec<u32>, u32)>, Memory>
    requires fits { first ≤ 1000000 }
    ensures firsts { IfOk result (λ r. IfSome r (λ x. x.0.items ≡ firsts_from first held.now sizes.now)) }
    ensures end { IfOk result (λ r. IfSome r (λ x. x.1 ≡ first + held_words held.now sizes.now)) }
    ensures words { IfOk result (λ r. IfSome r (λ x. x.1 ≤ first + 16)) }
{
    let mut found = Vec::new(alloc);
    let mut temporary = first;
    let mut left: u32 = 16;
    let mut flags = held;
    let mut rest = sizes;
    while let Some((is_held, others)) = next(flags) {
        let Some((size, after)) = next(rest) else {
            break;
        };
        found.push(temporary)?;
        if *is_held {
            if *size > left {
                return Ok(None);
            }
            temporary += *size;
            left -= *size;
        }
        flags = others;
        rest = after;
    }
    Ok(Some((found, temporary)))
}

fn copied(alloc: Global, numbers: &[u32]) -> Result<Vec<u32>, Memory>
    ensures { IfOk result (λ r. r.items ≡ numbers.now) }
{
    let mut found = Vec::with_capacity(alloc, numbers.len())?;
    for number in numbers {
        found.push(*number)?;
    }
    Ok(found)
}

/// The table of a function in which these locals are held and these temporaries may hold their addresses; none where that is too much.
pub(crate) fn table_of(
    alloc: Global,
    f: &Function<u32>,
    held: Vec<bool>,
    unsure: Vec<bool>,
) -> Result<Option<Table>, Memory>
    requires count { (function f.now).temps + length (function f.now).locals ≤ 1000000 }
    ensures table { IfOk result (λ r. IfSome r (λ t. IsTableOf (function f.now) t)) }
{
    let sizes = copied(alloc, f.locals.as_slice())?;
    if held.len() > sizes.len() {
        return Ok(None);
    }
    let Some((firsts, end)) = firsts_of(alloc, held.as_slice(), sizes.as_slice(), f.temps)? else {
        return Ok(None);
    };
    if end as usize + sizes.len() > 1000000 {
        return Ok(None);
    }
    Ok(Some(Table {
        temps: f.temps,
        held,
        firsts,
        end,
        sizes,
        unsure,
    }))
}
