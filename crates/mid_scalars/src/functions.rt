// Functions with their plain locals in temporaries.
ghost use Rattle.std.specs.Prelude.{◌≡◌, IfOk, OnOk, eqb, map};
ghost use Rattle.std.specs.List.{list_any};
ghost use Rattle.mid_code.specs.Functions.{function};
ghost use Rattle.mid_scalars.specs.inner.Alone.{promoted_alone, IsPromotable, ArePromotable};

use crate::building::{kept_of, table_of};
use crate::rewrite::promote_nodes;
use kit_base::{Memory, Seq};
use mid_code::Function;
use std::alloc::Global;

/// Whether a size is one word.
fn has_single(sizes: &[u32]) -> bool
    ensures { result ≡ list_any (λ n. eqb n 1) sizes.now }
{
    sizes.iter().any(|n| *n == 1)
}

/// A function without plain locals stays where it stands.
fn promote_function(alloc: Global, f: &mut Function<u32>) -> Result<(), Memory>
    requires promotable { IsPromotable (function f.old) }
    ensures { OnOk result (function f.new ≡ promoted_alone (function f.old)) }
{
    if !has_single(f.locals.as_slice()) {
        return Ok(());
    }
    let table = table_of(alloc, &*f)?;
    let more = table.plain.len() as u32 - table.kept;
    if more == 0 {
        return Ok(());
    }
    let body = promote_nodes(alloc, &table, f.body.as_slice())?;
    let locals = kept_of(alloc, table.plain.as_slice(), f.locals.as_slice())?;
    f.temps += more;
    f.locals = Seq::from_vec(locals);
    f.body = Seq::from_vec(body);
    Ok(())
}

pub(crate) fn promote_functions(
    alloc: Global,
    functions: &mut Vec<Function<u32>>,
) -> Result<(), Memory>
    requires promotable { ArePromotable (map function functions.old.items) }
    ensures { OnOk result (map function functions.new.items ≡ map promoted_alone (map function functions.old.items)) }
{
    for f in functions.iter_mut() {
        promote_function(alloc, f)?;
    }
    Ok(())
}
