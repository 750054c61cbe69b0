// Functions with the words of some locals in temporaries.
ghost use Rattle.std.specs.Prelude.{◌≡◌, OnOk, map};
ghost use Rattle.mid_code.specs.Functions.{function};
ghost use Rattle.mid_replace.specs.inner.Chosen.{IsReplacedBy, AllReplacedBy};
ghost use Rattle.mid_replace.specs.inner.Tables.{HasCount, HaveCounts};

use crate::choice::{choose, has_small};
use crate::walk::replace_nodes;
use kit_base::{Memory, Seq};
use mid_code::Function;
use std::alloc::Global;

/// A function in which no local is held stays where it stands.
#[tactic(auto, using(crate::proofs::Made::stays_by))]
fn replace_function(alloc: Global, f: &mut Function<u32>) -> Result<(), Memory>
    requires count { HasCount (function f.old) }
    ensures { OnOk result (IsReplacedBy (function f.old) (function f.new)) }
{
    if !has_small(f.locals.as_slice()) {
        return Ok(());
    }
    let Some(table) = choose(alloc, &*f)? else {
        return Ok(());
    };
    let Some(body) = replace_nodes(alloc, &table, f.body.as_slice())? else {
        return Ok(());
    };
    f.temps = table.end;
    f.body = Seq::from_vec(body);
    Ok(())
}

pub(crate) fn replace_functions(
    alloc: Global,
    functions: &mut Vec<Function<u32>>,
) -> Result<(), Memory>
    requires counts { HaveCounts (map function functions.old.items) }
    ensures { OnOk result (AllReplacedBy (map function functions.old.items) (map function functions.new.items)) }
{
    for f in functions.iter_mut() {
        replace_function(alloc, f)?;
    }
    Ok(())
}
