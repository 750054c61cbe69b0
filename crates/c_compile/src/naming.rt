// The names of a program's functions.
ghost use Rattle.std.specs.Prelude.{◌≡◌, map, IfOk};
ghost use Rattle.c_types.specs.View.{function};

use c_types::TFunction;
use kit_base::{Memory, Name};
use std::alloc::Global;

/// The names of functions, in their order. The error is want of memory.
pub(crate) fn names_of(alloc: Global, functions: &[TFunction]) -> Result<Vec<Name>, Memory>
    ensures { IfOk result (λ v. v.items ≡ map (λ f. f.name) (map function functions.now)) }
{
    let mut names = Vec::new(alloc);
    for f in functions {
        names.push(f.name.copy()?)?;
    }
    Ok(names)
}
