// Programs with their plain locals in temporaries.
ghost use Rattle.std.specs.Prelude.{◌≡◌, IfOk};
ghost use Rattle.mid_code.specs.Whole.{mid};
ghost use Rattle.mid_scalars.specs.PromotedFrom.{IsPromotedFrom};

use crate::functions::promote_functions;
use kit_base::{Memory, Seq};
use mid_code::laws::mid_code_is_sound;
use mid_code::{Code, Mid};
use std::alloc::Global;

/// The code in which the locals of one word whose address is never taken are temporaries. Where there is no such local the result is the
/// code that was given. The error is want of memory, and then the code given is dropped.
pub fn promote(alloc: Global, m: Mid) -> Result<Mid, Memory>
    ensures promoted { IfOk result (λ r. IsPromotedFrom (mid m) (mid r)) }
{
    mid_code_is_sound(&m);
    let of = m.into_code();
    let mut functions = of.functions.into_vec();
    promote_functions(alloc, &mut functions)?;
    Ok(Mid::new(Code {
        start: of.start,
        functions: Seq::from_vec(functions),
        globals: of.globals,
        literals: of.literals,
        main: of.main,
    }))
}
