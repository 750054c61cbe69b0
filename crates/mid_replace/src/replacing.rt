// Programs with the words of some locals in temporaries.
ghost use Rattle.std.specs.Prelude.{◌≡◌, IfOk};
ghost use Rattle.mid_code.specs.Whole.{mid};
ghost use Rattle.mid_replace.specs.ReplacedFrom.{IsReplacedFrom};

use crate::functions::replace_functions;
use kit_base::{Memory, Seq};
use mid_code::laws::mid_code_is_sound;
use mid_code::{Code, Mid};
use std::alloc::Global;

/// The code in which words of some locals of two to four words are held in temporaries. A function in which there is no such local stays as
/// it is. The error is want of memory, and then the code given is dropped.
#[tactic(auto, using(crate::proofs::Made::mid_counts))]
pub fn replace(alloc: Global, m: Mid) -> Result<Mid, Memory>
    ensures replaced { IfOk result (λ r. IsReplacedFrom (mid m) (mid r)) }
{
    mid_code_is_sound(&m);
    let of = m.into_code();
    let mut functions = of.functions.into_vec();
    replace_functions(alloc, &mut functions)?;
    Ok(Mid::new(Code {
        start: of.start,
        functions: Seq::from_vec(functions),
        globals: of.globals,
        literals: of.literals,
        main: of.main,
    }))
}
