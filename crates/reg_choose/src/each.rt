// Choices for each function of a program.
ghost use Rattle.std.specs.Prelude.{◌≡◌, ℕ, ◌<◌, IfOk, ◌∷◌, [], map};
ghost use Rattle.mid_code.specs.Functions.{function};
ghost use Rattle.mid_code.specs.Invariants.{AllOf};
ghost use Rattle.mid_code.specs.Choices.{AreSafe, EachSafe};
ghost use Rattle.mid_code.specs.Whole.{mid};
ghost use Rattle.mid_code.specs.Safe.{IsSafe, SparesSlots};
ghost use Rattle.reg_choose.specs.Each.{EachSpares, AllSpare, places_in, IsNamed};

use crate::choice::choose;
use kit_base::Memory;
use mid_code::laws::mid_code_is_sound;
use mid_code::{Choice, Function, Mid};
use std::alloc::Global;

fn choose_named(alloc: Global, f: &Function<u32>) -> Result<Choice, Memory>
    requires named { IsNamed (function f.now) }
    ensures safe { IfOk result (λ c. IsSafe (function f.now) c.at) }
    ensures spares { IfOk result (λ c. SparesSlots (function f.now) c.at) }
{
    choose(alloc, f)
}

fn choose_each(
    alloc: Global,
    start: &Function<u32>,
    fs: &[Function<u32>],
) -> Result<Vec<Choice>, Memory>
    requires start { IsNamed (function start.now) }
    requires named { AllOf IsNamed (map function fs.now) }
    ensures safe { IfOk result (λ v. EachSafe (function start.now ∷ map function fs.now) (places_in v.items)) }
    ensures spares { IfOk result (λ v. EachSpares (function start.now ∷ map function fs.now) (places_in v.items)) }
{
    let mut found = Vec::new(alloc);
    found.push(choose_named(alloc, start)?)?;
    for f in fs {
        found.push(choose_named(alloc, f)?)?;
    }
    Ok(found)
}

/// Safe choices for a program: that of the start stands first, and then those of its functions. The error is want of memory.
#[tactic(auto, using(crate::proofs::Program::start_named, crate::proofs::Program::functions_named))]
pub fn choose_all(alloc: Global, m: &Mid) -> Result<Vec<Choice>, Memory>
    ensures safe { IfOk result (λ v. AreSafe (mid m.now) (places_in v.items)) }
    ensures spares { IfOk result (λ v. AllSpare (mid m.now) (places_in v.items)) }
{
    mid_code_is_sound(m);
    let of = m.code();
    choose_each(alloc, &of.start, of.functions.as_slice())
}
