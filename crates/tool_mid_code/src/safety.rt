// Whether choices are safe for the functions of a program.
ghost use Rattle.std.specs.Prelude.{map};
ghost use Rattle.mid_code.specs.Functions.{function};
ghost use Rattle.mid_code.specs.Invariants.{AllOf};
ghost use Rattle.reg_choose.specs.Each.{IsNamed};

use kit_base::Memory;
use mid_code::laws::mid_code_is_sound;
use mid_code::{Choice, Function, Mid};
use reg_choose::is_safe;
use std::alloc::Global;

fn is_safe_among(alloc: Global, fs: &[Function<u32>], k: usize, c: &Choice) -> Result<bool, Memory>
    requires named { AllOf IsNamed (map function fs.now) }
{
    if k < fs.len() {
        is_safe(alloc, &fs[k], c)
    } else {
        Ok(false)
    }
}

/// Whether the choice is safe for the function of this number; false where there is none.
#[tactic(auto, using(reg_choose::proofs::Program::functions_named))]
pub fn is_safe_at(alloc: Global, m: &Mid, k: usize, c: &Choice) -> Result<bool, Memory> {
    mid_code_is_sound(m);
    is_safe_among(alloc, m.code().functions.as_slice(), k, c)
}
