// What holds of all mid code and placed code.
ghost use Rattle.mid_code.specs.Invariants.{IsMid, IsPlaced};
ghost use Rattle.mid_code.specs.Whole.{mid, placed};

use crate::mid::Mid;
use crate::placed_code::Placed;

/// Mid code names what is there: temporaries, locals, globals, literals, functions, ports, and enclosing blocks and loops; its calls pass as
/// many arguments as the function has parameters; its start has no parameters, locals, result or calls; its limits are kept.
pub fn mid_code_is_sound(m: &Mid)
    ensures sound { IsMid (mid m.now) }
{}

/// So does placed code, over registers from 0 to 8 and slots of the frame; the words of a frame stand apart.
pub fn placed_code_is_sound(x: &Placed)
    ensures sound { IsPlaced (placed x.now) }
{}
