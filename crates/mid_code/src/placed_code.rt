// Code over registers and slots.
ghost use Rattle.std.specs.Prelude.{map};
ghost use Rattle.mid_code.specs.View.{code, spots};
ghost use Rattle.mid_code.specs.Invariants.{IsPlaced};

use crate::code::Code;
use crate::placed::{Spots, Where};
use kit_base::Seq;
use obj_mem::Frames;

/// Code over registers and slots, with the frame size and the spots of each function. What it names is there, no register is above 8, a call
/// passes as many arguments as the function has parameters, and no two words of a frame share an offset.
#[derive(Drop)]
pub struct Placed {
    pub(crate) of: Code<Where>,
    pub(crate) frames: Frames,
    pub(crate) words: Seq<Spots>,
    ghost placed: { ∥ IsPlaced (record { code = code of; frames = frames.sizes; spots = map spots words }) ∥₁ },
}
