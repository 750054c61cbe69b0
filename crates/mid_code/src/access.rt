// The parts of mid code and of placed code.
ghost use Rattle.std.specs.Prelude.{◌≡◌, map};
ghost use Rattle.mid_code.specs.View.{code, spots};
ghost use Rattle.mid_code.specs.Invariants.{IsMid, IsPlaced};
ghost use Rattle.mid_code.specs.Whole.{mid, placed};

use crate::code::Code;
use crate::mid::Mid;
use crate::placed::{Spots, Where};
use crate::placed_code::Placed;
use kit_base::Seq;
use obj_mem::Frames;

impl Mid {
    /// Mid code of this code, which has to be what mid code is.
    pub fn new(of: Code<u32>) -> Mid
        requires is_mid { IsMid (code of) }
        ensures mid { mid result ≡ code of }
    {
        Mid { of }
    }

    /// The code.
    pub fn code(&self) -> &Code<u32>
        ensures code { code result.now ≡ mid self.now }
    {
        &self.of
    }

    /// The code, taken out.
    pub fn into_code(self) -> Code<u32>
        ensures code { code result ≡ mid self }
    {
        self.of
    }
}

impl Placed {
    /// Placed code of these parts, which have to be what placed code is.
    pub fn new(of: Code<Where>, frames: Frames, words: Seq<Spots>) -> Placed
        requires is_placed { IsPlaced (record { code = code of; frames = frames.sizes; spots = map spots words }) }
        ensures placed { placed result ≡ record { code = code of; frames = frames.sizes; spots = map spots words } }
    {
        Placed { of, frames, words }
    }

    /// The code.
    pub fn code(&self) -> &Code<Where>
        ensures code { code result.now ≡ (placed self.now).code }
    {
        &self.of
    }

    /// The frame size of each function, in words.
    pub fn frames(&self) -> &Frames
        ensures frames { result.now.sizes ≡ (placed self.now).frames }
    {
        &self.frames
    }

    /// Where the words of each function's frame stand.
    pub fn spots(&self) -> &[Spots]
        ensures spots { map spots result.now ≡ (placed self.now).spots }
    {
        self.words.as_slice()
    }
}
