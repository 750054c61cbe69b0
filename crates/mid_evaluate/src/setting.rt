// What a run goes by.
ghost use Rattle.std.specs.Prelude.{◌≡◌, sum};
ghost use Rattle.mid_code.specs.View.{code};

use mid_code::Code;
use std::alloc::Global;

/// A program, the sizes of its frames, and the words of its globals.
#[derive(Drop)]
pub(crate) struct Setting<'a> {
    pub(crate) alloc: Global,
    pub(crate) of: &'a Code<u32>,
    pub(crate) frames: &'a [u32],
    pub(crate) globals: u32,
    ghost counted: { globals ≡ sum (code of.now).globals },
}
