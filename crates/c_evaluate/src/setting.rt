// What a run goes by.
ghost use Rattle.std.specs.Prelude.{◌≡◌, sum_by, min};
ghost use Rattle.c_check.specs.View.{program};
ghost use Rattle.c_evaluate.specs.inner.Capped.{capped_one};

use c_check::Program;
use std::alloc::Global;

/// A program, the sizes of its frames, and the words of its globals, where they are fewer than 4,294,967,295.
#[derive(Drop)]
pub(crate) struct Setting<'a> {
    pub(crate) alloc: Global,
    pub(crate) checked: &'a Program,
    pub(crate) frames: &'a [u32],
    pub(crate) globals: u32,
    ghost capped: { globals ≡ min (sum_by (λ g. g.1) (program checked.now).globals) 0xFFFFFFFF } by { capped_one globals (program checked.now) },
}
