// A checked source.
ghost use Rattle.std.specs.Prelude.{◌≡◌};
ghost use Rattle.c_check.specs.View.{program as program_of};
ghost use Rattle.build_core.specs.Checkable.{AreOfOneUnit, IsCheckable, checkable_one};

use c_check::Program;
use c_front::Places;

/// A source's typed program, the places of its tokens, and the number of the first token of each function's definition.
#[derive(Drop)]
pub struct Checked {
    pub(crate) program: Program,
    pub(crate) places: Places,
    pub(crate) starts: Vec<u32>,
    ghost of_unit: { ∥ AreOfOneUnit (program_of program) places starts.items ∥₁ },
    ghost stands: { IsCheckable (program_of program) places starts.items } by { checkable_one (program_of program) places starts.items },
}

impl Checked {
    /// The typed program.
    pub fn program(&self) -> &Program
        ensures program { result.now ≡ self.now.program }
    {
        &self.program
    }

    /// The places of the source's tokens.
    pub fn places(&self) -> &Places
        ensures places { result.now ≡ self.now.places }
    {
        &self.places
    }

    /// The number of the first token of each function's definition, in their order.
    pub fn starts(&self) -> &[u32]
        ensures starts { result.now ≡ self.now.starts.items }
    {
        self.starts.as_slice()
    }
}
