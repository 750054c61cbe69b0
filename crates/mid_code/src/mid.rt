// Code over numbered temporaries.
ghost use Rattle.mid_code.specs.View.{code};
ghost use Rattle.mid_code.specs.Invariants.{IsMid};

use crate::code::Code;

/// Code over temporaries that are numbered in each function. What it names is there, and a call passes as many arguments as the function has
/// parameters.
#[derive(Drop)]
pub struct Mid {
    pub(crate) of: Code<u32>,
    ghost mid: { ∥ IsMid (code of) ∥₁ },
}
