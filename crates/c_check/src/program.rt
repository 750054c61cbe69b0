// Checked programs.
ghost use Rattle.std.specs.Prelude.{map};
ghost use Rattle.c_types.specs.View.{layout, tstmt, function};
ghost use Rattle.c_check.specs.Whole.{IsProgram};

use c_types::{Layout, TFunction, TStmt};
use kit_base::{Name, Seq};

/// A checked unit: that of a well typed unit of at most 200,000 nodes.
#[derive(Drop)]
pub struct Program {
    pub(crate) layouts: Seq<Layout>,
    pub(crate) globals: Seq<(Name, u32)>,
    pub(crate) inits: Seq<TStmt>,
    pub(crate) literals: Seq<Name>,
    pub(crate) functions: Seq<TFunction>,
    pub(crate) main: u32,
    ghost made: { ∥ IsProgram (record {
      layouts = map layout layouts;
      globals = globals;
      inits = map tstmt inits;
      literals = literals;
      functions = map function functions;
      main = main;
    }) ∥₁ },
}
