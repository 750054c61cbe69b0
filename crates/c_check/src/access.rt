// The parts of checked programs.
ghost use Rattle.std.specs.Prelude.{◌≡◌, map, option_map, slice_get};
ghost use Rattle.c_types.specs.View.{layout, tstmt, function};
ghost use Rattle.c_check.specs.View.{program};
ghost use Rattle.c_check.specs.Whole.{IsProgram};

use crate::program::Program;
use c_types::{Layout, TFunction, TStmt};
use kit_base::{Name, Seq};

/// The program of these parts.
pub(crate) fn of_parts(
    layouts: Vec<Layout>,
    globals: Vec<(Name, u32)>,
    inits: Vec<TStmt>,
    literals: Vec<Name>,
    functions: Vec<TFunction>,
    main: u32,
) -> Program
    requires { ∥ IsProgram (record {
      layouts = map layout layouts.items;
      globals = globals.items;
      inits = map tstmt inits.items;
      literals = literals.items;
      functions = map function functions.items;
      main = main;
    }) ∥₁ }
    ensures { program result ≡ record {
      layouts = map layout layouts.items;
      globals = globals.items;
      inits = map tstmt inits.items;
      literals = literals.items;
      functions = map function functions.items;
      main = main;
    } }
{
    Program {
        layouts: Seq::from_vec(layouts),
        globals: Seq::from_vec(globals),
        inits: Seq::from_vec(inits),
        literals: Seq::from_vec(literals),
        functions: Seq::from_vec(functions),
        main,
    }
}

impl Program {
    /// The structures and unions, by their numbers.
    pub fn layouts(&self) -> &[Layout]
        ensures layouts { map layout result.now ≡ (program self.now).layouts }
    {
        self.layouts.as_slice()
    }

    /// The globals by their numbers, with their sizes in words.
    pub fn globals(&self) -> &[(Name, u32)]
        ensures globals { result.now ≡ (program self.now).globals }
    {
        self.globals.as_slice()
    }

    /// The statements that fill the globals, in their order.
    pub fn inits(&self) -> &[TStmt]
        ensures inits { map tstmt result.now ≡ (program self.now).inits }
    {
        self.inits.as_slice()
    }

    /// The texts, by their numbers.
    pub fn literals(&self) -> &[Name]
        ensures literals { result.now ≡ (program self.now).literals }
    {
        self.literals.as_slice()
    }

    /// The functions that have a body, by their numbers.
    pub fn functions(&self) -> &[TFunction]
        ensures functions { map function result.now ≡ (program self.now).functions }
    {
        self.functions.as_slice()
    }

    /// The size in words of the global of that number.
    pub fn global_size(&self, number: u32) -> Option<u32>
        ensures size { result ≡ option_map (λ g. g.1) (slice_get (program self.now).globals number) }
    {
        match self.globals().get(number as usize) {
            Some((_, size)) => Some(*size),
            None => None,
        }
    }

    /// The text of that number.
    pub fn literal(&self, number: u32) -> Option<&Name>
        ensures literal { option_map (λ t. t.now) result ≡ slice_get (program self.now).literals number }
    {
        self.literals().get(number as usize)
    }

    /// The function of that number.
    pub fn function(&self, number: u32) -> Option<&TFunction>
        ensures function { option_map (λ f. function f.now) result ≡ slice_get (program self.now).functions number }
    {
        self.functions().get(number as usize)
    }

    /// The number of `main` among the functions.
    pub fn main(&self) -> u32
        ensures main { result ≡ (program self.now).main }
    {
        self.main
    }
}
