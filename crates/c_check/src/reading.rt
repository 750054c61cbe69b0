// What was read of a unit.
ghost use Rattle.std.specs.Prelude.{◌≡◌, ◌∷◌, [], OnOk, IfOk};
ghost use Rattle.c_stmts.specs.View.{st};
ghost use Rattle.c_exprs.specs.View.{bodies, names};
ghost use Rattle.c_check.specs.Reading.{opening, begun, ended};
ghost use Rattle.c_check.specs.View.{un};

use crate::objects::Objects;
use c_exprs::{Globals, Texts};
use c_stmts::State;
use c_types::{TFunction, TStmt};
use kit_base::{Memory, Name};
use std::alloc::Global;
use std::mem;

/// The names and layouts so far, with the numbers of all functions with a body; the names of structures and unions, by their numbers; the number of
/// enumerations; the globals, and the statements that fill them; the functions with a body so far; the texts, and what the function that is
/// read changes.
#[derive(Drop)]
pub struct Reading {
    pub globals: Globals,
    pub records: Vec<Name>,
    pub enums: u32,
    pub objects: Objects,
    pub inits: Vec<TStmt>,
    pub functions: Vec<TFunction>,
    pub state: State,
}

impl Reading {
    /// Nothing is read yet of a unit that has these functions with a body.
    pub(crate) fn new(alloc: Global, globals: Globals) -> Reading
        requires names { names globals ≡ [] }
        requires layouts { globals.layouts.items ≡ [] }
        requires whole { globals.whole.items ≡ [] }
        ensures opening { un result ≡ opening (bodies globals) }
    {
        Reading {
            globals,
            records: Vec::new(alloc),
            enums: 0,
            objects: Objects::new(alloc),
            inits: Vec::new(alloc),
            functions: Vec::new(alloc),
            state: State::new(alloc, Texts::new(alloc)),
        }
    }
}

/// Leaves a function, and gives the sizes of its objects.
pub(crate) fn end(alloc: Global, state: &mut State) -> Vec<u32>
    ensures sizes { result.items ≡ (st state.old).sizes }
    ensures after { st state.new ≡ record { scopes = []; sizes = []; used = 0; texts = (st state.old).texts } }
{
    let old = mem::replace(state, State::new(alloc, Texts::new(alloc)));
    let (sizes, texts) = old.into_parts();
    *state = State::new(alloc, texts);
    sizes
}

/// Begins a function, with its scope. The error is want of memory.
pub(crate) fn begin(alloc: Global, state: &mut State) -> Result<(), Memory>
    ensures begun { OnOk result (st state.new ≡ record { scopes = [] ∷ []; sizes = []; used = 0; texts = (st state.old).texts }) }
{
    end(alloc, state);
    state.open(alloc)
}
