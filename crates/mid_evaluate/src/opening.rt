// The state before the globals are filled.
ghost use Rattle.std.specs.Prelude.{◌≡◌, ◌++◌, IfOk, OnOk, map, sum, option_map};
ghost use Rattle.obj_mem.specs.Objects.{global_object, opening_objects};
ghost use Rattle.obj_mem.specs.Runs.{opening_store};
ghost use Rattle.obj_mem.specs.View.{objects};
ghost use Rattle.mid_code.specs.Runs.{opening};
ghost use Rattle.mid_code.specs.View.{code};
ghost use Rattle.mid_evaluate.specs.View.{state_of, store_of};

use crate::state::{State, Store, World};
use kit_base::{Memory, Name};
use mid_code::Code;
use obj_mem::{Cell, Objects, make_card, make_global, make_literals};
use std::alloc::Global;

/// The words of the globals. Where they are no word the answer is want of memory.
pub(crate) fn global_words(globals: &[u32]) -> Result<u32, Memory>
    ensures { IfOk result (λ w. w ≡ sum globals.now) }
{
    let mut total: u32 = 0;
    'globals: for words in globals {
        total = match total.checked_add(*words) {
            Some(more) => more,
            None => return Err(Memory),
        };
    }
    Ok(total)
}

/// The globals, as zeros.
fn make_globals(alloc: Global, globals: &[u32], os: &mut Objects) -> Result<(), Memory>
    ensures { OnOk result (objects os.new ≡ objects os.old ++ map global_object globals.now) }
{
    'globals: for words in globals {
        make_global(alloc, os, *words)?;
    }
    Ok(())
}

/// The objects at the opening.
fn opened(
    alloc: Global,
    globals: &[u32],
    literals: &[Name],
    card: Option<&[u32]>,
) -> Result<Objects, Memory>
    ensures { IfOk result (λ os. objects os ≡ opening_objects globals.now literals.now (option_map (λ w. w.now) card.entry)) }
{
    let mut os = Objects::new(alloc);
    make_globals(alloc, globals, &mut os)?;
    make_literals(alloc, &mut os, literals)?;
    make_card(alloc, &mut os, card)?;
    Ok(os)
}

/// The store at the opening.
fn opening_store<'a>(
    alloc: Global,
    x: &Code<u32>,
    answers: &'a [u32],
    card: Option<&[u32]>,
) -> Result<Store<'a>, Memory>
    ensures { IfOk result (λ s. store_of s ≡ opening_store (code x.now).globals (code x.now).literals answers.now (option_map (λ w. w.now) card.entry)) }
{
    Ok(Store {
        objects: opened(alloc, x.globals.as_slice(), x.literals.as_slice(), card)?,
        answers,
        function: None,
        locals: Vec::new(alloc),
        used: 0,
    })
}

/// The state at the opening.
#[tactic(auto, unfolding(crate::specs::View::held))]
pub(crate) fn opening<'a>(
    alloc: Global,
    x: &Code<u32>,
    answers: &'a [u32],
    card: Option<&[u32]>,
) -> Result<State<'a>, Memory>
    ensures { IfOk result (λ s. state_of s ≡ opening (code x.now) answers.now (option_map (λ w. w.now) card.entry)) }
{
    let store = opening_store(alloc, x, answers, card)?;
    Ok(State {
        world: World {
            store,
            events: Vec::new(alloc),
            work: 0,
        },
        cells: Vec::new(alloc),
        given: Cell::Unwritten,
    })
}
