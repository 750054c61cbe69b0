// The machine before its first step.
ghost use Rattle.std.specs.Prelude.{◌≡◌, ◌++◌, ◌∷◌, IfOk, OnOk, map, min, sum_by, option_map};
ghost use Rattle.obj_mem.specs.declared.cell.Cell.TheVariants.{Unwritten};
ghost use Rattle.obj_mem.specs.Objects.{global_object, opening_objects};
ghost use Rattle.obj_mem.specs.Runs.{opening_store};
ghost use Rattle.obj_mem.specs.Stores as stores;
ghost use Rattle.obj_mem.specs.View.{objects};
ghost use Rattle.c_types.specs.View.{tstmt, tstmts};
ghost use Rattle.c_evaluate.specs.inner.FocusView.{at, stack_of};
ghost use Rattle.c_evaluate.specs.inner.Steps.{rest_of};
ghost use Rattle.c_check.specs.View.{program};
ghost use Rattle.c_evaluate.specs.Evaluation.{run_of};
ghost use Rattle.c_evaluate.specs.inner.Machine.{MainW, run_left};
ghost use Rattle.c_evaluate.specs.inner.MachineView.{config_of, setting_of};
ghost use Rattle.c_evaluate.specs.inner.StoreView.{store_of};

use crate::exec::rest;
use crate::frame::{Focus, Frame};
use crate::machine::Machine;
use crate::setting::Setting;
use crate::stack::push;
use crate::stop::Stop;
use crate::store::Store;
use c_check::Program;
use c_types::TStmt;
use kit_base::{Memory, Name};
use obj_mem::{Cell, Objects, make_card, make_global, make_literals};
use std::alloc::Global;

/// The words of the globals, where they are fewer than 4,294,967,295.
#[tactic(auto, using(crate::proofs::Opened::more_words))]
fn global_words(globals: &[(Name, u32)]) -> u32
    ensures { result ≡ min (sum_by (λ g. g.1) globals.now) 0xFFFFFFFF }
{
    let mut total: u32 = 0;
    'globals: for g in globals {
        total = total.saturating_add(g.1);
    }
    total
}

/// The globals, as zeros.
fn make_globals(alloc: Global, globals: &[(Name, u32)], os: &mut Objects) -> Result<(), Memory>
    ensures { OnOk result (objects os.new ≡ objects os.old ++ map (λ g. global_object g.1) globals.now) }
{
    'globals: for g in globals {
        make_global(alloc, os, g.1)?;
    }
    Ok(())
}

/// The objects at the opening.
#[tactic(auto, using(crate::proofs::Opened::all_opened))]
fn opened(
    alloc: Global,
    globals: &[(Name, u32)],
    literals: &[Name],
    card: Option<&[u32]>,
) -> Result<Objects, Memory>
    ensures { IfOk result (λ os. objects os ≡ opening_objects (map (λ g. g.1) globals.now) literals.now (option_map (λ w. w.now) card.entry)) }
{
    let mut os = Objects::new(alloc);
    make_globals(alloc, globals, &mut os)?;
    make_literals(alloc, &mut os, literals)?;
    make_card(alloc, &mut os, card)?;
    Ok(os)
}

/// The store before the globals are filled.
fn opening<'a>(
    alloc: Global,
    p: &Program,
    answers: &'a [u32],
    card: Option<&[u32]>,
) -> Result<Store<'a>, Memory>
    ensures { IfOk result (λ s. store_of s ≡ opening_store (map (λ g. g.1) (program p.now).globals) (program p.now).literals answers.now
        (option_map (λ w. w.now) card.entry)) }
{
    Ok(Store {
        objects: opened(alloc, p.globals(), p.literals(), card)?,
        answers,
        function: None,
        locals: Vec::new(alloc),
        used: 0,
        spare: Vec::new(alloc),
        work: 0,
    })
}

/// The initialisers of the globals, behind which main is called.
fn first_focus<'a>(
    n: u32,
    main: u32,
    inits: &'a [TStmt],
    stack: &mut Vec<Frame<'a>>,
) -> Result<Focus<'a>, Memory>
    ensures { IfOk result (λ x. (u : stores.Store)
        → rest_of n Unwritten (tstmts (map tstmt inits.now)) (MainW n main ∷ stack_of stack.old.items) u ≡ at x (stack_of stack.new.items) u) }
{
    push(stack, Frame::Main(n, main))?;
    match rest(n, Cell::Unwritten, inits, stack) {
        Ok(x) => Ok(x),
        Err(Stop::Cause(end)) => Ok(Focus::Over(end)),
        Err(Stop::Memory) => Err(Memory),
    }
}

/// The machine at the initialisers of the globals, behind which main is called.
pub(crate) fn begun<'a>(
    alloc: Global,
    p: &'a Program,
    frames: &'a [u32],
    answers: &'a [u32],
    card: Option<&[u32]>,
    bound: u32,
) -> Result<Machine<'a>, Memory>
    ensures { IfOk result (λ m. run_left (setting_of m) (config_of m) ≡ run_of (program p.now) frames.now bound answers.now
        (option_map (λ w. w.now) card.entry)) }
{
    let store = opening(alloc, p, answers, card)?;
    let globals = global_words(p.globals());
    let mut stack = Vec::new(alloc);
    let focus = first_focus(bound, p.main(), p.inits(), &mut stack)?;
    Ok(Machine {
        setting: Setting {
            alloc,
            checked: p,
            frames,
            globals,
        },
        focus,
        stack,
        store,
    })
}
