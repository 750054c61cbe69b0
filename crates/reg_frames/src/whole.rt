// Programs over registers and slots.
ghost use Rattle.std.specs.Prelude.{◌≡◌, IfOk, map};
ghost use Rattle.reg_frames.specs.inner.Placing.{placed_code};
ghost use Rattle.mid_code.specs.Whole.{mid, placed};
ghost use Rattle.mid_code.specs.View.{code};
ghost use Rattle.mid_code.specs.Invariants.{IsMid};
ghost use Rattle.mid_code.specs.Choices.{AreSafe};
ghost use Rattle.reg_frames.specs.Placeable.{places_of, first_of, later};
ghost use Rattle.reg_frames.specs.PlacedFrom.{IsPlacedFrom};

use crate::functions::{first, place_function, place_functions};
use crate::slices::copy_words;
use kit_base::{Memory, Name, Seq};
use mid_code::laws::mid_code_is_sound;
use mid_code::{Choice, Code, Mid, Placed};
use obj_mem::Frames;
use std::alloc::Global;

fn copy_names(alloc: Global, names: &[Name]) -> Result<Vec<Name>, Memory>
    ensures { IfOk result (λ r. r.items ≡ names.now) }
{
    let mut found = Vec::new(alloc);
    for name in names {
        found.push(name.copy()?)?;
    }
    Ok(found)
}

/// The code over registers and slots: mid code in which each temporary stands where the choice of its function has it, with its slots
/// numbered anew. The frame of a function has its slots, its locals, each in words of its own, and at most seven words in which callers
/// leave arguments for registers. The choices are safe; that of the start stands first. The error is want of memory.
#[tactic(auto, using(crate::proofs::Promised::promised))]
pub fn place(alloc: Global, m: &Mid, choices: &[Choice]) -> Result<Placed, Memory>
    requires safe { AreSafe (mid m.now) (places_of choices.now) }
    ensures placed { IfOk result (λ x. IsPlacedFrom (mid m.now) (places_of choices.now) (placed x)) }
{
    mid_code_is_sound(m);
    let from = m.code();
    let (at, others) = first(choices);
    let start = place_function(alloc, &from.start, at)?;
    let placed = place_functions(alloc, from.functions.as_slice(), others)?;
    let globals = copy_words(alloc, from.globals.as_slice())?;
    let literals = copy_names(alloc, from.literals.as_slice())?;
    let of = Code {
        start: start.function,
        functions: Seq::from_vec(placed.functions),
        globals: Seq::from_vec(globals),
        literals: Seq::from_vec(literals),
        main: from.main,
    };
    let frames = Frames {
        sizes: Seq::from_vec(placed.sizes),
    };
    Ok(Placed::new(of, frames, Seq::from_vec(placed.spots)))
}
