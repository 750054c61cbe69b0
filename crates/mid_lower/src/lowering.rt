// Whole programs, lowered.
ghost use Rattle.std.specs.Prelude.{◌≡◌, map, IfOk};
ghost use Rattle.c_check.specs.View.{program};
ghost use Rattle.mid_code.specs.Whole.{mid};
ghost use Rattle.lower_trees.specs.Lowered.{lowered};
ghost use Rattle.mid_lower.specs.LoweredFrom.{IsLoweredFrom};

use c_check::Program;
use c_facts::laws::{
    functions_have_few_locals, known_types_have_sizes, programs_are_sound, programs_have_few_nodes,
    starts_are_given,
};
use c_facts::numbers_are_words;
use kit_base::{Memory, Name, Seq};
use lower_trees::{Reading, lower_functions, lower_start};
use mid_code::{Code, Mid};
use std::alloc::Global;

fn copy_names(alloc: Global, names: &[Name]) -> Result<Vec<Name>, Memory>
    ensures { IfOk result (λ r. r.items ≡ names.now) }
{
    let mut found = Vec::new(alloc);
    for name in names {
        found.push(name.copy()?)?;
    }
    Ok(found)
}

/// The words of the globals.
fn copy_sizes(alloc: Global, globals: &[(Name, u32)]) -> Result<Vec<u32>, Memory>
    ensures { IfOk result (λ r. r.items ≡ map (λ g. g.1) globals.now) }
{
    let mut found = Vec::new(alloc);
    for g in globals {
        found.push(g.1)?;
    }
    Ok(found)
}

/// The code that a checked program is lowered to: exactly what the definition tells. It keeps the program's runs in at most 64 times its work, weighs at
/// most 128 a node of the tree, and has few temporaries, locals and levels. The error is want of memory.
pub fn lower(alloc: Global, checked: &Program) -> Result<Mid, Memory>
    ensures lowered { IfOk result (λ m. mid m ≡ lowered (program checked.now)) }
    ensures from { IfOk result (λ m. IsLoweredFrom (program checked.now) (mid m)) }
{
    programs_are_sound(checked);
    programs_have_few_nodes(checked);
    functions_have_few_locals(checked);
    known_types_have_sizes();
    starts_are_given();
    numbers_are_words(checked);
    let s = Reading {
        alloc,
        layouts: checked.layouts(),
        functions: checked.functions(),
        literals: checked.literals(),
    };
    let start = lower_start(&s, checked.inits())?;
    let functions = lower_functions(&s, checked.functions())?;
    let globals = copy_sizes(alloc, checked.globals())?;
    let literals = copy_names(alloc, checked.literals())?;
    Ok(Mid::new(Code {
        start,
        functions: Seq::from_vec(functions),
        globals: Seq::from_vec(globals),
        literals: Seq::from_vec(literals),
        main: checked.main(),
    }))
}
