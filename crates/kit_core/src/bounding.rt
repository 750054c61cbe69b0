// The command `bounds`.
ghost use Rattle.std.specs.Prelude.{◌≡◌, IfSome, IfOk, OnOk, IfErr, map};
ghost use Rattle.kit_base.specs.Effects.{all_done};
ghost use Rattle.kit_base.specs.Counts.{counts};
ghost use Rattle.cycle_bound.specs.Lines.{IsTold};
ghost use Rattle.kit_tools.specs.Carrying.{IsCut, LeavesBy};
ghost use Rattle.kit_tools.specs.Causes.{HasCauses, HasCausesOr};
ghost use Rattle.kit_core.specs.Limits.{IsLarge};
ghost use Rattle.kit_core.specs.Due.{bounds_due, bounds_effects, build_reads, function_names};

use crate::building::{build_text, made_outputs, write_made};
use asm_items::write_asm;
use build_core::Built;
use cycle_bound::tell_bounds;
use kit_base::{Files, Memory as OutOfMemory, Name};
use kit_tools::{Refusal, Shown, read_file, write_named};
use std::alloc::Global;

/// The names of those rows.
fn names_of(alloc: Global, rows: &[(Name, u32, u32)]) -> Result<Vec<Name>, OutOfMemory>
    ensures { IfOk result (λ v. v.items ≡ map (λ row. row.0) rows.now) }
{
    let mut names = Vec::new(alloc);
    'rows: for row in rows {
        names.push(row.0.copy()?)?;
    }
    Ok(names)
}

/// The lines of the functions of what was built, by the items of its assembly text.
fn lines_of(alloc: Global, built: &Built) -> Result<Vec<u8>, OutOfMemory>
    ensures { IfOk result (λ v. IsTold built.now.items (function_names built.now.map) v.items) }
{
    let names = names_of(alloc, built.map.frames.as_slice())?;
    tell_bounds(alloc, built.items.as_slice(), &names)
}

/// Makes what the writing takes, then writes the cartridge, the map and the assembly text.
fn write_three<F: Files>(
    alloc: Global,
    files: &mut F,
    cart: &str,
    map: &str,
    text: &str,
    built: &Built,
) -> Result<(), Refusal>
    ensures ok { OnOk result (F.held files.new ≡ all_done (bounds_effects cart.now map.now text.now built.now) (F.held files.old)) }
    ensures err { IfErr result (λ e. IsCut e (bounds_effects cart.now map.now text.now built.now) (F.held files.old) (F.held files.new)) }
    ensures causes { HasCauses result (counts F.faults F.misses F.overs files.old) (counts F.faults F.misses F.overs files.new) }
{
    let outputs = made_outputs(alloc, cart, map, built)?;
    let text_name = Name::new(alloc, text)?;
    let assembly = write_asm(alloc, built.items.as_slice())?;
    write_made(files, cart, map, built, outputs)?;
    write_named(files, text_name, text, &assembly)
}

/// `bounds project cart map text`. The lines of the functions are printed after it.
#[tactic(auto, using(kit_tools::proofs::Own::wider_causes))]
pub fn bounds_command<F: Files>(
    alloc: Global,
    files: &mut F,
    project: &str,
    cart: &str,
    map: &str,
    text: &str,
) -> Result<Shown, Refusal>
    ensures told { IfSome (F.held files.old) (λ m. LeavesBy result (bounds_due project.now cart.now map.now text.now m) (build_reads project.now m) m
        (F.held files.new)) }
    ensures causes { HasCausesOr (IsLarge project.now (F.held files.old)) result (counts F.faults F.misses F.overs files.old)
        (counts F.faults F.misses F.overs files.new) }
{
    let source = read_file(alloc, files, project)?;
    let built = build_text(alloc, files, project, &source)?;
    let lines = lines_of(alloc, &built)?;
    write_three(alloc, files, cart, map, text, &built)?;
    Ok(Shown::Lines(lines))
}
