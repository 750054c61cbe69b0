// The command `gen`.
ghost use Rattle.std.specs.Prelude.{ℕ, ◌≡◌, ◌≤◌, ◌++◌, false, Some, OnOk, IfErr, IfSome};
ghost use Rattle.kit_base.specs.Effects.{all_done, written_file};
ghost use Rattle.kit_base.specs.Counts.{counts};
ghost use Rattle.build_core.specs.Causes.{CanBeTooLarge};
ghost use Rattle.build_core.specs.Reached.{IsReadToBuild};
ghost use Rattle.cart_format.specs.Cartridge.{Cartridge};
ghost use Rattle.run_core.specs.Stands.{RunStands};
ghost use Rattle.kit_core.specs.Plain.{plain_setup};
ghost use Rattle.gen_source.specs.Source.{project_text};
ghost use Rattle.gen_source.specs.Summary.{summary_front};
ghost use Rattle.kit_words.specs.Command.{Gen};
ghost use Rattle.kit_words.specs.Forms.{functions_role, in_range, source_name};
ghost use Rattle.kit_words.specs.Number.{number_of};
ghost use Rattle.kit_tools.specs.Carrying.{IsCarried, IsCut, LeavesBy};
ghost use Rattle.kit_tools.specs.Causes.{HasCauses, HasCausesOr, IsOwn};
ghost use Rattle.kit_core.specs.Due.{functions_gen_due, gen_work};
ghost use Rattle.kit_core.specs.inner.Fronts.{Carries, GivesNumber};
ghost use Rattle.kit_core.specs.Generating.{functions_due, most_frames, sources_of};
ghost use Rattle.kit_core.specs.Limits.{IsGenOver};
ghost use Rattle.kit_core.specs.inner.Playing.{AreOutputs};

use crate::building::{Outputs, build_text, made_outputs, write_made};
use crate::plain::PlainRun;
use crate::playing::built_cart;
use build_core::Built;
use cart_format::Cart;
use gen_source::{project_text, source_text, summary_front};
use kit_base::{Files, Name};
use kit_tools::{DueRefusal, Refusal, RefusalCause, Shown, write_named};
use kit_words::{SOURCE_NAME, number_of};
use std::alloc::Global;

/// The most functions of a source that is made up.
const FUNCTION_LIMIT: u32 = 5_000;

/// The most frames of its run.
const FRAMES: u32 = 60;

/// How many functions a number word asks for.
fn functions_of(alloc: Global, word: &str) -> Result<u32, Refusal>
    ensures given { GivesNumber result (functions_due word.now) }
    ensures own { IfErr result (IsOwn (in_range functions_role (number_of word.now) ≡ false)) }
{
    let count = number_of(word.as_bytes());
    if count < 1 || count > FUNCTION_LIMIT {
        return Err(Refusal::Cause(RefusalCause::Due(DueRefusal::OutOfRange(Name::new(
            alloc, word,
        )?))));
    }
    Ok(count)
}

/// Writes the project's file, then its source's, whose names were made before.
fn write_both<F: Files>(
    files: &mut F,
    project: &str,
    project_name: Name,
    source_file: Name,
    source: &[u8],
) -> Result<(), Refusal>
    requires project { project_name ≡ project.now }
    requires source { source_file ≡ source_name }
    ensures ok { OnOk result (F.held files.new ≡ all_done (written_file project.now project_text ++ written_file source_name source.now) (F.held files.old)) }
    ensures err { IfErr result (λ e. IsCut e (written_file project.now project_text ++ written_file source_name source.now) (F.held files.old)
        (F.held files.new)) }
    ensures causes { HasCauses result (counts F.faults F.misses F.overs files.old) (counts F.faults F.misses F.overs files.new) }
{
    write_named(files, project_name, project, project_text())?;
    write_named(files, source_file, SOURCE_NAME, source)
}

/// Makes up the project and its source of `functions` functions, and writes them.
fn write_sources<F: Files>(
    alloc: Global,
    files: &mut F,
    project: &str,
    functions: u32,
) -> Result<(), Refusal>
    ensures ok { OnOk result (F.held files.new ≡ all_done (sources_of project.now functions) (F.held files.old)) }
    ensures err { IfErr result (λ e. IsCut e (sources_of project.now functions) (F.held files.old) (F.held files.new)) }
    ensures causes { HasCauses result (counts F.faults F.misses F.overs files.old) (counts F.faults F.misses F.overs files.new) }
{
    let source = source_text(alloc, functions)?;
    let project_name = Name::new(alloc, project)?;
    let source_file = Name::new(alloc, SOURCE_NAME)?;
    write_both(files, project, project_name, source_file, &source)
}

/// Writes what was built, then does the run, of which nothing is written.
fn write_generated<F: Files>(
    files: &mut F,
    cart: &str,
    map: &str,
    built: &Built,
    outputs: Outputs,
    front: Vec<u8>,
    run: PlainRun,
) -> Result<Shown, Refusal>
    requires { AreOutputs cart.now map.now built.now outputs }
    ensures written { (n : ℕ) (c : Cartridge) → front.items ≡ summary_front n built.now.tokens → RunStands (plain_setup c) most_frames run
        → IsCarried (gen_work n cart.now map.now built.now c) result (F.held files.old) (F.held files.new) }
    ensures causes { HasCauses result (counts F.faults F.misses F.overs files.old) (counts F.faults F.misses F.overs files.new) }
{
    match write_made(files, cart, map, built, outputs) {
        Ok(()) => Ok(Shown::Word(front, run.finish().color)),
        Err(refusal) => Err(refusal),
    }
}

/// Takes all memory, then writes what was built and does its run.
fn generate<F: Files>(
    alloc: Global,
    files: &mut F,
    functions: u32,
    cart: &str,
    map: &str,
    built: &Built,
    cartridge: Cart,
) -> Result<Shown, Refusal>
    ensures written { IsCarried (gen_work functions cart.now map.now built.now cartridge) result (F.held files.old) (F.held files.new) }
    ensures causes { HasCauses result (counts F.faults F.misses F.overs files.old) (counts F.faults F.misses F.overs files.new) }
{
    let outputs = made_outputs(alloc, cart, map, built)?;
    let front = summary_front(alloc, functions, built.tokens)?;
    let run = PlainRun::open(alloc, cartridge, FRAMES)?;
    write_generated(files, cart, map, built, outputs, front, run)
}

/// Builds the project that was made up, whose files were written, and does the run.
#[tactic(auto, using(kit_tools::proofs::Own::wider_causes))]
fn build_made<F: Files>(
    alloc: Global,
    files: &mut F,
    functions: u32,
    project: &str,
    cart: &str,
    map: &str,
) -> Result<Shown, Refusal>
    ensures told { IfSome (F.held files.old) (λ m. LeavesBy result (functions_gen_due functions project.now cart.now map.now m)
        (IsReadToBuild m project_text) m (F.held files.new)) }
    ensures causes { HasCausesOr (CanBeTooLarge project_text) result (counts F.faults F.misses F.overs files.old)
        (counts F.faults F.misses F.overs files.new) }
{
    let built = build_text(alloc, files, project, project_text())?;
    let cartridge = built_cart(alloc, &built)?;
    generate(alloc, files, functions, cart, map, &built, cartridge)
}

/// `gen number project cart map`. The line is printed later.
#[tactic(auto, using(kit_tools::proofs::Own::wider_causes, kit_tools::proofs::Own::own_cause))]
pub fn gen_command<F: Files>(
    alloc: Global,
    files: &mut F,
    number: &str,
    project: &str,
    cart: &str,
    map: &str,
) -> Result<Shown, Refusal>
    ensures told { IfSome (F.held files.old) (λ m. Carries result (Some (Gen number.now project.now cart.now map.now)) m (F.held files.new)) }
    ensures causes { HasCausesOr (IsGenOver number.now) result (counts F.faults F.misses F.overs files.old) (counts F.faults F.misses F.overs files.new) }
{
    let functions = functions_of(alloc, number)?;
    write_sources(alloc, files, project, functions)?;
    build_made(alloc, files, functions, project, cart, map)
}
