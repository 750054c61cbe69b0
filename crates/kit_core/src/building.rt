// The command `build`.
ghost use Rattle.std.specs.Prelude.{◌≡◌, ◌≤◌, IfSome, IfOk, OnOk, IfErr, length};
ghost use Rattle.kit_base.specs.Effects.{all_done};
ghost use Rattle.kit_base.specs.Counts.{counts};
ghost use Rattle.build_core.specs.Build.{IsCartText};
ghost use Rattle.build_core.specs.Causes.{CanBeTooLarge};
ghost use Rattle.build_core.specs.Reached.{IsReadToBuild};
ghost use Rattle.kit_tools.specs.Carrying.{FailsIn, IsCut, LeavesBy};
ghost use Rattle.kit_tools.specs.Causes.{HasCauses, HasCausesOr};
ghost use Rattle.kit_core.specs.Limits.{IsLarge};
ghost use Rattle.kit_core.specs.inner.Checking.{TextBuilt};
ghost use Rattle.kit_core.specs.Due.{build_due, build_reads, outputs_of};
ghost use Rattle.kit_core.specs.inner.Playing.{AreOutputs};

use crate::build_refusal::unbuilt;
use build_core::{Built, build};
use kit_base::{Files, Memory as OutOfMemory, Name};
use kit_tools::{Refusal, Shown, read_file, write_named};
use project_text::write_map;
use std::alloc::Global;

/// Builds the project of that text. A refusal has the project's own name.
pub fn build_text<F: Files>(
    alloc: Global,
    files: &mut F,
    project: &str,
    text: &[u8],
) -> Result<Built, Refusal>
    requires { length text.now ≤ 268435456 }
    ensures held { F.held files.new ≡ F.held files.old }
    ensures told { IfSome (F.held files.old) (λ m. TextBuilt project.now text.now m result) }
    // A call that failed was at a file that is read to build the project.
    ensures reached { IfSome (F.held files.old) (λ m. IfErr result (FailsIn (IsReadToBuild m text.now))) }
    ensures cartridge { IfOk result (λ b. IsCartText b.cart) }
    ensures causes { HasCausesOr (CanBeTooLarge text.now) result (counts F.faults F.misses F.overs files.old) (counts F.faults F.misses F.overs files.new) }
{
    match build(alloc, files, text) {
        Ok(built) => Ok(built),
        Err(error) => {
            let name = Name::new(alloc, project)?;
            Err(unbuilt(name, error))
        }
    }
}

/// The names of the files that a build writes, made before so that a fault can be told, and the bytes of its map.
#[derive(Drop)]
pub struct Outputs {
    pub cart_name: Name,
    pub map_name: Name,
    pub map_bytes: Vec<u8>,
}

/// What the writing of a build takes.
pub fn made_outputs(
    alloc: Global,
    cart: &str,
    map: &str,
    built: &Built,
) -> Result<Outputs, OutOfMemory>
    ensures { IfOk result (AreOutputs cart.now map.now built.now) }
{
    let cart_name = Name::new(alloc, cart)?;
    let map_name = Name::new(alloc, map)?;
    let map_bytes = write_map(alloc, &built.map)?;
    Ok(Outputs {
        cart_name,
        map_name,
        map_bytes,
    })
}

/// Writes the cartridge, then the map.
pub fn write_made<F: Files>(
    files: &mut F,
    cart: &str,
    map: &str,
    built: &Built,
    outputs: Outputs,
) -> Result<(), Refusal>
    requires { AreOutputs cart.now map.now built.now outputs }
    ensures ok { OnOk result (F.held files.new ≡ all_done (outputs_of cart.now map.now built.now) (F.held files.old)) }
    ensures err { IfErr result (λ e. IsCut e (outputs_of cart.now map.now built.now) (F.held files.old) (F.held files.new)) }
    ensures causes { HasCauses result (counts F.faults F.misses F.overs files.old) (counts F.faults F.misses F.overs files.new) }
{
    let Outputs {
        cart_name,
        map_name,
        map_bytes,
    } = outputs;
    write_named(files, cart_name, cart, built.cart.as_slice())?;
    write_named(files, map_name, map, &map_bytes)
}

/// Makes what the writing takes, then writes.
fn write_outputs<F: Files>(
    alloc: Global,
    files: &mut F,
    cart: &str,
    map: &str,
    built: &Built,
) -> Result<(), Refusal>
    ensures ok { OnOk result (F.held files.new ≡ all_done (outputs_of cart.now map.now built.now) (F.held files.old)) }
    ensures err { IfErr result (λ e. IsCut e (outputs_of cart.now map.now built.now) (F.held files.old) (F.held files.new)) }
    ensures causes { HasCauses result (counts F.faults F.misses F.overs files.old) (counts F.faults F.misses F.overs files.new) }
{
    let outputs = made_outputs(alloc, cart, map, built)?;
    write_made(files, cart, map, built, outputs)
}

/// `build project cart map`. There is no text to put after it.
#[tactic(auto, using(kit_tools::proofs::Own::wider_causes))]
pub fn build_command<F: Files>(
    alloc: Global,
    files: &mut F,
    project: &str,
    cart: &str,
    map: &str,
) -> Result<Shown, Refusal>
    ensures told { IfSome (F.held files.old) (λ m. LeavesBy result (build_due project.now cart.now map.now m) (build_reads project.now m) m
        (F.held files.new)) }
    ensures causes { HasCausesOr (IsLarge project.now (F.held files.old)) result (counts F.faults F.misses F.overs files.old)
        (counts F.faults F.misses F.overs files.new) }
{
    let text = read_file(alloc, files, project)?;
    let built = build_text(alloc, files, project, &text)?;
    write_outputs(alloc, files, cart, map, &built)?;
    Ok(Shown::Nothing)
}
