// A project that can be watched: its checked source, and what is built of it.
ghost use Rattle.std.specs.Prelude.{◌≡◌, ◌≤◌, IfErr, IfOk, IfSome, length};
ghost use Rattle.kit_base.specs.Counts.{counts};
ghost use Rattle.build_core.specs.Build.{IsCartText};
ghost use Rattle.build_core.specs.Causes.{CanBeTooLarge, HasCauses as HasBuildCauses};
ghost use Rattle.build_core.specs.Reached.{FailsAt, IsReadToBuild};
ghost use Rattle.kit_tools.specs.Carrying.{FailsIn};
ghost use Rattle.kit_tools.specs.Causes.{HasCausesOr};
ghost use Rattle.kit_core.specs.inner.Following.{BuildsWatchable, TextWatchable};

use crate::build_refusal::unbuilt;
use build_core::{BuildErr, Built, Checked, build_from, front};
use kit_base::{Files, Name};
use kit_tools::Refusal;
use std::alloc::Global;

/// A project's checked source, and what was built of it.
#[derive(Drop)]
pub struct Watchable {
    pub checked: Checked,
    pub built: Built,
}

/// Checks the source of the project of that text, then builds of it.
fn checked_and_built<F: Files>(
    alloc: Global,
    files: &mut F,
    text: &[u8],
) -> Result<Watchable, BuildErr>
    requires { length text.now ≤ 268435456 }
    ensures held { F.held files.new ≡ F.held files.old }
    ensures told { IfSome (F.held files.old) (λ m. BuildsWatchable m text.now result) }
    ensures reached { IfSome (F.held files.old) (λ m. FailsAt (IsReadToBuild m text.now) result) }
    ensures cartridge { IfOk result (λ w. IsCartText w.built.cart) }
    ensures causes { HasBuildCauses text.now result (counts F.faults F.misses F.overs files.old) (counts F.faults F.misses F.overs files.new) }
{
    match front(alloc, files, text) {
        Ok(checked) => match build_from(alloc, files, text, &checked) {
            Ok(built) => Ok(Watchable { checked, built }),
            Err(refusal) => Err(refusal),
        },
        Err(refusal) => Err(refusal),
    }
}

/// Checks and builds the project of that text. A refusal has the project's own name.
pub fn build_watchable<F: Files>(
    alloc: Global,
    files: &mut F,
    project: &str,
    text: &[u8],
) -> Result<Watchable, Refusal>
    requires { length text.now ≤ 268435456 }
    ensures held { F.held files.new ≡ F.held files.old }
    ensures told { IfSome (F.held files.old) (λ m. TextWatchable project.now text.now m result) }
    // A call that failed was at a file that is read to build the project.
    ensures reached { IfSome (F.held files.old) (λ m. IfErr result (FailsIn (IsReadToBuild m text.now))) }
    ensures cartridge { IfOk result (λ w. IsCartText w.built.cart) }
    ensures causes { HasCausesOr (CanBeTooLarge text.now) result (counts F.faults F.misses F.overs files.old) (counts F.faults F.misses F.overs files.new) }
{
    match checked_and_built(alloc, files, text) {
        Ok(made) => Ok(made),
        Err(error) => {
            let name = Name::new(alloc, project)?;
            Err(unbuilt(name, error))
        }
    }
}
