// The command `check`.
ghost use Rattle.std.specs.Prelude.{ℕ, List, ◌≡◌, ◌≤◌, IfErr, IfSome, length};
ghost use Rattle.kit_base.specs.Counts.{counts};
ghost use Rattle.build_core.specs.Reached.{IsReadToCheck};
ghost use Rattle.kit_tools.specs.Carrying.{FailsIn, LeavesBy};
ghost use Rattle.kit_tools.specs.Causes.{HasCauses};
ghost use Rattle.kit_core.specs.inner.Checking.{TextChecked};
ghost use Rattle.kit_core.specs.Due.{check_due, check_reads};

use crate::build_refusal::unbuilt;
use build_core::check_sources;
use kit_base::{Files, Name};
use kit_tools::{Refusal, Shown, read_file};
use std::alloc::Global;

/// Checks the project of that text. A refusal has the project's own name.
fn check_text<F: Files>(
    alloc: Global,
    files: &mut F,
    project: &str,
    text: &[u8],
) -> Result<(), Refusal>
    requires { length text.now ≤ 268435456 }
    ensures held { F.held files.new ≡ F.held files.old }
    ensures told { IfSome (F.held files.old) (λ m. TextChecked project.now text.now m result) }
    // A call that failed was at a file that is read to check the project.
    ensures reached { IfSome (F.held files.old) (λ m. IfErr result (FailsIn (IsReadToCheck m text.now))) }
    ensures causes { HasCauses result (counts F.faults F.misses F.overs files.old) (counts F.faults F.misses F.overs files.new) }
{
    match check_sources(alloc, files, text) {
        Ok(_) => Ok(()),
        Err(error) => {
            let name = Name::new(alloc, project)?;
            Err(unbuilt(name, error))
        }
    }
}

/// `check project`. Nothing is created, and `ok` is printed after it.
pub fn check_command<F: Files>(
    alloc: Global,
    files: &mut F,
    project: &str,
) -> Result<Shown, Refusal>
    ensures told { IfSome (F.held files.old) (λ m. LeavesBy result (check_due project.now m) (check_reads project.now m) m (F.held files.new)) }
    ensures causes { HasCauses result (counts F.faults F.misses F.overs files.old) (counts F.faults F.misses F.overs files.new) }
{
    let text = read_file(alloc, files, project)?;
    check_text(alloc, files, project, &text)?;
    Ok(Shown::Accepted)
}
