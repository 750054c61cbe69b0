// The front of a build.
ghost use Rattle.std.specs.Prelude.{◌≡◌, ◌≤◌, IfOk, IfErr, IfSome, length};
ghost use Rattle.kit_base.specs.Counts.{counts};
ghost use Rattle.project_text.specs.declared.project.Project.{Project};
ghost use Rattle.project_text.specs.ProjectText.{IsProject};
ghost use Rattle.build_core.specs.Causes.{HasReadCauses};
ghost use Rattle.build_core.specs.Checked.{CanBeRefused};
ghost use Rattle.build_core.specs.Fronts.{AcceptsFront, Fronts};
ghost use Rattle.build_core.specs.Reached.{FailsAt, IsReadToCheck};

use crate::checked::Checked;
use crate::error::BuildErr;
use crate::reading::project_in;
use crate::sources::read_source;
use kit_base::Reads;
use std::alloc::Global;

/// The source of the project of that text, read and typed. Refusals are those of a check.
pub fn front<F: Reads>(alloc: Global, files: &mut F, project: &[u8]) -> Result<Checked, BuildErr>
    requires { length project.now ≤ 268435456 }
    ensures held { F.held files.new ≡ F.held files.old }
    ensures told { IfSome (F.held files.old) (λ m. Fronts m project.now result) }
    ensures accepts { IfSome (F.held files.old) (λ m. AcceptsFront m project.now result) }
    // Where a call failed, it was at a file that is read to check the project.
    ensures reached { IfSome (F.held files.old) (λ m. FailsAt (IsReadToCheck m project.now) result) }
    ensures project { IfOk result (λ _. (parts : Project) × IsProject project.now parts) }
    ensures kinds { IfErr result (CanBeRefused project.now) }
    ensures causes { HasReadCauses result (counts F.faults F.misses F.overs files.old) (counts F.faults F.misses F.overs files.new) }
{
    match project_in(alloc, project) {
        Ok(parts) => read_source(alloc, files, &parts.source),
        Err(refusal) => Err(refusal),
    }
}
