// The check of a project's source.
ghost use Rattle.std.specs.Prelude.{◌≡◌, ◌≤◌, IfErr, IfSome, length};
ghost use Rattle.kit_base.specs.Counts.{counts};
ghost use Rattle.c_tree.specs.View.{unit};
ghost use Rattle.c_front.specs.Causes.{IsWithin};
ghost use Rattle.c_check.specs.Whole.{WellTyped};
ghost use Rattle.c_types.specs.Programs.{ProgramT};
ghost use Rattle.build_core.specs.Causes.{HasReadCauses};
ghost use Rattle.build_core.specs.Checked.{Accepts, CanBeRefused, Checks, IsOfRules, IsProgramOf, Tells, Types, broken, unread};
ghost use Rattle.build_core.specs.Reached.{FailsAt, IsReadToCheck};

use crate::checked::Checked;
use crate::error::BuildErr;
use crate::fronts::front;
use c_check::{Program, check};
use c_exprs::{CheckErr, Fault};
use c_front::{FrontErr, Parsed, Places};
use c_rules::code_number;
use kit_base::{Name, Reads};
use std::alloc::Global;

/// Why a source has no syntax tree, as a build tells it.
pub fn unread(error: FrontErr) -> BuildErr
    ensures { result ≡ unread error }
{
    match error {
        FrontErr::Source { code, file, line } => BuildErr::Source { code, file, line },
        FrontErr::Missing(name) => BuildErr::Missing(name),
        FrontErr::Failed(name) => BuildErr::Failed(name),
        FrontErr::Limit(name) => BuildErr::Limit(name),
        FrontErr::Memory => BuildErr::Memory,
    }
}

/// A broken rule, at the file and line of the first token of the node that breaks it.
fn broken(places: &Places, fault: Fault) -> BuildErr
    ensures told { Tells result (broken places.now fault) }
    ensures content { IsOfRules result }
{
    let (name, line) = places.place_of(fault.span);
    match name.copy() {
        Ok(file) => BuildErr::Source {
            code: code_number(fault.code),
            file,
            line,
        },
        Err(_) => BuildErr::Memory,
    }
}

/// The typed program of a unit.
pub fn typed(alloc: Global, parsed: &Parsed) -> Result<Program, BuildErr>
    requires within { IsWithin parsed.now }
    ensures typed { Types parsed.now result }
    ensures only { (p : ProgramT) → WellTyped (unit parsed.now.unit) p → IsProgramOf p result }
    ensures content { IfErr result IsOfRules }
{
    match check(alloc, &parsed.unit) {
        Ok(program) => Ok(program),
        Err(CheckErr::Cause(fault)) => Err(broken(&parsed.places, fault)),
        Err(CheckErr::Memory) => Err(BuildErr::Memory),
    }
}

/// Checks the source of the project of that text, which has at most 268,435,456 bytes, and gives its
/// typed program. The source is read from the files, with those that it includes; the dialect's headers
/// lie over the files. A refusal `Source` has the codes 10 to 50 with the file and the line, counted from
/// 1, of the token that decides; `Bad` is a fault of the project's text; `Missing` is the source alone.
/// No file changes.
pub fn check_sources<F: Reads>(
    alloc: Global,
    files: &mut F,
    project: &[u8],
) -> Result<Program, BuildErr>
    requires { length project.now ≤ 268435456 }
    ensures held { F.held files.new ≡ F.held files.old }
    // Where it is told what is held, the answer is the program of a project whose source is well typed, or
    // why there is none, unless a call of the files failed or memory ran out;
    ensures told { IfSome (F.held files.old) (λ m. Checks m project.now result) }
    // and where there is one, it is that one.
    ensures accepts { IfSome (F.held files.old) (λ m. Accepts m project.now result) }
    // Where a call failed, it was at a file that is read to check the project.
    ensures reached { IfSome (F.held files.old) (λ m. FailsAt (IsReadToCheck m project.now) result) }
    ensures kinds { IfErr result (CanBeRefused project.now) }
    ensures causes { HasReadCauses result (counts F.faults F.misses F.overs files.old) (counts F.faults F.misses F.overs files.new) }
{
    match front(alloc, files, project) {
        Ok(checked) => {
            let Checked { program, .. } = checked;
            Ok(program)
        }
        Err(refusal) => Err(refusal),
    }
}
