// The project and the files that it names, read.
ghost use Rattle.std.specs.Prelude.{◌≡◌, ◌≤◌, IfOk, IfErr, IfSome, IsUtf8, length};
ghost use Rattle.kit_base.specs.Counts.{counts};
ghost use Rattle.project_text.specs.ProjectText.{IsProject};
ghost use Rattle.project_text.specs.Reading.{project_of};
ghost use Rattle.build_core.specs.Due.{project_due, read_of};
ghost use Rattle.build_core.specs.Causes.{CanCome, IsOfReading, IsOfContent, HasReadCauses};
ghost use Rattle.build_core.specs.Gathered.{Gives, GivesBy};

use crate::error::BuildErr;
use kit_base::{FileErr, Files, Name};
use project_text::{Project, ProjectErr, read_project};
use std::alloc::Global;

/// The project that the text spells.
pub fn project_in(alloc: Global, text: &[u8]) -> Result<Project, BuildErr>
    requires { length text.now ≤ 268435456 }
    ensures told { Gives result (project_due (project_of text.now)) }
    ensures found { IfOk result (IsProject text.now) }
    ensures kinds { IfErr result (CanCome text.now) }
    ensures content { IfErr result IsOfContent }
{
    match read_project(alloc, text) {
        Ok(project) => Ok(project),
        Err(ProjectErr::At { code, line }) => match Name::new(alloc, "project") {
            Ok(name) => Err(BuildErr::Bad {
                code,
                name,
                line: Some(line),
            }),
            Err(_) => Err(BuildErr::Memory),
        },
        Err(ProjectErr::Memory) => Err(BuildErr::Memory),
    }
}

/// The bytes of the file of that name.
pub fn read_file<F: Files>(alloc: Global, files: &mut F, name: &Name) -> Result<Vec<u8>, BuildErr>
    requires { IsUtf8 name.now }
    ensures held { F.held files.new ≡ F.held files.old }
    ensures told { IfSome (F.held files.old) (λ m. GivesBy (λ v. v.items) result (read_of m name.now)) }
    ensures kinds { IfErr result (IsOfReading name.now) }
    ensures causes { HasReadCauses result (counts F.faults F.misses F.overs files.old) (counts F.faults F.misses F.overs files.new) }
{
    let Ok(named) = name.copy() else {
        return Err(BuildErr::Memory);
    };
    match files.read(alloc, name.as_str()) {
        Ok(bytes) => Ok(bytes),
        Err(FileErr::Missing) => Err(BuildErr::Missing(named)),
        Err(FileErr::Failed) => Err(BuildErr::Failed(named)),
        Err(FileErr::TooLong) => Err(BuildErr::Limit(named)),
        Err(FileErr::Memory) => Err(BuildErr::Memory),
    }
}
