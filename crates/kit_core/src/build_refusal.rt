// Why a build or a check is refused.
ghost use Rattle.std.specs.Prelude.{◌≡◌};
ghost use Rattle.kit_core.specs.Due.{unbuilt};

use build_core::BuildErr;
use kit_base::Name;
use kit_tools::{DueRefusal, Refusal, RefusalCause};

/// The refusal of a build. A fault in a line of the project's text goes by the project's own name.
pub fn unbuilt(project: Name, error: BuildErr) -> Refusal
    ensures { result ≡ unbuilt project error }
{
    match error {
        BuildErr::Source { code, file, line } => Refusal::Cause(RefusalCause::Due(
            DueRefusal::Source { code, file, line },
        )),
        BuildErr::Missing(name) => Refusal::Cause(RefusalCause::Due(DueRefusal::Missing(name))),
        BuildErr::Failed(name) => Refusal::Cause(RefusalCause::Failed(name)),
        BuildErr::Bad {
            code,
            name,
            line: None,
        } => Refusal::Cause(RefusalCause::Due(DueRefusal::Bad {
            code,
            name,
            line: None,
        })),
        BuildErr::Bad {
            code,
            line: Some(line),
            ..
        } => Refusal::Cause(RefusalCause::Due(DueRefusal::Bad {
            code,
            name: project,
            line: Some(u64::from(line)),
        })),
        BuildErr::Limit(name) => Refusal::Cause(RefusalCause::Due(DueRefusal::Limit(name))),
        BuildErr::Memory => Refusal::Memory,
    }
}
