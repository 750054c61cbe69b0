// Writing the outputs of a command.
ghost use Rattle.std.specs.Prelude.{◌≡◌, ◌≤◌, OnOk, OnErr, IfErr};
ghost use Rattle.kit_base.specs.Effects.{all_done, written_file, CutShort};
ghost use Rattle.kit_base.specs.Outside.{HasCause, IsOfWriting};
ghost use Rattle.kit_base.specs.Counts.{counts};
ghost use Rattle.kit_tools.specs.Carrying.{IsCut};
ghost use Rattle.kit_tools.specs.Causes.{HasCauses};

use crate::refusal::{Refusal, unread};
use kit_base::{FileErr, Files, Name};
use std::alloc::Global;

/// Makes the file anew with these bytes.
fn write_file<F: Files>(files: &mut F, name: &str, bytes: &[u8]) -> Result<(), FileErr>
    ensures ok { OnOk result (F.held files.new ≡ all_done (written_file name.now bytes.now) (F.held files.old)) }
    ensures err { OnErr result (CutShort name.now (written_file name.now bytes.now) (F.held files.old) (F.held files.new)) }
    ensures kinds { IfErr result IsOfWriting }
    ensures faults { HasCause FileErr.Failed (F.faults files.old) (F.faults files.new) result }
    ensures misses { F.misses files.old ≤ F.misses files.new }
    ensures overs { F.overs files.old ≤ F.overs files.new }
{
    files.create(name)?;
    files.append(name, bytes)
}

/// Writes one output, whose name was made before.
pub fn write_named<F: Files>(
    files: &mut F,
    own: Name,
    name: &str,
    bytes: &[u8],
) -> Result<(), Refusal>
    requires { own ≡ name.now }
    ensures ok { OnOk result (F.held files.new ≡ all_done (written_file name.now bytes.now) (F.held files.old)) }
    ensures err { IfErr result (λ e. IsCut e (written_file name.now bytes.now) (F.held files.old) (F.held files.new)) }
    ensures causes { HasCauses result (counts F.faults F.misses F.overs files.old) (counts F.faults F.misses F.overs files.new) }
{
    match write_file(files, name, bytes) {
        Ok(()) => Ok(()),
        Err(error) => Err(unread(own, error)),
    }
}

/// Writes one output. The name of the refusal is made first, so that a fault can be told.
pub fn write_output<F: Files>(
    alloc: Global,
    files: &mut F,
    name: &str,
    bytes: &[u8],
) -> Result<(), Refusal>
    ensures ok { OnOk result (F.held files.new ≡ all_done (written_file name.now bytes.now) (F.held files.old)) }
    ensures err { IfErr result (λ e. IsCut e (written_file name.now bytes.now) (F.held files.old) (F.held files.new)) }
    ensures causes { HasCauses result (counts F.faults F.misses F.overs files.old) (counts F.faults F.misses F.overs files.new) }
{
    let own = Name::new(alloc, name)?;
    write_named(files, own, name, bytes)
}
