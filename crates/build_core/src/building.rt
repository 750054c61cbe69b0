// The build of a project.
ghost use Rattle.std.specs.Prelude.{◌≡◌, ◌≤◌, IfOk, IfErr, IfSome, length};
ghost use Rattle.kit_base.specs.Counts.{counts};
ghost use Rattle.project_text.specs.declared.project.Project.{Project};
ghost use Rattle.project_text.specs.ProjectText.{IsProject};
ghost use Rattle.build_core.specs.Build.{Builds, IsAsmText, IsCartText};
ghost use Rattle.build_core.specs.BuiltFrom.{BuildsFrom};
ghost use Rattle.build_core.specs.BuiltMid.{HasMid};
ghost use Rattle.build_core.specs.Causes.{CanCome, HasCauses, IsOfBuilding};
ghost use Rattle.build_core.specs.Fronts.{IsFrontOf};
ghost use Rattle.build_core.specs.Reached.{FailsAt, IsReadBeside, IsReadToBuild};

use crate::assets::read_assets;
use crate::checked::Checked;
use crate::error::BuildErr;
use crate::fronts::front;
use crate::packing::packed;
use crate::reading::project_in;
use crate::sources::token_count;
use asm_items::AsmItem;
use c_image::image_of;
use kit_base::{Files, Seq};
use mid_code::{Choice, Mid};
use project_text::Map;
use std::alloc::Global;

/// The bytes of a cartridge, the map of its program, the items whose written form is the program's assembly text, the mid code for which places were chosen,
/// its choices, that of the start first, and the number of tokens that its source stands for, with all that it includes, at most 200,000.
#[derive(Drop)]
pub struct Built {
    pub cart: Seq<u8>,
    pub map: Map,
    pub items: Seq<AsmItem>,
    pub mid: Mid,
    pub choices: Seq<Choice>,
    pub tokens: u32,
}

/// Builds the project of that text, which has at most 268,435,456 bytes and is of its grammar, of its checked source: the textures and the sounds
/// are read, in order; nothing is written. A refusal is of a texture or a sound, or a `Limit` of the `cartridge`, or want of memory.
pub fn build_from<F: Files>(
    alloc: Global,
    files: &mut F,
    project: &[u8],
    checked: &Checked,
) -> Result<Built, BuildErr>
    requires size { length project.now ≤ 268435456 }
    requires grammar { (parts : Project) × IsProject project.now parts }
    ensures held { F.held files.new ≡ F.held files.old }
    // Where it is told what is held, and this is the project's source there, what was built is built of the project with an image of this source;
    // and a refusal is one that is due; unless a call of the files failed or memory ran out.
    ensures told { IfSome (F.held files.old) (λ m. IsFrontOf m project.now checked.now → BuildsFrom m project.now checked.now result) }
    // The mid code and the choices are those between the program and the words.
    ensures mid { IfSome (F.held files.old) (λ m. IsFrontOf m project.now checked.now → IfOk result (HasMid m project.now)) }
    // Where a call failed, it was at a texture or a sound of the project, and those before it were read and are of their grammar.
    ensures reached { IfSome (F.held files.old) (λ m. FailsAt (IsReadBeside m project.now) result) }
    // The cartridge is one that is read again.
    ensures cartridge { IfOk result (λ b. IsCartText b.cart) }
    // The written form of the items, the program's assembly text, reads as them.
    ensures asm { IfOk result IsAsmText }
    ensures kinds { IfErr result (IsOfBuilding project.now) }
    ensures causes { HasCauses project.now result (counts F.faults F.misses F.overs files.old) (counts F.faults F.misses F.overs files.new) }
{
    let parts = match project_in(alloc, project) {
        Ok(parts) => parts,
        Err(refusal) => return Err(refusal),
    };
    let textures = match read_assets(alloc, files, parts.textures.as_slice()) {
        Ok(textures) => textures,
        Err(refusal) => return Err(refusal),
    };
    let sounds = match read_assets(alloc, files, parts.sounds.as_slice()) {
        Ok(sounds) => sounds,
        Err(refusal) => return Err(refusal),
    };
    let made = match image_of(alloc, &checked.program, &checked.places, &checked.starts) {
        Ok(made) => made,
        Err(_) => return Err(BuildErr::Memory),
    };
    let tokens = token_count(&checked.places);
    packed(alloc, parts.title, made, textures, sounds, tokens)
}

/// Builds the project of that text, which has at most 268,435,456 bytes: its source is read from the files, with those that it includes, and the
/// headers of the dialect lie over the files; then its textures and its sounds are read, in order; nothing is written. A refusal `Source` has the
/// codes 10 to 50 with the file and the line, counted from 1, of the token that decides; `Bad` is a fault of the project's text, of a texture or a
/// sound; `Limit` a file over 268,435,456 bytes, or a `cartridge` over as many.
pub fn build<F: Files>(alloc: Global, files: &mut F, project: &[u8]) -> Result<Built, BuildErr>
    requires { length project.now ≤ 268435456 }
    ensures held { F.held files.new ≡ F.held files.old }
    // Where it is told what is held, what was built is an image of the source's program, whose words do what it means, with the project's textures
    // and sounds; and a refusal is one that is due; unless a call of the files failed or memory ran out.
    ensures told { IfSome (F.held files.old) (λ m. Builds m project.now result) }
    // Of what was built, the mid code and the choices are those between the program and the words: the mid code has the program's runs and is settled.
    ensures mid { IfSome (F.held files.old) (λ m. IfOk result (HasMid m project.now)) }
    // Where a call failed, it was at a file that is read to build the project, and those before it were read and are as they should.
    ensures reached { IfSome (F.held files.old) (λ m. FailsAt (IsReadToBuild m project.now) result) }
    // The cartridge is one that is read again.
    ensures cartridge { IfOk result (λ b. IsCartText b.cart) }
    // The written form of the items, the program's assembly text, reads as them.
    ensures asm { IfOk result IsAsmText }
    ensures kinds { IfErr result (CanCome project.now) }
    ensures causes { HasCauses project.now result (counts F.faults F.misses F.overs files.old) (counts F.faults F.misses F.overs files.new) }
{
    match front(alloc, files, project) {
        Ok(checked) => build_from(alloc, files, project, &checked),
        Err(refusal) => Err(refusal),
    }
}
