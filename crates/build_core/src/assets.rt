// The textures and sounds of a project, read.
ghost use Rattle.std.specs.Prelude.{◌≡◌, IfOk, IfErr, IfSome, IsUtf8, length, List, ℕ, Result};
ghost use Rattle.std.specs.List.{AllByRecursion};
ghost use Rattle.kit_base.specs.Counts.{counts};
ghost use Rattle.kit_base.specs.Gives.{Gives as GivesAsset};
ghost use Rattle.asset_pack.specs.declared.error.AssetFault.{AssetFault};
ghost use Rattle.build_core.specs.Due.{all_of, asset_due, asset_of};
ghost use Rattle.build_core.specs.Causes.{HasReadCauses, IsOfAssets, IsOfTesting, IsOfAsset, IsOfContent};
ghost use Rattle.build_core.specs.Gathered.{Gives, GivesBy};
ghost use Rattle.build_core.specs.Reached.{FailsAt, IsOneRead};

use crate::error::BuildErr;
use crate::reading::read_file;
use asset_pack::{AssetErr, AssetFault, Sound, Texture, read_sound, read_texture};
use kit_base::{Files, Name};
use std::alloc::Global;

/// What a file of a project holds.
pub trait Asset: Drop {
    /// The value of a file's bytes, or the first test that fails.
    ghost value: { List ℕ → Result Self AssetFault };

    fn parse(alloc: Global, bytes: &[u8]) -> Result<Self, AssetErr>
        ensures exact { GivesAsset (λ x. x) result (value bytes.now) }
        ensures codes { IfErr result IsOfTesting };
}

impl Asset for Texture {
    ghost use Rattle.asset_pack.specs.Reading.{texture_in};

    ghost value = { texture_in };

    #[tactic(auto, using(crate::proofs::AssetCodes::texture_codes))]
    fn parse(alloc: Global, bytes: &[u8]) -> Result<Texture, AssetErr> {
        read_texture(alloc, bytes)
    }
}

impl Asset for Sound {
    ghost use Rattle.asset_pack.specs.Reading.{words_in};
    ghost use Rattle.asset_pack.specs.declared.kind.Kind.TheVariants as kinds;

    ghost value = { words_in kinds.Sound };

    #[tactic(auto, using(crate::proofs::AssetCodes::sound_codes))]
    fn parse(alloc: Global, bytes: &[u8]) -> Result<Sound, AssetErr> {
        read_sound(alloc, bytes)
    }
}

/// The value of the file of that name with these bytes.
fn asset_in<A: Asset>(alloc: Global, name: &Name, bytes: &[u8]) -> Result<A, BuildErr>
    ensures told { Gives result (asset_due name.now (A.value bytes.now)) }
    ensures kinds { IfErr result (IsOfAsset name.now) }
    ensures content { IfErr result IsOfContent }
{
    match A::parse(alloc, bytes) {
        Ok(asset) => Ok(asset),
        Err(AssetErr::Cause(AssetFault { code })) => match name.copy() {
            Ok(name) => Err(BuildErr::Bad {
                code,
                name,
                line: None,
            }),
            Err(_) => Err(BuildErr::Memory),
        },
        Err(AssetErr::Memory) => Err(BuildErr::Memory),
    }
}

/// The value of the file of that name.
#[tactic(auto, using(crate::proofs::Counting::of_content), unfolding(crate::specs::Due::asset_of))]
fn read_asset<F: Files, A: Asset>(alloc: Global, files: &mut F, name: &Name) -> Result<A, BuildErr>
    requires { IsUtf8 name.now }
    ensures held { F.held files.new ≡ F.held files.old }
    ensures told { IfSome (F.held files.old) (λ m. Gives result (asset_of A.value m name.now)) }
    ensures kinds { IfErr result (IsOfAsset name.now) }
    ensures causes { HasReadCauses result (counts F.faults F.misses F.overs files.old) (counts F.faults F.misses F.overs files.new) }
{
    let bytes = match read_file(alloc, files, name) {
        Ok(bytes) => bytes,
        Err(refusal) => return Err(refusal),
    };
    asset_in(alloc, name, bytes.as_slice())
}

/// The values of the files of these names, in order.
pub fn read_assets<F: Files, A: Asset>(
    alloc: Global,
    files: &mut F,
    names: &[Name],
) -> Result<Vec<A>, BuildErr>
    requires { AllByRecursion IsUtf8 names.now }
    ensures held { F.held files.new ≡ F.held files.old }
    ensures told { IfSome (F.held files.old) (λ m. GivesBy (λ v. v.items) result (all_of (asset_of A.value m) names.now)) }
    // Where a call failed, it was at one of them, and those before it were read and are of their grammar.
    ensures reached { IfSome (F.held files.old) (λ m. FailsAt (IsOneRead (asset_of A.value m) names.now) result) }
    ensures count { IfOk result (λ v. length v.items ≡ length names.now) }
    ensures kinds { IfErr result (IsOfAssets names.now) }
    ensures causes { HasReadCauses result (counts F.faults F.misses F.overs files.old) (counts F.faults F.misses F.overs files.new) }
{
    let mut assets = Vec::new(alloc);
    'each: for name in names {
        let asset = match read_asset(alloc, files, name) {
            Ok(asset) => asset,
            Err(refusal) => return Err(refusal),
        };
        let Ok(()) = assets.push(asset) else {
            return Err(BuildErr::Memory);
        };
    }
    Ok(assets)
}
