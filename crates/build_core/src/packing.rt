// From an image to a cartridge.
ghost use Rattle.std.specs.Prelude.{◌≡◌, ◌≤◌, true, IfOk, IfErr, length};
ghost use Rattle.std.specs.List.{AllByRecursion};
ghost use Rattle.asset_pack.specs.Texts.{HasSides, HasSamples};
ghost use Rattle.project_text.specs.Grammar.{IsText};
ghost use Rattle.cart_format.specs.Table.{is_table};
ghost use Rattle.mid_code.specs.Whole.{mid};
ghost use Rattle.reg_frames.specs.Placeable.{places_of};
ghost use Rattle.c_image.specs.Imaging.{image};
ghost use Rattle.build_core.specs.Due.{assets};
ghost use Rattle.build_core.specs.Build.{IsCartText, cartridge_of};
ghost use Rattle.build_core.specs.Causes.{IsOfPacking};
ghost use Rattle.build_core.specs.inner.Packing.{IsPackedFrom};

use crate::building::Built;
use crate::error::BuildErr;
use asset_pack::{Sound, Texture};
use c_image::Image;
use cart_format::{Cart, write_cart};
use kit_base::{Name, Seq};
use std::alloc::Global;

/// What a texture keeps as a fact of its type. It does nothing: the proof has the fact from the call.
fn has_sides(texture: &Texture)
    ensures { HasSides texture.now }
{
    let _ = texture.pixels();
}

/// The same of each of them. The walk is for the proof alone.
#[tactic(auto, using(crate::proofs::Limits::sides_more))]
fn have_sides(textures: &[Texture])
    ensures { AllByRecursion HasSides textures.now }
{
    'each: for texture in textures {
        has_sides(texture);
    }
}

/// What a sound keeps as a fact of its type. It does nothing: the proof has the fact from the call.
fn has_samples(sound: &Sound)
    ensures { HasSamples sound.now }
{
    let _ = sound.samples();
}

/// The same of each of them. The walk is for the proof alone.
#[tactic(auto, using(crate::proofs::Limits::samples_more))]
fn have_samples(sounds: &[Sound])
    ensures { AllByRecursion HasSamples sounds.now }
{
    'each: for sound in sounds {
        has_samples(sound);
    }
}

/// The cartridge of an image, and what else was built, with that number of tokens.
pub fn packed(
    alloc: Global,
    title: Name,
    made: Image,
    textures: Vec<Texture>,
    sounds: Vec<Sound>,
    tokens: u32,
) -> Result<Built, BuildErr>
    requires title { IsText 63 title }
    requires some { 1 ≤ length made.words.items }
    requires few { length made.words.items ≤ 33554432 }
    requires table { is_table (length made.words.items) (image made).table ≡ true }
    requires textures { length textures.items ≤ 256 }
    requires sounds { length sounds.items ≤ 1024 }
    ensures packed { IfOk result (IsPackedFrom title (image made) (assets textures.items sounds.items) tokens) }
    ensures mid { IfOk result (λ b. mid b.mid ≡ mid made.mid) }
    ensures choices { IfOk result (λ b. places_of b.choices ≡ places_of made.choices.items) }
    ensures cartridge { IfOk result (λ b. IsCartText b.cart) }
    ensures kinds { IfErr result (IsOfPacking (cartridge_of title (image made) (assets textures.items sounds.items))) }
{
    have_sides(&textures);
    have_samples(&sounds);
    let Some(cart) = Cart::with_lines(title, made.words, textures, sounds, made.files, made.rows)
    else {
        let Ok(name) = Name::new(alloc, "cartridge") else {
            return Err(BuildErr::Memory);
        };
        return Err(BuildErr::Limit(name));
    };
    let Ok(bytes) = write_cart(alloc, &cart) else {
        return Err(BuildErr::Memory);
    };
    Ok(Built {
        cart: Seq::from_vec(bytes),
        map: made.map,
        items: Seq::from_vec(made.items),
        mid: made.mid,
        choices: Seq::from_vec(made.choices),
        tokens,
    })
}
