// From bytes to a cartridge.
ghost use Rattle.std.specs.Prelude.{◌≡◌, ◌≤◌, length, None, Ok, IfOk};
ghost use Rattle.kit_base.specs.Gives.{Gives};
ghost use Rattle.cart_format.specs.Cartridge.{Cartridge, IsCartridge, cart_text};
ghost use Rattle.cart_format.specs.Tests.{header_fault, title_at};
ghost use Rattle.cart_format.specs.Reading.{parts_of, sections_of, cart_of};

use crate::cart::{Cart, of_parts};
use crate::error::{CartErr, CartFault};
use crate::header::{header_fault, until_zero};
use crate::row::LineTable;
use crate::sections::{many, program_at};
use crate::table::tail_at;
use asset_pack::{Sound, Texture, word_at};
use kit_base::{Memory, Name, Seq};
use std::alloc::Global;

/// The sections of a cartridge.
#[derive(Drop)]
struct Parts {
    program: Vec<u32>,
    textures: Seq<Texture>,
    sounds: Seq<Sound>,
    table: Option<LineTable>,
}

/// The sections of a revision with `words` words, `textures` textures and `sounds` sounds, to the end of the bytes.
#[tactic(auto, unfolding(crate::specs::Reading::parts_of))]
fn parts_of(
    alloc: Global,
    revision: u32,
    words: u32,
    textures: u32,
    sounds: u32,
    bytes: &[u8],
) -> Result<Parts, CartErr>
    requires words { words ≤ 33554432 }
    requires textures { textures ≤ 256 }
    requires sounds { sounds ≤ 1024 }
    ensures { Gives (λ x. (x.program.items, x.textures, x.sounds, x.table)) result (parts_of revision words textures sounds bytes.now) }
{
    let last = 1 + textures + sounds;
    let (program, rest) = program_at(alloc, words, bytes)?;
    let (images, rest) = many::<Texture>(alloc, 1, 1, textures, rest)?;
    let (samples, rest) = many::<Sound>(alloc, 1, 1 + textures, sounds, rest)?;
    let (table, rest) = tail_at(alloc, revision, last, words, rest)?;
    if !rest.is_empty() {
        return Err(CartErr::Cause(CartFault::At { code: 82 }));
    }
    Ok(Parts {
        program,
        textures: images,
        sounds: samples,
        table,
    })
}

/// The title in its 64 bytes.
fn title_at(alloc: Global, bytes: &[u8]) -> Result<Name, Memory>
    requires { 128 ≤ length bytes.now }
    ensures { IfOk result (λ n. n ≡ title_at bytes.now) }
{
    Name::from_bytes(alloc, until_zero(&bytes[28..92]))
}

/// The cartridge whose header passed its tests.
#[tactic(auto, using(crate::proofs::Headers::counted), unfolding(crate::specs::Reading::sections_of))]
fn sections_of(alloc: Global, bytes: &[u8]) -> Result<Cart, CartErr>
    requires { header_fault bytes.now ≡ None }
    ensures { Gives (λ c. c) result (sections_of bytes.now) }
{
    let revision = word_at(bytes, 8);
    let words = word_at(bytes, 16);
    let textures = word_at(bytes, 20);
    let sounds = word_at(bytes, 24);
    let (_, rest) = bytes.split_at(128);
    let parts = parts_of(alloc, revision, words, textures, sounds, rest)?;
    let Ok(title) = title_at(alloc, bytes) else {
        return Err(CartErr::Memory);
    };
    Ok(of_parts(
        title,
        parts.program,
        parts.textures,
        parts.sounds,
        parts.table,
    ))
}

/// The cartridge that all of the bytes are.
#[tactic(auto, unfolding(crate::specs::Reading::cart_of))]
fn cart_of(alloc: Global, bytes: &[u8]) -> Result<Cart, CartErr>
    ensures { Gives (λ c. c) result (cart_of bytes.now) }
{
    if let Some(e) = header_fault(bytes) {
        return Err(CartErr::Cause(e));
    }
    sections_of(alloc, bytes)
}

/// The cartridge of a file. The error is the first test that fails, or want of memory.
#[tactic(auto, using(crate::proofs::Found::cart_found, crate::proofs::Carts::cart_only))]
pub fn read_cart(alloc: Global, bytes: &[u8]) -> Result<Cart, CartErr>
    // What is read is spelled so, each byte of it.
    ensures found { IfOk result (λ c. IsCartridge c × (bytes.now ≡ cart_text c)) }
    // What is spelled so is read, unless memory runs out.
    ensures only { (c : Cartridge) → IsCartridge c → bytes.now ≡ cart_text c → Gives (λ r. r) result (Ok c) }
    // The cartridge by the places of its fields, where no test fails, else the first that fails.
    ensures exact { Gives (λ c. c) result (cart_of bytes.now) }
{
    cart_of(alloc, bytes)
}
