// From a cartridge to bytes.
ghost use Rattle.std.specs.Prelude.{◌≡◌, ◌≤◌, ◌<◌, ◌^◌, ◌++◌, length, replicate, flat_map, IfOk, OnOk, IfSome, List, ℕ};
ghost use Rattle.std.specs.List.{AllByRecursion};
ghost use Rattle.asset_pack.specs.Texts.{texture_text, sound_text, IsTexture, IsSound, IsProgram};
ghost use Rattle.cart_format.specs.Table.{name_text, row_text, table_text};
ghost use Rattle.cart_format.specs.Cartridge.{title_text, header_text, sections_text, tail_text, cart_text, total, revision, IsRow, HasRows, IsCartridge};

use crate::cart::Cart;
use crate::row::{LineRow, LineTable};
use crate::table::padding;
use asset_pack::{Sound, Texture, put_sound, put_texture, put_word, put_words, put_words_file};
use kit_base::{Memory, Name};
use std::alloc::Global;

/// Adds `count` zeros.
#[tactic(auto, using(crate::proofs::Laid::zeros_front))]
fn put_zeros(out: &mut Vec<u8>, count: usize) -> Result<(), Memory>
    requires { count ≤ 64 }
    ensures { OnOk result (out.new.items ≡ out.old.items ++ replicate count 0) }
{
    let zeros = [0u8; 64];
    out.extend_from_slice(&zeros[..count])?;
    Ok(())
}

/// Adds a name's length, its bytes, zeros up to a whole word.
#[tactic(auto, using(crate::proofs::Laid::laid3), unfolding(crate::specs::Table::name_text))]
fn put_name(out: &mut Vec<u8>, name: &Name) -> Result<(), Memory>
    requires { length name.now < 2 ^ 32 }
    ensures { OnOk result (out.new.items ≡ out.old.items ++ name_text name.now) }
{
    let bytes = name.bytes();
    put_word(out, bytes.len() as u32)?;
    out.extend_from_slice(bytes)?;
    put_zeros(out, padding(bytes.len()))?;
    Ok(())
}

#[tactic(auto, using(crate::proofs::Laid::laid4), unfolding(crate::specs::Table::row_text))]
fn put_row(out: &mut Vec<u8>, row: &LineRow) -> Result<(), Memory>
    requires { length row.now.name < 2 ^ 32 }
    ensures text { OnOk result (out.new.items ≡ out.old.items ++ row_text row.now) }
    ensures fits { OnOk result (IsRow row.now) }
{
    put_word(out, row.address)?;
    put_word(out, row.file)?;
    put_word(out, row.line)?;
    put_name(out, &row.name)?;
    Ok(())
}

#[tactic(auto, using(crate::proofs::Laid::name_short))]
fn put_names(out: &mut Vec<u8>, names: &[Name]) -> Result<(), Memory>
    requires { length (flat_map name_text names.now) < 2 ^ 32 }
    ensures { OnOk result (out.new.items ≡ out.old.items ++ flat_map name_text names.now) }
{
    'each: for name in names {
        put_name(out, name)?;
    }
    Ok(())
}

#[tactic(auto, using(crate::proofs::Laid::row_short))]
fn put_rows(out: &mut Vec<u8>, rows: &[LineRow]) -> Result<(), Memory>
    requires { length (flat_map row_text rows.now) < 2 ^ 32 }
    ensures text { OnOk result (out.new.items ≡ out.old.items ++ flat_map row_text rows.now) }
    ensures fits { OnOk result (AllByRecursion IsRow rows.now) }
{
    'each: for row in rows {
        put_row(out, row)?;
    }
    Ok(())
}

fn put_textures(out: &mut Vec<u8>, textures: &[Texture]) -> Result<(), Memory>
    ensures text { OnOk result (out.new.items ≡ out.old.items ++ flat_map texture_text textures.now) }
    ensures fits { OnOk result (AllByRecursion IsTexture textures.now) }
{
    'each: for texture in textures {
        put_texture(out, texture)?;
    }
    Ok(())
}

fn put_sounds(out: &mut Vec<u8>, sounds: &[Sound]) -> Result<(), Memory>
    ensures text { OnOk result (out.new.items ≡ out.old.items ++ flat_map sound_text sounds.now) }
    ensures fits { OnOk result (AllByRecursion IsSound sounds.now) }
{
    'each: for sound in sounds {
        put_sound(out, sound)?;
    }
    Ok(())
}

/// Adds the table of these files and rows.
#[tactic(auto, using(crate::proofs::Sizes::lines_size, crate::proofs::Limits::count_files, crate::proofs::Limits::count_rows))]
fn put_lines(out: &mut Vec<u8>, files: &[Name], rows: &[LineRow]) -> Result<(), Memory>
    requires { length (table_text (record { files = files.now; rows = rows.now })) < 2 ^ 32 }
    ensures text { OnOk result (out.new.items ≡ out.old.items ++ table_text (record { files = files.now; rows = rows.now })) }
    ensures fits { OnOk result (AllByRecursion IsRow rows.now) }
{
    out.extend_from_slice(b"KIT-LINE")?;
    put_words(out, &[files.len() as u32, rows.len() as u32])?;
    put_names(out, files)?;
    put_rows(out, rows)?;
    Ok(())
}

fn put_table(out: &mut Vec<u8>, table: &LineTable) -> Result<(), Memory>
    requires { length (table_text table.now) < 2 ^ 32 }
    ensures text { OnOk result (out.new.items ≡ out.old.items ++ table_text table.now) }
    ensures fits { OnOk result (HasRows table.now) }
{
    put_lines(out, table.files.as_slice(), table.rows.as_slice())
}

/// Adds the line table, if there is one.
fn put_tail(out: &mut Vec<u8>, table: &Option<LineTable>) -> Result<(), Memory>
    requires { length (tail_text table.now) < 2 ^ 32 }
    ensures text { OnOk result (out.new.items ≡ out.old.items ++ tail_text table.now) }
    ensures fits { OnOk result (IfSome table.now HasRows) }
{
    match table {
        None => Ok(()),
        Some(table) => put_table(out, table),
    }
}

/// Adds the title in its 64 bytes.
#[tactic(auto, using(crate::proofs::Laid::laid2))]
fn put_title(out: &mut Vec<u8>, title: &Name) -> Result<(), Memory>
    requires { length title.now ≤ 63 }
    ensures { OnOk result (out.new.items ≡ out.old.items ++ title_text title.now) }
{
    let bytes = title.bytes();
    out.extend_from_slice(bytes)?;
    put_zeros(out, 64 - bytes.len())?;
    Ok(())
}

/// Adds the header of 128 bytes, of these fields.
fn put_fields(
    out: &mut Vec<u8>,
    revision: u32,
    total: u32,
    words: u32,
    textures: u32,
    sounds: u32,
    title: &Name,
) -> Result<(), Memory>
    requires { length title.now ≤ 63 }
    ensures { OnOk result (out.new.items ≡ out.old.items ++ header_text revision total words textures sounds title.now) }
{
    out.extend_from_slice(b"KIT-CART")?;
    put_words(out, &[revision, total, words, textures, sounds])?;
    put_title(out, title)?;
    put_zeros(out, 36)?;
    Ok(())
}

#[tactic(auto, using(crate::proofs::Limits::short))]
fn put_header(out: &mut Vec<u8>, cart: &Cart) -> Result<(), Memory>
    ensures { OnOk result (out.new.items ≡ out.old.items ++ header_text (revision cart.now.table) (total cart.now) (length cart.now.program)
        (length cart.now.textures) (length cart.now.sounds) cart.now.title) }
{
    let words = cart.program().len() as u32;
    let textures = cart.textures().len() as u32;
    let sounds = cart.sounds().len() as u32;
    put_fields(
        out,
        cart.revision(),
        cart.size(),
        words,
        textures,
        sounds,
        cart.title(),
    )
}

/// Adds these sections, one directly after the other.
fn put_parts(
    out: &mut Vec<u8>,
    program: &[u32],
    textures: &[Texture],
    sounds: &[Sound],
    table: &Option<LineTable>,
) -> Result<(), Memory>
    requires program { length program.now ≤ 33554432 }
    requires table { length (tail_text table.now) < 2 ^ 32 }
    ensures text { (title : List ℕ) → OnOk result (out.new.items ≡ out.old.items ++ sections_text (record {
      title = title;
      program = program.now;
      textures = textures.now;
      sounds = sounds.now;
      table = table.now;
    })) }
    ensures program { OnOk result (IsProgram program.now) }
    ensures textures { OnOk result (AllByRecursion IsTexture textures.now) }
    ensures sounds { OnOk result (AllByRecursion IsSound sounds.now) }
    ensures table { OnOk result (IfSome table.now HasRows) }
{
    put_words_file(out, program)?;
    put_textures(out, textures)?;
    put_sounds(out, sounds)?;
    put_tail(out, table)?;
    Ok(())
}

#[tactic(auto, using(crate::proofs::Limits::short_program, crate::proofs::Limits::short_tail))]
fn put_sections(out: &mut Vec<u8>, cart: &Cart) -> Result<(), Memory>
    ensures text { OnOk result (out.new.items ≡ out.old.items ++ sections_text cart.now) }
    ensures fits { OnOk result (IsCartridge cart.now) }
{
    put_parts(
        out,
        cart.program(),
        cart.textures(),
        cart.sounds(),
        cart.table(),
    )
}

/// The file of the cartridge. The error is want of memory.
#[tactic(auto, using(crate::proofs::Laid::laid2), unfolding(crate::specs::Cartridge::cart_text))]
pub fn write_cart(alloc: Global, cart: &Cart) -> Result<Vec<u8>, Memory>
    ensures text { IfOk result (λ v. v.items ≡ cart_text cart.now) }
    // What was written is in the form that is read again.
    ensures fits { IfOk result (λ _. IsCartridge cart.now) }
{
    let mut out = Vec::with_capacity(alloc, cart.size() as usize)?;
    put_header(&mut out, cart)?;
    put_sections(&mut out, cart)?;
    Ok(out)
}
