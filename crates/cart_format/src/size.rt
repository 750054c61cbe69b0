// The size of a cartridge as a file.
ghost use Rattle.std.specs.Prelude.{◌≡◌, ◌≤◌, ◌+◌, ◌-◌, ◌^◌, length, min, flat_map, List, ℕ};
ghost use Rattle.asset_pack.specs.Texts.{texture_text, sound_text};
ghost use Rattle.cart_format.specs.Table.{name_text, row_text, table_text};
ghost use Rattle.cart_format.specs.Cartridge.{tail_text, is_tail, total};

use crate::row::{LineRow, LineTable};
use crate::table::{is_table, padding};
use asset_pack::{Sound, Texture};
use kit_base::Name;

/// Whether a line table, if there is one, is of its form.
pub(crate) fn is_tail(words: usize, table: &Option<LineTable>) -> bool
    requires { words ≤ 33554432 }
    ensures { result ≡ is_tail words table.now }
{
    match table {
        None => true,
        Some(table) => is_table(words, table),
    }
}

/// The size of the textures, up to the greatest number.
#[tactic(auto, using(crate::proofs::Sizes::texture_grown))]
fn textures_size(textures: &[Texture]) -> u64
    ensures { result ≡ min (length (flat_map texture_text textures.now)) (2 ^ 64 - 1) }
{
    let mut size: u64 = 0;
    'each: for texture in textures {
        size = size.saturating_add(16 + 4 * texture.pixels().len() as u64);
    }
    size
}

/// The size of the sounds, up to the greatest number.
#[tactic(auto, using(crate::proofs::Sizes::sound_grown))]
fn sounds_size(sounds: &[Sound]) -> u64
    ensures { result ≡ min (length (flat_map sound_text sounds.now)) (2 ^ 64 - 1) }
{
    let mut size: u64 = 0;
    'each: for sound in sounds {
        size = size.saturating_add(12 + 4 * sound.samples().len() as u64);
    }
    size
}

/// The size of a name with its length and its zeros.
#[tactic(auto, using(crate::proofs::Sizes::name_size))]
fn name_size(name: &Name) -> u64
    ensures { result ≡ length (name_text name.now) }
{
    let len = name.bytes().len();
    4 + len as u64 + padding(len) as u64
}

fn files_size(files: &[Name]) -> u64
    ensures { result ≡ min (length (flat_map name_text files.now)) (2 ^ 64 - 1) }
{
    let mut size: u64 = 0;
    'each: for name in files {
        size = size.saturating_add(name_size(name));
    }
    size
}

#[tactic(auto, using(crate::proofs::Sizes::row_grown))]
fn rows_size(rows: &[LineRow]) -> u64
    ensures { result ≡ min (length (flat_map row_text rows.now)) (2 ^ 64 - 1) }
{
    let mut size: u64 = 0;
    'each: for row in rows {
        size = size.saturating_add(12).saturating_add(name_size(&row.name));
    }
    size
}

#[tactic(auto, using(crate::proofs::Sizes::table_size))]
fn tail_size(table: &Option<LineTable>) -> u64
    ensures { result ≡ min (length (tail_text table.now)) (2 ^ 64 - 1) }
{
    match table {
        None => 0,
        Some(table) => {
            let files = files_size(table.files.as_slice());
            let rows = rows_size(table.rows.as_slice());
            files.saturating_add(rows).saturating_add(16)
        }
    }
}

/// The size of the file, up to the greatest number.
#[tactic(auto, using(crate::proofs::Sizes::sections_size))]
pub(crate) fn file_size(
    program: &[u32],
    textures: &[Texture],
    sounds: &[Sound],
    table: &Option<LineTable>,
) -> u64
    ensures { (title : List ℕ) → result ≡ min (total (record {
      title = title;
      program = program.now;
      textures = textures.now;
      sounds = sounds.now;
      table = table.now;
    })) (2 ^ 64 - 1) }
{
    let size = textures_size(textures)
        .saturating_add(sounds_size(sounds))
        .saturating_add(tail_size(table));
    size.saturating_add(140)
        .saturating_add(4 * program.len() as u64)
}
