// Maps.
ghost use Rattle.std.specs.Prelude.{◌≡◌, ◌++◌, flat_map, IfOk, OnOk};
ghost use Rattle.project_text.specs.MapText.{row_text, map_text};

use kit_base::{Memory, Name, Seq, join_pieces, word_digits};
use std::alloc::{AllocError, Global};

/// The words of the program, and the names, addresses and sizes in words of its globals and of its
/// functions' frames.
#[derive(Drop)]
pub struct Map {
    pub code: u32,
    pub globals: Seq<(Name, u32, u32)>,
    pub frames: Seq<(Name, u32, u32)>,
}

/// The line of a row.
#[tactic(auto, unfolding(crate::specs::MapText::row_text))]
fn row_text(alloc: Global, word: &[u8], row: &(Name, u32, u32)) -> Result<Vec<u8>, AllocError>
    ensures { IfOk result (λ v. v.items ≡ row_text word.now row.now) }
{
    let address = word_digits(row.1);
    let size = format!(in alloc; "{}", row.2)?;
    join_pieces(
        alloc,
        &[
            word,
            row.0.bytes(),
            b" 0x",
            &address,
            b" ",
            size.as_bytes(),
            b"\n",
        ],
    )
}

/// Adds the lines of these rows.
fn put_rows(
    alloc: Global,
    out: &mut Vec<u8>,
    word: &[u8],
    rows: &[(Name, u32, u32)],
) -> Result<(), AllocError>
    ensures { OnOk result (out.new.items ≡ out.old.items ++ flat_map (row_text word.now) rows.now) }
{
    'each: for row in rows {
        let line = row_text(alloc, word, row)?;
        out.extend_from_slice(&line)?;
    }
    Ok(())
}

/// The text of the map: `code N`, a line `frame NAME 0xADDRESS SIZE` for each function, a line
/// `global NAME 0xADDRESS SIZE` for each global. The error is want of memory.
#[tactic(auto, unfolding(crate::specs::MapText::map_text))]
pub fn write_map(alloc: Global, map: &Map) -> Result<Vec<u8>, Memory>
    ensures { IfOk result (λ v. v.items ≡ map_text map.now) }
{
    let code = format!(in alloc; "{}", map.code)?;
    let mut out = join_pieces(alloc, &[b"code ", code.as_bytes(), b"\n"])?;
    put_rows(alloc, &mut out, b"frame ", map.frames.as_slice())?;
    put_rows(alloc, &mut out, b"global ", map.globals.as_slice())?;
    Ok(out)
}
