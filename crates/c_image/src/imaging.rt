// The image of a program.
ghost use Rattle.std.specs.Prelude.{◌≡◌, ◌<◌, ◌^◌, [], IfOk, length, map};
ghost use Rattle.c_check.specs.View.{program};
ghost use Rattle.c_compile.specs.Compiling.{compiled, IsCompiled};
ghost use Rattle.c_front.specs.Places.{place_at};
ghost use Rattle.assembler.specs.Labels.{address_in};
ghost use Rattle.mid_code.specs.Whole.{mid};
ghost use Rattle.reg_frames.specs.Placeable.{places_of};
ghost use Rattle.c_image.specs.Imaging.{image, AreStarts, IsImageOf};
ghost use Rattle.c_image.specs.MidImages.{IsMidOf};
ghost use Rattle.c_image.specs.Lines.{files_behind, rows_of};
ghost use Rattle.c_image.specs.Mapping.{map_of};

use crate::assembling::assemble_items;
use crate::lines::{files_of, rows_of};
use crate::mapping::map_of;
use crate::naming::labels_in;
use asm_items::AsmItem;
use assembler::Placement;
use c_check::Program;
use c_compile::{Compiled, compile};
use c_facts::laws::programs_are_sound;
use c_front::Places;
use cart_format::LineRow;
use kit_base::{Memory, Name};
use mid_code::{Choice, Mid};
use project_text::Map;
use std::alloc::Global;

/// The words of a program, its map, the items whose written form is its assembly text, the mid code for which places were chosen, the choices, that of the
/// start first; and the files and rows of its line table.
#[derive(Drop)]
pub struct Image {
    pub words: Vec<u32>,
    pub map: Map,
    pub items: Vec<AsmItem>,
    pub mid: Mid,
    pub choices: Vec<Choice>,
    pub files: Vec<Name>,
    pub rows: Vec<LineRow>,
}

/// The map and the line table of a program.
#[derive(Drop)]
struct Tables {
    map: Map,
    files: Vec<Name>,
    rows: Vec<LineRow>,
}

/// The map and the line table of a program whose frames have these sizes, of `count` words with these labels. The error is want of memory.
fn tables_of(
    alloc: Global,
    checked: &Program,
    sizes: &[u32],
    count: u32,
    labels: &[(Name, u32)],
    places: &Places,
    starts: &[u32],
) -> Result<Tables, Memory>
    requires few { length starts.now < 2 ^ 32 }
    ensures map { IfOk result (λ t. t.map ≡ map_of (program checked.now) sizes.now count (address_in labels.now)) }
    ensures files { IfOk result (λ t. t.files.items ≡ files_behind [] (map (place_at places.now) starts.now)) }
    ensures rows { IfOk result (λ t. t.rows.items ≡ rows_of (address_in labels.now) (files_behind [] (map (place_at places.now) starts.now))
        (program checked.now).functions (map (place_at places.now) starts.now)) }
{
    let table = labels_in(alloc, labels)?;
    let map = map_of(alloc, checked, sizes, count, &table)?;
    let files = files_of(alloc, places, starts)?;
    let rows = rows_of(alloc, &table, &files, checked.functions(), places, starts)?;
    Ok(Tables { map, files, rows })
}

/// The image of what was compiled of a program, whose functions begin at these tokens.
fn image_compiled(
    alloc: Global,
    checked: &Program,
    made: Compiled,
    places: &Places,
    starts: &[u32],
) -> Result<Image, Memory>
    requires compiled { IsCompiled (program checked.now) (compiled made) }
    requires starts { AreStarts (program checked.now) places.now starts.now }
    ensures image { IfOk result (λ i. IsImageOf (program checked.now) places.now starts.now (image i)) }
    ensures mid { IfOk result (λ i. IsMidOf (program checked.now) (image i) (mid i.mid) (places_of i.choices.items)) }
{
    programs_are_sound(checked);
    let Placement { words, labels } = assemble_items(alloc, &made.items)?;
    let words = words.into_vec();
    let sizes = made.placed.frames().sizes.as_slice();
    let Tables { map, files, rows } = tables_of(
        alloc,
        checked,
        sizes,
        words.len() as u32,
        labels.as_slice(),
        places,
        starts,
    )?;
    let Compiled {
        mid,
        choices,
        items,
        ..
    } = made;
    Ok(Image {
        words,
        map,
        items,
        mid,
        choices,
        files,
        rows,
    })
}

/// The image of a program whose functions begin at these tokens, in their order. The error is want of memory.
pub fn image_of(
    alloc: Global,
    checked: &Program,
    places: &Places,
    starts: &[u32],
) -> Result<Image, Memory>
    requires starts { AreStarts (program checked.now) places.now starts.now }
    ensures image { IfOk result (λ i. IsImageOf (program checked.now) places.now starts.now (image i)) }
    ensures mid { IfOk result (λ i. IsMidOf (program checked.now) (image i) (mid i.mid) (places_of i.choices.items)) }
{
    let compiled = compile(alloc, checked)?;
    image_compiled(alloc, checked, compiled, places, starts)
}
