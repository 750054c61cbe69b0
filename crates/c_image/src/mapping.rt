// The map of a program.
ghost use Rattle.std.specs.Prelude.{◌≡◌, true, IfOk, map};
ghost use Rattle.c_types.specs.View.{function};
ghost use Rattle.c_check.specs.View.{program};
ghost use Rattle.assembler.specs.Labels.{address_in, are_words};
ghost use Rattle.c_image.specs.Mapping.{frames_at, globals_from, map_of};

use crate::naming::address_of_function;
use assembler::Labels;
use c_check::Program;
use c_types::TFunction;
use kit_base::{Memory, Name, Seq};
use project_text::Map;
use std::alloc::Global;

/// The rows of functions with frames of these sizes.
fn frames_at(
    alloc: Global,
    labels: &Labels<'_>,
    functions: &[TFunction],
    sizes: &[u32],
) -> Result<Vec<(Name, u32, u32)>, Memory>
    requires { are_words labels.now ≡ true }
    ensures { IfOk result (λ v. v.items ≡ frames_at (address_in labels.now) (map function functions.now) sizes.now) }
{
    let mut rows = Vec::new(alloc);
    let mut left = functions;
    let mut sizes_left = sizes;
    'each: while let Some((f, after)) = left.split_first() {
        let Some((size, sizes_after)) = sizes_left.split_first() else {
            return Ok(rows);
        };
        let address = address_of_function(alloc, labels, &f.name)?;
        rows.push((f.name.copy()?, address, *size))?;
        left = after;
        sizes_left = sizes_after;
    }
    Ok(rows)
}

/// The rows of globals of these sizes, the first at address 0.
fn globals_from(alloc: Global, globals: &[(Name, u32)]) -> Result<Vec<(Name, u32, u32)>, Memory>
    ensures { IfOk result (λ v. v.items ≡ globals_from 0 globals.now) }
{
    let mut rows = Vec::new(alloc);
    let mut address: u32 = 0;
    'each: for global in globals {
        rows.push((global.0.copy()?, address, global.1))?;
        address = address.wrapping_add(global.1);
    }
    Ok(rows)
}

/// The map of a program whose frames have these sizes, of `count` words with these labels. The error is want of memory.
pub fn map_of(
    alloc: Global,
    checked: &Program,
    sizes: &[u32],
    count: u32,
    labels: &Labels<'_>,
) -> Result<Map, Memory>
    requires { are_words labels.now ≡ true }
    ensures { IfOk result (λ m. m ≡ map_of (program checked.now) sizes.now count (address_in labels.now)) }
{
    let globals = globals_from(alloc, checked.globals())?;
    let frames = frames_at(alloc, labels, checked.functions(), sizes)?;
    Ok(Map {
        code: count,
        globals: Seq::from_vec(globals),
        frames: Seq::from_vec(frames),
    })
}
