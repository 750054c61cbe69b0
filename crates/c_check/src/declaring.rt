// Names of the unit.
ghost use Rattle.std.specs.Prelude.{◌≡◌, ◌≤◌, ◌++◌, ◌∷◌, [], length, slice_get, OnOk};
ghost use Rattle.c_types.specs.View.{ctype};
ghost use Rattle.c_exprs.specs.View.{decl, names};
ghost use Rattle.std.specs.Str.{bytes_eq};
ghost use Rattle.c_rules.specs.Kinds.{holds};
ghost use Rattle.c_check.specs.Reading.{names_free, named, record_entered, record_type, record_number, number_as, own_number, enum_entered};
ghost use Rattle.c_check.specs.View.{un};

use crate::reading::Reading;
use c_exprs::{Decl, Globals, is_intrinsic};
use c_rules::{Code, with_elements};
use c_types::{CType, Layout};
use kit_base::{Memory, Name};
use std::alloc::Global;

/// Whether a name of the unit is declared nowhere so far.
pub(crate) fn is_free(globals: &Globals, name: &Name) -> bool
    ensures free { result ≡ names_free name.now (names globals.now) }
{
    globals.find(name).is_none() && !is_intrinsic(name.bytes())
}

/// Gives the name this meaning, where it is free. The error is want of memory.
#[tactic(auto, unfolding(crate::specs::Reading::named))]
pub(crate) fn declare(reading: &mut Reading, name: &Name, meaning: Decl) -> Result<(), Memory>
    ensures named { OnOk result (un reading.new ≡ named name.now (decl meaning) (un reading.old)) }
    ensures objects { (un reading.new).globals ≡ (un reading.old).globals }
{
    if !is_free(&reading.globals, name) {
        return Ok(());
    }
    let key = name.copy()?;
    reading.globals.declare(key, meaning)
}

/// The type of the structure, or of the union, of that number.
fn record_type(is_union: bool, number: u32) -> CType
    ensures { ctype result ≡ record_type is_union number }
{
    if is_union {
        CType::Union(number)
    } else {
        CType::Struct(number)
    }
}

/// The number of the next structure or union.
fn next_number(globals: &Globals) -> u32
    requires few { length globals.now.layouts.items ≤ 200000 }
    ensures { result ≡ length globals.now.layouts.items }
{
    globals.layouts.len() as u32
}

/// Makes the name that of a structure or union without members, where it is free. The error is want of memory.
#[tactic(auto, unfolding(crate::specs::Reading::record_entered))]
pub(crate) fn enter_record(
    alloc: Global,
    reading: &mut Reading,
    is_union: bool,
    name: &Name,
) -> Result<(), Memory>
    requires few { length (un reading.old).layouts ≤ 200000 }
    ensures entered { OnOk result (un reading.new ≡ record_entered is_union name.now (un reading.old)) }
{
    if !is_free(&reading.globals, name) {
        return Ok(());
    }
    let number = next_number(&reading.globals);
    reading.globals.layouts.push(Layout::new(alloc, is_union))?;
    reading.globals.whole.push(false)?;
    reading.records.push(name.copy()?)?;
    let key = name.copy()?;
    reading.globals.declare(
        key,
        Decl::Alias(with_elements(record_type(is_union, number))),
    )
}

/// Makes the name that of the next enumeration, where it is free. The error is want of memory.
#[tactic(auto, unfolding(crate::specs::Reading::enum_entered))]
pub(crate) fn enter_enum(reading: &mut Reading, name: &Name) -> Result<(), Memory>
    requires few { (un reading.old).enums ≤ 200000 }
    ensures entered { OnOk result (un reading.new ≡ enum_entered name.now (un reading.old)) }
{
    if !is_free(&reading.globals, name) {
        return Ok(());
    }
    let number = reading.enums;
    let key = name.copy()?;
    reading
        .globals
        .declare(key, Decl::Alias(with_elements(CType::Enum(number))))?;
    reading.enums = number + 1;
    Ok(())
}

fn number_as(is_union: bool, ty: &CType) -> Option<u32>
    ensures { result ≡ number_as is_union (ctype ty.now) }
{
    match ty {
        CType::Union(number) => { if is_union { Some(*number) } else { None } }
        CType::Struct(number) => { if is_union { None } else { Some(*number) } }
        CType::Void
        | CType::Int
        | CType::Bool
        | CType::Enum(_)
        | CType::Pointer(_)
        | CType::Array(_, _) => None,
    }
}

fn is_own(name: &Name, records: &[Name], number: u32) -> bool
    ensures { result ≡ holds (bytes_eq name.now) (slice_get records.now number) }
{
    match records.get(number as usize) {
        Some(own) => name == own,
        None => false,
    }
}

fn own_number(name: &Name, records: &[Name], number: Option<u32>) -> Result<u32, Code>
    ensures { result ≡ own_number name.now records.now number }
{
    match number {
        Some(number) => {
            if is_own(name, records, number) {
                Ok(number)
            } else {
                Err(Code::Twice)
            }
        }
        None => Err(Code::Twice),
    }
}

/// The number of the structure, or of the union, that has this name; Twice for a name of anything else.
#[tactic(auto, unfolding(crate::specs::Reading::record_number))]
pub(crate) fn record_number(reading: &Reading, is_union: bool, name: &Name) -> Result<u32, Code>
    ensures number { result ≡ record_number is_union name.now (un reading.now) }
{
    match reading.globals.find(name) {
        Some(Decl::Alias(counted)) => {
            own_number(name, &reading.records, number_as(is_union, &counted.ty))
        }
        Some(Decl::Constant(_)) => Err(Code::Twice),
        Some(Decl::Object(_, _)) => Err(Code::Twice),
        Some(Decl::Function(_, _)) => Err(Code::Twice),
        None => Err(Code::Twice),
    }
}
