// The members of structures and unions.
ghost use Rattle.std.specs.Prelude.{◌≡◌, ◌≤◌, ◌++◌, ◌∷◌, [], OnOk, IfOk, Ok, is_some, not, map, length, slice_set, true, false};
ghost use Rattle.c_tree.specs.View.{var};
ghost use Rattle.c_types.specs.View.{ctype, layout};
ghost use Rattle.c_types.specs.Sizes.{member_named, no_layout, with_member, capped};
ghost use Rattle.c_rules.specs.Kinds.{holds};
ghost use Rattle.kit_base.specs.Gives.{Gives};
ghost use Rattle.c_check.specs.Reading.{members_declared, with_layout};
ghost use Rattle.c_check.specs.inner.ItemTyping.{member as the_member};
ghost use Rattle.c_check.specs.inner.Steps.{counted, counted_members};
ghost use Rattle.c_check.specs.View.{un};

use crate::declaring::record_number;
use crate::parts::type_at;
use crate::reading::Reading;
use c_exprs::{CheckErr, Fault, placed};
use c_rules::{Code, is_whole, type_size};
use c_tree::Var;
use c_types::{CType, Layout};
use kit_base::{Memory, Name};
use std::alloc::Global;

fn has_member(seen: &Layout, name: &Name) -> bool
    ensures { result ≡ is_some (member_named name.now (layout seen.now).members) }
{
    seen.member(name).is_some()
}

/// Adds a member of size `words`. The error is want of memory.
fn add_member(seen: &mut Layout, name: &Name, ty: CType, words: u32) -> Result<(), Memory>
    requires new { is_some (member_named name.now (layout seen.old).members) ≡ false }
    ensures added { OnOk result (layout seen.new ≡ capped (with_member (layout seen.old) name.now (ctype ty) words)) }
{
    let key = name.copy()?;
    seen.add(key, ty, words)?;
    Ok(())
}

/// Adds a member to those before it.
#[tactic(auto, unfolding(crate::specs::inner::ItemTyping::member, crate::specs::Reading::member_size))]
fn read_member(
    alloc: Global,
    reading: &mut Reading,
    seen: &mut Layout,
    v: &Var,
) -> Result<(), CheckErr>
    ensures { Gives (λ _. (layout seen.new, un reading.new)) result (counted (the_member (un reading.old) (layout seen.old) (var v.now))) }
{
    let ty = type_at(alloc, reading, v.span, &v.ty)?;
    if has_member(seen, &v.name) {
        return Err(CheckErr::Cause(Fault {
            code: Code::Twice,
            span: v.span,
        }));
    }
    let size = type_size(&reading.globals.layouts, &reading.globals.whole, &ty);
    let words = placed(v.span, size)?;
    add_member(seen, &v.name, ty, words)?;
    Ok(())
}

/// The members of a structure or union. More than 2^32 - 1 words, those in front of a member too, are counted as 2^32 - 1.
pub(crate) fn read_members(
    alloc: Global,
    reading: &mut Reading,
    is_union: bool,
    all: &[Var],
) -> Result<Layout, CheckErr>
    ensures { Gives (λ r. (layout r, un reading.new)) result (counted_members (un reading.old) (no_layout is_union) (map var all.now)) }
{
    let mut seen = Layout::new(alloc, is_union);
    for v in all {
        read_member(alloc, reading, &mut seen, v)?;
    }
    Ok(seen)
}

/// The number of the structure or union that these are the members of.
#[tactic(auto, unfolding(crate::specs::Reading::members_declared))]
pub(crate) fn members_declared(
    reading: &Reading,
    is_union: bool,
    name: &Name,
    members: &Layout,
) -> Result<u32, Code>
    ensures number { result ≡ members_declared is_union name.now (un reading.now) (layout members.now) }
{
    let number = record_number(reading, is_union, name)?;
    if is_whole(&reading.globals.whole, &CType::Struct(number)) {
        return Err(Code::Twice);
    }
    if members.count() == 0 {
        return Err(Code::WrongType);
    }
    if members.size() > 4_194_304 {
        return Err(Code::TooLarge);
    }
    Ok(number)
}

fn put_layout(layouts: &mut Vec<Layout>, number: u32, one: Layout)
    ensures { map layout layouts.new.items ≡ slice_set (map layout layouts.old.items) number (layout one) }
{
    if let Some(place) = layouts.get_mut(number as usize) {
        *place = one;
    }
}

fn put_whole(whole: &mut Vec<bool>, number: u32)
    ensures { whole.new.items ≡ slice_set whole.old.items number true }
{
    if let Some(place) = whole.get_mut(number as usize) {
        *place = true;
    }
}

/// Gives the structure or union of that number its members.
pub(crate) fn set_layout(reading: &mut Reading, number: u32, members: Layout)
    ensures set { un reading.new ≡ with_layout number (layout members) (un reading.old) }
{
    put_layout(&mut reading.globals.layouts, number, members);
    put_whole(&mut reading.globals.whole, number);
}
