// The places of a brace list.
ghost use Rattle.std.specs.Prelude.{◌≡◌, map, option_map, slice_get, length};
ghost use Rattle.c_types.specs.View.{ctype, layout};
ghost use Rattle.c_stmts.specs.Slots.{Members, members_of, first_of, slots_of, slots_for, next_slot, has_room};
ghost use Rattle.c_stmts.specs.inner.Places.{slots_behind};

use c_types::{CType, Layout};

fn layout_at(layouts: &[Layout], number: u32) -> Option<&Layout>
    ensures { option_map (λ l. layout l.now) result ≡ slice_get (map layout layouts.now) number }
{
    layouts.get(number as usize)
}

/// How many members a structure or union has.
#[tactic(auto, using(crate::proofs::Places::member_steps))]
fn member_count(layouts: &[Layout], number: u32) -> usize
    ensures { result ≡ length (members_of (slice_get (map layout layouts.now) number)) }
{
    match layout_at(layouts, number) {
        Some(one) => one.count(),
        None => 0,
    }
}

/// The type of the member at that index.
#[tactic(auto, using(crate::proofs::Places::member_steps))]
fn member_at(layouts: &[Layout], number: u32, index: usize) -> Option<&CType>
    ensures { option_map (λ t. ctype t.now) result ≡ slice_get (members_of (slice_get (map layout layouts.now) number)) index }
{
    match layout_at(layouts, number) {
        Some(one) => one.member_type(index),
        None => None,
    }
}

fn member_slot(layouts: &[Layout], number: u32, index: usize) -> Option<&CType>
    ensures { option_map (λ t. ctype t.now) result ≡ next_slot (slots_behind index (Members (members_of (slice_get (map layout layouts.now) number)))) }
{
    member_at(layouts, number, index)
}

fn first_slot(layouts: &[Layout], number: u32, index: usize) -> Option<&CType>
    ensures { option_map (λ t. ctype t.now) result
        ≡ next_slot (slots_behind index (Members (first_of (members_of (slice_get (map layout layouts.now) number))))) }
{
    if index > 0 {
        return None;
    }
    member_at(layouts, number, 0)
}

#[tactic(auto, using(crate::proofs::Places::slot_steps))]
fn slot_in<'a>(layouts: &'a [Layout], ty: &'a CType, index: usize) -> Option<&'a CType>
    ensures { option_map (λ t. ctype t.now) result ≡ next_slot (slots_behind index (slots_of (map layout layouts.now) (ctype ty.now))) }
{
    match ty {
        CType::Array(of, count) => {
            if index < *count as usize {
                Some(of.ty())
            } else {
                None
            }
        }
        CType::Struct(number) => member_slot(layouts, *number, index),
        CType::Union(number) => first_slot(layouts, *number, index),
        CType::Void | CType::Int | CType::Bool | CType::Enum(_) | CType::Pointer(_) => None,
    }
}

/// The type of the place of the item at that index, where there is one.
pub(crate) fn slot_at<'a>(
    layouts: &'a [Layout],
    target: Option<&'a CType>,
    index: usize,
) -> Option<&'a CType>
    ensures { option_map (λ t. ctype t.now) result
        ≡ next_slot (slots_behind index (slots_for (map layout layouts.now) (option_map (λ t. ctype t.now) target.entry))) }
{
    match target {
        Some(ty) => slot_in(layouts, ty, index),
        None => None,
    }
}

fn has_members(layouts: &[Layout], number: u32, count: usize) -> bool
    ensures { result ≡ has_room count (Members (members_of (slice_get (map layout layouts.now) number))) }
{
    count <= member_count(layouts, number)
}

fn has_first(layouts: &[Layout], number: u32, count: usize) -> bool
    ensures { result ≡ has_room count (Members (first_of (members_of (slice_get (map layout layouts.now) number)))) }
{
    count <= member_count(layouts, number).min(1)
}

fn has_room_in(layouts: &[Layout], ty: &CType, count: usize) -> bool
    ensures { result ≡ has_room count (slots_of (map layout layouts.now) (ctype ty.now)) }
{
    match ty {
        CType::Array(_, len) => count <= *len as usize,
        CType::Struct(number) => has_members(layouts, *number, count),
        CType::Union(number) => has_first(layouts, *number, count),
        CType::Void | CType::Int | CType::Bool | CType::Enum(_) | CType::Pointer(_) => false,
    }
}

/// Whether a brace list of `count` items has a place for each.
pub(crate) fn has_room(layouts: &[Layout], target: Option<&CType>, count: usize) -> bool
    ensures { result ≡ has_room count (slots_for (map layout layouts.now) (option_map (λ t. ctype t.now) target.entry)) }
{
    match target {
        Some(ty) => has_room_in(layouts, ty, count),
        None => false,
    }
}
