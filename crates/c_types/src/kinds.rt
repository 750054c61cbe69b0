// Kinds of types, what they lead to, and their parts.
ghost use Rattle.std.specs.Prelude.{◌≡◌, map, option_map};
ghost use Rattle.c_types.specs.View.{ctype, layout, or_void};
ghost use Rattle.c_types.specs.Kinds.{is_void, is_structure, is_pointer, decayed, pointed};
ghost use Rattle.c_types.specs.Parts.{part_type, member_type};

use crate::ctype::CType;
use crate::layout::Layout;

/// Whether it is `void`.
#[inline(always)]
pub fn is_void(ty: &CType) -> bool
    ensures void { result ≡ is_void (ctype ty.now) }
{
    match ty {
        CType::Void => true,
        CType::Int
        | CType::Bool
        | CType::Enum(_)
        | CType::Struct(_)
        | CType::Union(_)
        | CType::Pointer(_)
        | CType::Array(_, _) => false,
    }
}

/// Whether it is a structure or a union.
#[inline(always)]
pub fn is_structure(ty: &CType) -> bool
    ensures structure { result ≡ is_structure (ctype ty.now) }
{
    match ty {
        CType::Struct(_) | CType::Union(_) => true,
        CType::Void
        | CType::Int
        | CType::Bool
        | CType::Enum(_)
        | CType::Pointer(_)
        | CType::Array(_, _) => false,
    }
}

/// Whether a value of it is a pointer: of a pointer or an array, whose value is a pointer to its first element.
#[inline(always)]
pub fn has_pointer_value(ty: &CType) -> bool
    ensures pointer { result ≡ is_pointer (decayed (ctype ty.now)) }
{
    match ty {
        CType::Pointer(_) | CType::Array(_, _) => true,
        CType::Void
        | CType::Int
        | CType::Bool
        | CType::Enum(_)
        | CType::Struct(_)
        | CType::Union(_) => false,
    }
}

/// The type that a pointer, or an array's value, leads to; none of another type.
#[inline(always)]
pub fn led_to(ty: &CType) -> Option<&CType>
    ensures to { option_map (λ t. ctype t.now) result ≡ pointed (decayed (ctype ty.now)) }
{
    match ty {
        CType::Pointer(to) => Some(to.ty()),
        CType::Array(of, _) => Some(of.ty()),
        CType::Void
        | CType::Int
        | CType::Bool
        | CType::Enum(_)
        | CType::Struct(_)
        | CType::Union(_) => None,
    }
}

fn member_type(layouts: &[Layout], number: u32, k: usize) -> Option<&CType>
    ensures { or_void result ≡ member_type (map layout layouts.now) number k }
{
    match layouts.get(number as usize) {
        None => None,
        Some(l) => l.member_type(k),
    }
}

/// The type of the part of that number: of each element of an array, of a member of a structure or union, counted from 0 in its order. None
/// where there is no such part.
pub fn part_type<'a>(layouts: &'a [Layout], ty: &'a CType, k: usize) -> Option<&'a CType>
    ensures part { or_void result ≡ part_type (map layout layouts.now) (ctype ty.now) k }
{
    match ty {
        CType::Array(of, _) => Some(of.ty()),
        CType::Struct(number) => member_type(layouts, *number, k),
        CType::Union(number) => member_type(layouts, *number, k),
        CType::Void | CType::Int | CType::Bool | CType::Enum(_) | CType::Pointer(_) => None,
    }
}
