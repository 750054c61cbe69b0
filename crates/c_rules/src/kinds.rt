// Kinds of types, and which values become which.
ghost use Rattle.std.specs.Prelude.{◌≡◌, ◌≤◌, ◌==◌, option_map, ◌||◌};
ghost use Rattle.std.specs.Bool.{OnTrue};
ghost use Rattle.c_types.specs.View.{ctype};
ghost use Rattle.c_types.specs.inner.Heights.{height};
ghost use Rattle.c_types.specs.Kinds.{is_void, is_structure, is_pointer, decayed, pointed};
ghost use Rattle.c_rules.specs.Kinds.{is_number, is_array, is_condition, enum_number, struct_number};
ghost use Rattle.c_rules.specs.Kinds.{union_number, element, element_count, holds, target, same_type, leads_alike, pointers_convert};
ghost use Rattle.c_rules.specs.Kinds.{converts, can_cast};

use c_types::{
    CType, Run, Underlying, has_pointer_value, is_structure, is_void, led_to, same_derivation,
};

/// Whether arithmetic takes it: int, bool and every enumeration.
pub fn is_number(ty: &CType) -> bool
    ensures number { result ≡ is_number (ctype ty.now) }
{
    match ty {
        CType::Int | CType::Bool | CType::Enum(_) => true,
        CType::Void | CType::Struct(_) | CType::Union(_) | CType::Pointer(_) | CType::Array(_, _) =>
            false,
    }
}

pub fn is_array(ty: &CType) -> bool
    ensures array { result ≡ is_array (ctype ty.now) }
{
    match ty {
        CType::Array(_, _) => true,
        CType::Void
        | CType::Int
        | CType::Bool
        | CType::Enum(_)
        | CType::Struct(_)
        | CType::Union(_)
        | CType::Pointer(_) => false,
    }
}

/// Whether a value of it can be tested: a number, a pointer or an array.
pub fn is_condition(ty: &CType) -> bool
    ensures condition { result ≡ is_condition (ctype ty.now) }
{
    match ty {
        CType::Void | CType::Struct(_) | CType::Union(_) => false,
        CType::Int | CType::Bool | CType::Enum(_) | CType::Pointer(_) | CType::Array(_, _) => true,
    }
}

fn enum_number(ty: &CType) -> Option<u32>
    ensures number { result ≡ enum_number (ctype ty.now) }
{
    match ty {
        CType::Enum(number) => Some(*number),
        CType::Void
        | CType::Int
        | CType::Bool
        | CType::Struct(_)
        | CType::Union(_)
        | CType::Pointer(_)
        | CType::Array(_, _) => None,
    }
}

fn struct_number(ty: &CType) -> Option<u32>
    ensures number { result ≡ struct_number (ctype ty.now) }
{
    match ty {
        CType::Struct(number) => Some(*number),
        CType::Void
        | CType::Int
        | CType::Bool
        | CType::Enum(_)
        | CType::Union(_)
        | CType::Pointer(_)
        | CType::Array(_, _) => None,
    }
}

fn union_number(ty: &CType) -> Option<u32>
    ensures number { result ≡ union_number (ctype ty.now) }
{
    match ty {
        CType::Union(number) => Some(*number),
        CType::Void
        | CType::Int
        | CType::Bool
        | CType::Enum(_)
        | CType::Struct(_)
        | CType::Pointer(_)
        | CType::Array(_, _) => None,
    }
}

/// What a pointer leads to.
fn pointed(ty: &CType) -> Option<&Underlying>
    ensures to { option_map (λ r. r.now) result ≡ pointed (ctype ty.now) }
{
    match ty {
        CType::Pointer(to) => Some(to),
        CType::Void
        | CType::Int
        | CType::Bool
        | CType::Enum(_)
        | CType::Struct(_)
        | CType::Union(_)
        | CType::Array(_, _) => None,
    }
}

/// The element and the count of an array.
fn elements(ty: &CType) -> Option<(&Underlying, u32)>
    ensures of { option_map (λ r. r.0.now) result ≡ element (ctype ty.now) }
    ensures count { option_map (λ r. r.1) result ≡ element_count (ctype ty.now) }
{
    match ty {
        CType::Array(of, len) => Some((of, *len)),
        CType::Void
        | CType::Int
        | CType::Bool
        | CType::Enum(_)
        | CType::Struct(_)
        | CType::Union(_)
        | CType::Pointer(_) => None,
    }
}

/// What a pointer or an array leads to, where that is no void.
pub fn target(ty: &CType) -> Option<&CType>
    ensures target { option_map (λ r. ctype r.now) result ≡ target (ctype ty.now) }
{
    match led_to(ty) {
        Some(to) => { if is_void(to) { None } else { Some(to) } }
        None => None,
    }
}

fn is_same(number: u32, other: Option<u32>) -> bool
    ensures same { result ≡ holds (λ k. number == k) other }
{
    match other {
        Some(other) => number == other,
        None => false,
    }
}

/// Whether types are made in the same way of those further down.
#[inline(always)]
fn same_run(one: Run<'_>, other: Run<'_>) -> bool
    ensures same { OnTrue result ((one.entry.derivation ≡ other.entry.derivation) × (one.entry.times ≡ other.entry.times)) }
{
    one.times == other.times && same_derivation(one.derivation, other.derivation)
}

/// Two types that are the same exactly where these are: further down, where both are made in the same way.
#[inline(always)]
fn further<'a>(a: &'a Underlying, b: &'a Underlying) -> (&'a CType, &'a CType)
    ensures same { same_type (ctype result.0.now) (ctype result.1.now) ≡ same_type a.now b.now }
    ensures further { height (ctype result.0.now) ≤ height a.now }
{
    match (a.run(), b.run()) {
        (Some(one), Some(other)) => {
            if same_run(one, other) {
                (one.to, other.to)
            } else {
                (a.ty(), b.ty())
            }
        }
        _ => (a.ty(), b.ty()),
    }
}

/// Whether two types are one.
pub fn same_type(a: &CType, b: &CType) -> bool
    ensures same { result ≡ same_type (ctype a.now) (ctype b.now) }
{
    let mut left = a;
    let mut right = b;
    loop {
        match left {
            CType::Void => return matches!(right, CType::Void),
            CType::Int => return matches!(right, CType::Int),
            CType::Bool => return matches!(right, CType::Bool),
            CType::Enum(number) => return is_same(*number, enum_number(right)),
            CType::Struct(number) => return is_same(*number, struct_number(right)),
            CType::Union(number) => return is_same(*number, union_number(right)),
            CType::Pointer(to) => {
                let Some(other) = pointed(right) else {
                    return false;
                };
                (left, right) = further(to, other);
            }
            CType::Array(of, len) => {
                let Some((other, count)) = elements(right) else {
                    return false;
                };
                if *len != count {
                    return false;
                }
                (left, right) = further(of, other);
            }
        }
    }
}

fn leads_alike(from: &CType, to: &CType) -> bool
    ensures alike { result ≡ leads_alike (ctype from.now) (ctype to.now) }
{
    is_void(from) || is_void(to) || same_type(from, to)
}

/// Whether the value of a pointer or array becomes a pointer.
fn pointer_converts(from: &CType, to: &CType) -> bool
    ensures pointers { result ≡ pointers_convert (decayed (ctype from.now)) (ctype to.now) }
{
    match (led_to(from), pointed(to)) {
        (Some(from), Some(to)) => leads_alike(from, to.ty()),
        _ => false,
    }
}

/// Whether of two pointers or arrays one becomes the other.
pub(crate) fn pointers_meet(a: &CType, b: &CType) -> bool
    ensures meet { result ≡ (pointers_convert (decayed (ctype a.now)) (decayed (ctype b.now))
        || pointers_convert (decayed (ctype b.now)) (decayed (ctype a.now))) }
{
    match (led_to(a), led_to(b)) {
        (Some(a), Some(b)) => leads_alike(a, b) || leads_alike(b, a),
        _ => false,
    }
}

/// Whether a value may be stored, passed or returned as a type: numbers as each other, a pointer or an array as a pointer to the
/// same, to and from `void*` any pointer, a structure or union as its own type.
pub fn converts(from: &CType, to: &CType) -> bool
    ensures converts { result ≡ converts (ctype from.now) (ctype to.now) }
{
    is_number(from) && is_number(to)
        || pointer_converts(from, to)
        || is_structure(from) && same_type(from, to)
}

/// Whether a value may be cast: among numbers and among pointers, an array as a pointer.
pub fn can_cast(from: &CType, to: &CType) -> bool
    ensures cast { result ≡ can_cast (ctype from.now) (ctype to.now) }
{
    is_number(from) && is_number(to) || has_pointer_value(from) && is_pointer(to)
}

fn is_pointer(ty: &CType) -> bool
    ensures pointer { result ≡ is_pointer (ctype ty.now) }
{
    match ty {
        CType::Pointer(_) => true,
        CType::Void
        | CType::Int
        | CType::Bool
        | CType::Enum(_)
        | CType::Struct(_)
        | CType::Union(_)
        | CType::Array(_, _) => false,
    }
}
