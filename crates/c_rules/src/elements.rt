// What types are made of.
ghost use Rattle.std.specs.Prelude.{◌≡◌, ◌≤◌, ◌^◌, ◌*◌, map, min, slice_get};
ghost use Rattle.c_types.specs.Sizes.{layout_size};
ghost use Rattle.c_types.specs.View.{ctype, layout};
ghost use Rattle.c_rules.specs.Sizes.{is_declared};
ghost use Rattle.c_rules.specs.Elements.{element_of, element_words, elements_in, is_element_whole};

use c_types::{CType, Layout};

/// An element of an array, or a type that is none.
#[derive(Clone, Copy)]
pub enum Element {
    /// `void`, which has no words and no known size.
    Void,
    /// A number or a pointer, of one word.
    Word,
    /// The structure or union of that number.
    Record(u32),
}

/// The elements of a type, where those of an array of arrays are taken one by one, and how many there are, or 2^32 where there
/// are more. A type that is no array is one element.
#[derive(Clone, Copy)]
pub struct Elements {
    pub element: Element,
    pub count: u64,
}

fn is_declared(whole: &[bool], number: u32) -> bool
    ensures declared { result ≡ is_declared whole.now number }
{
    match whole.get(number as usize) {
        Some(declared) => *declared,
        None => false,
    }
}

pub(crate) fn is_element_whole(whole: &[bool], element: Element) -> bool
    ensures whole { result ≡ is_element_whole whole.now element }
{
    match element {
        Element::Void => false,
        Element::Word => true,
        Element::Record(number) => is_declared(whole, number),
    }
}

fn layout_words(layouts: &[Layout], number: u32) -> u32
    ensures size { result ≡ layout_size (map layout layouts.now) number }
{
    match layouts.get(number as usize) {
        Some(layout) => layout.size(),
        None => 0,
    }
}

fn element_words(layouts: &[Layout], element: Element) -> u32
    ensures words { result ≡ element_words (map layout layouts.now) element }
{
    match element {
        Element::Void => 0,
        Element::Word => 1,
        Element::Record(number) => layout_words(layouts, number),
    }
}

/// So many times a number, or 2^32 where that is more.
pub(crate) fn at_most(words: u32, times: u64) -> u64
    requires small { times ≤ 2 ^ 32 }
    ensures product { result ≡ min (words * times) (2 ^ 32) }
{
    (u64::from(words) * times).min(0x1_0000_0000)
}

/// The words of an array's elements, or 2^32 where there are more.
pub(crate) fn words_in(layouts: &[Layout], elements: Elements) -> u64
    requires small { elements.count ≤ 2 ^ 32 }
    ensures words { result ≡ min (element_words (map layout layouts.now) elements.element * elements.count) (2 ^ 32) }
{
    at_most(element_words(layouts, elements.element), elements.count)
}

fn so_many(element: Element, count: u64) -> Elements
    ensures element { result.element ≡ element }
    ensures count { result.count ≡ count }
{
    Elements { element, count }
}

/// The elements of a type.
pub(crate) fn elements_of(ty: &CType) -> Elements
    ensures element { result.element ≡ element_of (ctype ty.now) }
    ensures count { result.count ≡ min (elements_in (ctype ty.now)) (2 ^ 32) }
    ensures small { result.count ≤ 2 ^ 32 }
{
    let mut at = ty;
    let mut count = 1u64;
    loop {
        match at {
            CType::Void => return so_many(Element::Void, count),
            CType::Int | CType::Bool | CType::Enum(_) | CType::Pointer(_) => {
                return so_many(Element::Word, count);
            }
            CType::Struct(number) => return so_many(Element::Record(*number), count),
            CType::Union(number) => return so_many(Element::Record(*number), count),
            CType::Array(of, len) => {
                count = at_most(*len, count);
                at = of.ty();
            }
        }
    }
}
