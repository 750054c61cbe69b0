// Types with the number of their elements, so that one array more needs no walk down the type.
ghost use Rattle.std.specs.Prelude.{◌≡◌, ◌≤◌, ◌^◌, min, map, IfOk};
ghost use Rattle.c_types.specs.Sizes.{words_of};
ghost use Rattle.c_types.specs.Types.{ArrayY};
ghost use Rattle.c_types.specs.View.{ctype, layout};
ghost use Rattle.c_rules.specs.Elements.{element_of, elements_in};
ghost use Rattle.c_rules.specs.Sizes.{fits, is_whole};

use crate::elements::{Elements, at_most, elements_of, is_element_whole, words_in};
use c_types::{CType, Layout, copy_type, shared};
use kit_base::Memory;
use std::alloc::Global;

/// A type, and its elements.
#[derive(Drop)]
pub struct Counted {
    pub ty: CType,
    pub elements: Elements,
    pub ghost element: { elements.element ≡ element_of (ctype ty) },
    pub ghost count: { elements.count ≡ min (elements_in (ctype ty)) (2 ^ 32) },
}

/// A type with its elements, in a time that grows with its depth.
pub fn with_elements(ty: CType) -> Counted
    ensures ty { result.ty ≡ ty }
{
    let elements = elements_of(&ty);
    Counted { ty, elements }
}

/// The same type once more with its elements, in constant time: what is below it is shared. The error is that of `copy_type`.
pub fn copy_counted(of: &Counted) -> Result<Counted, Memory>
    ensures same { IfOk result (λ r. ctype r.ty ≡ ctype of.now.ty) }
{
    Ok(Counted {
        ty: copy_type(&of.ty)?,
        elements: of.elements,
    })
}

/// The array of `len` elements of a type, without regard to any rule. The error is want of memory.
#[tactic(auto, using(crate::proofs::Walks::one_array_more))]
pub(crate) fn so_many_of(alloc: Global, of: Counted, len: u32) -> Result<Counted, Memory>
    ensures array { IfOk result (λ r. ctype r.ty ≡ ArrayY (ctype of.ty) len) }
{
    let Counted { ty, elements } = of;
    let elements = Elements {
        element: elements.element,
        count: at_most(len, elements.count),
    };
    let ty = CType::Array(shared(alloc, ty)?, len);
    Ok(Counted { ty, elements })
}

/// Whether its size is known, in constant time.
#[tactic(auto, using(crate::proofs::Walks::whole_by_element))]
pub(crate) fn is_counted_whole(whole: &[bool], of: &Counted) -> bool
    ensures whole { result ≡ is_whole whole.now (ctype of.now.ty) }
{
    is_element_whole(whole, of.elements.element)
}

/// Its words, or 2^32 where there are more.
#[tactic(auto, using(crate::proofs::Walks::words_by_count))]
fn counted_words(layouts: &[Layout], of: &Counted) -> u64
    ensures words { result ≡ min (words_of (map layout layouts.now) (ctype of.now.ty)) (2 ^ 32) }
{
    words_in(layouts, of.elements)
}

/// Whether the type has at most `limit` words, in constant time.
#[tactic(auto, unfolding(crate::specs::Sizes::fits))]
pub(crate) fn counted_fits(layouts: &[Layout], limit: u32, of: &Counted) -> bool
    ensures fits { result ≡ fits (map layout layouts.now) limit (ctype of.now.ty) }
{
    counted_words(layouts, of) <= limit as u64
}
