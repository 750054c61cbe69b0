// Which types have a known size, and how large they are.
ghost use Rattle.std.specs.Prelude.{◌≡◌, ◌^◌, map, min};
ghost use Rattle.c_types.specs.Sizes.{words_of};
ghost use Rattle.c_types.specs.View.{ctype, layout};
ghost use Rattle.c_rules.specs.Sizes.{is_whole, fits};

use crate::elements::{elements_of, is_element_whole, words_in};
use c_types::{CType, Layout};

/// Whether a type's size is known: every type but void has one, a structure or union once it is declared whole, an array with its
/// element. `whole` tells by their numbers which structures and unions are; one that it does not name is not.
#[tactic(auto, using(crate::proofs::Walks::whole_by_element))]
pub fn is_whole(whole: &[bool], ty: &CType) -> bool
    ensures whole { result ≡ is_whole whole.now (ctype ty.now) }
{
    is_element_whole(whole, elements_of(ty).element)
}

/// The words of a type, or 2^32 where there are more.
#[tactic(auto, using(crate::proofs::Walks::words_by_count))]
pub(crate) fn words_within(layouts: &[Layout], ty: &CType) -> u64
    ensures words { result ≡ min (words_of (map layout layouts.now) (ctype ty.now)) (2 ^ 32) }
{
    words_in(layouts, elements_of(ty))
}

/// Whether a type has at most `limit` words.
#[tactic(auto, unfolding(crate::specs::Sizes::fits))]
pub fn fits(layouts: &[Layout], limit: u32, ty: &CType) -> bool
    ensures fits { result ≡ fits (map layout layouts.now) limit (ctype ty.now) }
{
    words_within(layouts, ty) <= limit as u64
}
