// Slices, element by element.
ghost use Rattle.std.specs.Prelude.{◌≡◌, ◌∷◌, [], IfOk, IfSome, IfNone};

use kit_base::Memory;
use std::alloc::Global;

/// The first element and those behind it.
pub(crate) fn next<T>(xs: &[T]) -> Option<(&T, &[T])>
    ensures some { IfSome result (λ x. xs.now ≡ x.0.now ∷ x.1.now) }
    ensures none { IfNone result (xs.now ≡ []) }
{
    xs.split_first()
}

pub(crate) fn copy_words(alloc: Global, words: &[u32]) -> Result<Vec<u32>, Memory>
    ensures { IfOk result (λ r. r.items ≡ words.now) }
{
    Ok(words.to_vec(alloc)?)
}
