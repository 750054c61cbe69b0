// Slices, element by element.
ghost use Rattle.std.specs.Prelude.{◌≡◌, ◌∷◌, [], IfSome, IfNone};

/// The first element and those behind it.
pub(crate) fn next<T>(xs: &[T]) -> Option<(&T, &[T])>
    ensures some { IfSome result (λ x. xs.now ≡ x.0.now ∷ x.1.now) }
    ensures none { IfNone result (xs.now ≡ []) }
{
    xs.split_first()
}
