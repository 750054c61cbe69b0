// How code goes on.

/// Behind its last node; behind the k-th enclosing block or loop; with its next turn; or back from the function.
#[derive(Clone, Copy, Debug, PartialEq, Eq)]
pub(crate) enum Flow {
    Next,
    Leaves(u32),
    Repeats(u32),
    Returns,
}
