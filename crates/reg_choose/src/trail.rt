// Where a temporary stands.

/// The first and the last place where a temporary stands, once it is known to stand anywhere, and whether it is live across a call.
#[derive(Clone, Copy)]
pub(crate) struct Trail {
    pub(crate) first: u64,
    pub(crate) last: u64,
    pub(crate) held: bool,
    pub(crate) crosses: bool,
}
