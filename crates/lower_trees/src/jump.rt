// Where statements go to.
use c_types::CType;

/// Where `continue` goes to: the end of the k-th enclosing part, or its next turn.
#[derive(Clone, Copy)]
pub(crate) enum JumpTo {
    End(u32),
    Turn(u32),
}

/// How a statement is left: `return` gives a value of the type `gives`, `break` leaves the enclosing part of the number `breaks`, and
/// `continue` goes where `continues` says.
#[derive(Clone, Copy)]
pub(crate) struct Exits<'g> {
    pub(crate) gives: &'g CType,
    pub(crate) breaks: u32,
    pub(crate) continues: JumpTo,
}
