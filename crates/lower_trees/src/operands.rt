// What an expression is made of.
use c_tree::{BinOp, StepOp};
use c_types::CType;
use v32_isa::One;

/// What an operator comes to, its operands, of which the second is used up, and the size of an element, where it needs one.
#[derive(Clone, Copy)]
pub(crate) struct Operands {
    pub(crate) target: u32,
    pub(crate) first: u32,
    pub(crate) second: u32,
    pub(crate) scale: u32,
}

/// The first of two operands, once it is computed: its type, and the temporary of its value or its place.
#[derive(Clone, Copy)]
pub(crate) struct First<'x> {
    pub(crate) ty: &'x CType,
    pub(crate) temporary: u32,
}

/// What is done to an only operand, once it is computed: an operation on its word, a write to a port, a test, a test that is turned around, a
/// conversion to a type or to the first of some types, where there is one, a step of the cell at its place, a step by so many words, or a step to a
/// member of this type.
#[derive(Clone, Copy)]
pub(crate) enum After<'x> {
    One(One),
    Out(u32),
    Test,
    Negate,
    Convert(&'x CType),
    ConvertFirst(Option<&'x [CType]>),
    Step(StepOp),
    Offset(u32),
    Member(&'x CType, u32),
}

/// What is done to two operands, once they are computed: an operator, a step to an element of a type, or an assignment of the second to the place of
/// the first, which may operate on both.
#[derive(Clone, Copy)]
pub(crate) enum Second<'x> {
    Operate(BinOp),
    Element(&'x CType),
    Assign(Option<BinOp>),
}
