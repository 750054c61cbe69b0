// The operators of expressions.

#[derive(Clone, Copy, Debug, PartialEq, Eq)]
pub enum UnOp {
    Minus,
    Plus,
    Not,
    Flip,
    Deref,
    Address,
}

#[derive(Clone, Copy, Debug, PartialEq, Eq)]
pub enum StepOp {
    PreUp,
    PreDown,
    PostUp,
    PostDown,
}

#[derive(Clone, Copy, Debug, PartialEq, Eq)]
pub enum BinOp {
    Mul,
    Div,
    Mod,
    Add,
    Sub,
    Shl,
    Shr,
    Less,
    LessEq,
    More,
    MoreEq,
    Equal,
    NotEqual,
    BitAnd,
    BitXor,
    BitOr,
    AndAlso,
    OrElse,
}
