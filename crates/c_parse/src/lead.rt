// What tokens begin, as far as their first one or two tell.

use c_tree::{StepOp, UnOp};

/// What a unary expression begins with.
#[derive(Clone, Copy)]
pub enum Start {
    Operator(UnOp),
    Step(StepOp),
    Cast,
    Size,
    Other,
}

/// What a primary expression begins with.
#[derive(Clone, Copy)]
pub enum Lead {
    Name,
    Value(u32),
    Text,
    Null,
    Paren,
    Other,
}

/// What goes on with an expression.
#[derive(Clone, Copy)]
pub enum Suffix {
    Index,
    Member,
    Arrow,
    Step(StepOp),
    Nothing,
}

/// What a type begins with.
#[derive(Clone, Copy)]
pub enum TypeLead {
    Int,
    Bool,
    Named,
    Void,
    Other,
}

/// What goes on with a type.
#[derive(Clone, Copy)]
pub enum TypeMark {
    Star,
    Bracket,
    Nothing,
}

/// What a statement begins with.
#[derive(Clone, Copy)]
pub enum StmtLead {
    Block,
    Empty,
    Vars,
    If,
    While,
    Do,
    For,
    Switch,
    Return,
    Break,
    Continue,
    Expr,
}

/// What an arm of a `switch` begins with.
#[derive(Clone, Copy)]
pub enum ArmLead {
    Case,
    Default,
    Stmt,
}

/// What an item begins with.
#[derive(Clone, Copy)]
pub enum ItemLead {
    Record(bool),
    Enum,
    Typedef,
    Void,
    Other,
}
