// Typed trees.
use crate::ctype::CType;
use c_tree::{BinOp, Span, StepOp, UnOp};
use kit_base::Seq;

/// A typed expression.
#[cycle(texpr)]
#[derive(Drop)]
pub struct TExpr {
    pub kind: TKind,
    pub ty: CType,
    pub span: Span,
}

/// What a typed expression is. A literal, a global, a local and a function are named by their numbers, a member by its offset in words, a
/// port by its number. A parenthesis leaves its inner expression; an enumerator and `sizeof` are numbers.
#[cycle(texpr)]
#[derive(Drop)]
pub enum TKind {
    Number(u32),
    Null,
    Literal(u32),
    Global(u32),
    Local(u32),
    Unary(UnOp, Box<TExpr>),
    Binary(BinOp, Box<TExpr>, Box<TExpr>),
    Assign(Option<BinOp>, Box<TExpr>, Box<TExpr>),
    Step(StepOp, Box<TExpr>),
    Index(Box<TExpr>, Box<TExpr>),
    Member(Box<TExpr>, u32),
    Arrow(Box<TExpr>, u32),
    Cast(Box<TExpr>),
    Call(u32, Seq<TExpr>),
    In(u32),
    Out(u32, Box<TExpr>),
    Wait,
    Halt,
    Card,
}

/// What a variable is filled with; a text is named by its literal's number.
#[derive(Drop)]
pub enum TInit {
    One(TExpr),
    Text(u32),
    List(Seq<TInit>),
}

/// A variable that has an initialiser.
#[derive(Drop)]
pub struct TVar {
    pub global: bool,
    pub object: u32,
    pub ty: CType,
    pub init: TInit,
}

/// A typed statement. The first list of a block, a `for` and a `switch` names the locals that are made on entering it, those of a switch
/// after its value; the locals in no such list are made with the call.
#[cycle(tstmt)]
#[derive(Drop)]
pub enum TStmt {
    Block(Seq<u32>, Seq<TStmt>),
    Empty,
    Vars(Seq<TVar>),
    Do(TExpr),
    If(TExpr, Box<TStmt>, Option<Box<TStmt>>),
    While(TExpr, Box<TStmt>),
    DoWhile(Box<TStmt>, TExpr),
    For(Seq<u32>, Option<Box<TStmt>>, Option<TExpr>, Option<TExpr>, Box<TStmt>),
    Switch(TExpr, Seq<u32>, Seq<TArm>),
    Return(Option<TExpr>),
    Break,
    Continue,
}

/// An arm of a switch; a label is its number.
#[cycle(tstmt)]
#[derive(Drop)]
pub enum TArm {
    Case(u32),
    Default,
    Stmt(TStmt),
}
