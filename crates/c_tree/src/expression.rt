// Expressions, and the types that stand in them.

use crate::operator::{BinOp, StepOp, UnOp};
use crate::span::Span;
use kit_base::{Name, Seq};

#[cycle(expr)]
#[derive(Drop)]
pub enum Expr {
    Name(Name, Span),
    Number(u32, Span),
    Text(Name, Span),
    Null(Span),
    Paren(Box<Expr>, Span),
    Unary(UnOp, Box<Expr>, Span),
    Binary(BinOp, Box<Expr>, Box<Expr>, Span),
    Assign(Option<BinOp>, Box<Expr>, Box<Expr>, Span),
    Step(StepOp, Box<Expr>, Span),
    Index(Box<Expr>, Box<Expr>, Span),
    Member(Box<Expr>, Name, Span),
    Arrow(Box<Expr>, Name, Span),
    Call(Name, Seq<Expr>, Span),
    Cast(TypeTree, Box<Expr>, Span),
    SizeOf(TypeTree, Span),
}

#[cycle(expr)]
#[derive(Drop)]
pub enum TypeTree {
    Int,
    Bool,
    Void,
    Named(Name),
    Pointer(Box<TypeTree>),
    Array(Box<TypeTree>, Box<Expr>),
}
