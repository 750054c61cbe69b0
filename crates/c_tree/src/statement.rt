// Statements.

use crate::expression::Expr;
use crate::span::Span;
use crate::variable::Var;
use kit_base::Seq;

#[cycle(stmt)]
#[derive(Drop)]
pub enum Stmt {
    Block(Seq<Stmt>, Span),
    Empty(Span),
    Vars(Seq<Var>, Span),
    Do(Expr),
    If(Expr, Box<Stmt>, Option<Box<Stmt>>, Span),
    While(Expr, Box<Stmt>, Span),
    DoWhile(Box<Stmt>, Expr, Span),
    For(Option<Box<Stmt>>, Option<Expr>, Option<Expr>, Box<Stmt>, Span),
    Switch(Expr, Seq<Arm>, Span),
    Return(Option<Expr>, Span),
    Break(Span),
    Continue(Span),
}

#[cycle(stmt)]
#[derive(Drop)]
pub enum Arm {
    Case(Expr, Span),
    Default(Span),
    Stmt(Stmt),
}
