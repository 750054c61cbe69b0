// Trees made from their parts, which come to lie in boxes.

ghost use Rattle.std.specs.Prelude.{◌≡◌, IfOk, option_map};
ghost use Rattle.c_tree.specs.View.{expr, type, stmt};
ghost use Rattle.c_tree.specs.Tree.{ParenE, UnaryE, BinaryE, AssignE, StepE, IndexE, MemberE, ArrowE, CastE, PointerY, ArrayY, IfS, NoneS, SomeS};
ghost use Rattle.c_tree.specs.Tree.{WhileS, DoWhileS, ForS};

use crate::expression::{Expr, TypeTree};
use crate::operator::{BinOp, StepOp, UnOp};
use crate::span::Span;
use crate::statement::Stmt;
use kit_base::{Memory, Name};
use std::alloc::Global;

/// `(a)`
pub fn paren(alloc: Global, a: Expr, span: Span) -> Result<Expr, Memory>
    ensures made { IfOk result (λ r. expr r ≡ ParenE (expr a) span) }
{
    Ok(Expr::Paren(Box::new(alloc, a)?, span))
}

/// An operator before its operand.
pub fn unary(alloc: Global, op: UnOp, a: Expr, span: Span) -> Result<Expr, Memory>
    ensures made { IfOk result (λ r. expr r ≡ UnaryE op (expr a) span) }
{
    Ok(Expr::Unary(op, Box::new(alloc, a)?, span))
}

/// An operator between its operands.
pub fn binary(alloc: Global, op: BinOp, a: Expr, b: Expr, span: Span) -> Result<Expr, Memory>
    ensures made { IfOk result (λ r. expr r ≡ BinaryE op (expr a) (expr b) span) }
{
    Ok(Expr::Binary(op, Box::new(alloc, a)?, Box::new(alloc, b)?, span))
}

/// An assignment, with the operator of a compound one.
pub fn assign(
    alloc: Global,
    op: Option<BinOp>,
    a: Expr,
    b: Expr,
    span: Span,
) -> Result<Expr, Memory>
    ensures made { IfOk result (λ r. expr r ≡ AssignE op (expr a) (expr b) span) }
{
    Ok(Expr::Assign(op, Box::new(alloc, a)?, Box::new(alloc, b)?, span))
}

/// A step up or down, before or after its operand.
pub fn step(alloc: Global, op: StepOp, a: Expr, span: Span) -> Result<Expr, Memory>
    ensures made { IfOk result (λ r. expr r ≡ StepE op (expr a) span) }
{
    Ok(Expr::Step(op, Box::new(alloc, a)?, span))
}

/// `a[b]`
pub fn index(alloc: Global, a: Expr, b: Expr, span: Span) -> Result<Expr, Memory>
    ensures made { IfOk result (λ r. expr r ≡ IndexE (expr a) (expr b) span) }
{
    Ok(Expr::Index(Box::new(alloc, a)?, Box::new(alloc, b)?, span))
}

/// `a.name`
pub fn member(alloc: Global, a: Expr, name: Name, span: Span) -> Result<Expr, Memory>
    ensures made { IfOk result (λ r. expr r ≡ MemberE (expr a) name span) }
{
    Ok(Expr::Member(Box::new(alloc, a)?, name, span))
}

/// `a->name`
pub fn arrow(alloc: Global, a: Expr, name: Name, span: Span) -> Result<Expr, Memory>
    ensures made { IfOk result (λ r. expr r ≡ ArrowE (expr a) name span) }
{
    Ok(Expr::Arrow(Box::new(alloc, a)?, name, span))
}

/// `(ty)a`
pub fn cast(alloc: Global, ty: TypeTree, a: Expr, span: Span) -> Result<Expr, Memory>
    ensures made { IfOk result (λ r. expr r ≡ CastE (type ty) (expr a) span) }
{
    Ok(Expr::Cast(ty, Box::new(alloc, a)?, span))
}

/// A pointer to a type.
pub fn pointer(alloc: Global, to: TypeTree) -> Result<TypeTree, Memory>
    ensures made { IfOk result (λ r. type r ≡ PointerY (type to)) }
{
    Ok(TypeTree::Pointer(Box::new(alloc, to)?))
}

/// An array of a type.
pub fn array(alloc: Global, of: TypeTree, size: Expr) -> Result<TypeTree, Memory>
    ensures made { IfOk result (λ r. type r ≡ ArrayY (type of) (expr size)) }
{
    Ok(TypeTree::Array(Box::new(alloc, of)?, Box::new(alloc, size)?))
}

/// `if` without `else`.
pub fn if_only(test: Expr, then: Box<Stmt>, span: Span) -> Stmt
    ensures made { stmt result ≡ IfS (expr test) (stmt then.value) NoneS span }
{
    Stmt::If(test, then, None, span)
}

/// `if` with `else`.
pub fn if_else(test: Expr, then: Box<Stmt>, other: Box<Stmt>, span: Span) -> Stmt
    ensures made { stmt result ≡ IfS (expr test) (stmt then.value) (SomeS (stmt other.value)) span }
{
    Stmt::If(test, then, Some(other), span)
}

/// `while`
pub fn while_(alloc: Global, test: Expr, body: Stmt, span: Span) -> Result<Stmt, Memory>
    ensures made { IfOk result (λ r. stmt r ≡ WhileS (expr test) (stmt body) span) }
{
    Ok(Stmt::While(test, Box::new(alloc, body)?, span))
}

/// `do` with its `while`.
pub fn do_while(alloc: Global, body: Stmt, test: Expr, span: Span) -> Result<Stmt, Memory>
    ensures made { IfOk result (λ r. stmt r ≡ DoWhileS (stmt body) (expr test) span) }
{
    Ok(Stmt::DoWhile(Box::new(alloc, body)?, test, span))
}

/// A statement in a box, as `if` and `for` take it.
pub fn boxed(alloc: Global, s: Stmt) -> Result<Box<Stmt>, Memory>
    ensures same { IfOk result (λ b. b.value ≡ s) }
{
    Ok(Box::new(alloc, s)?)
}

/// `for` with nothing before its first semicolon.
pub fn for_bare(test: Option<Expr>, step: Option<Expr>, body: Box<Stmt>, span: Span) -> Stmt
    ensures made { stmt result ≡ ForS NoneS (option_map expr test) (option_map expr step) (stmt body.value) span }
{
    Stmt::For(None, test, step, body, span)
}

/// `for` with something before its first semicolon.
pub fn for_from(
    first: Box<Stmt>,
    test: Option<Expr>,
    step: Option<Expr>,
    body: Box<Stmt>,
    span: Span,
) -> Stmt
    ensures made { stmt result ≡ ForS (SomeS (stmt first.value)) (option_map expr test) (option_map expr step) (stmt body.value) span }
{
    Stmt::For(Some(first), test, step, body, span)
}
