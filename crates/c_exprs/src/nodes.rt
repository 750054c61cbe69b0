// What is asked of single nodes: their spans, places, constants, names and members.
ghost use Rattle.std.specs.Prelude.{◌≡◌};
ghost use Rattle.c_tree.specs.View.{expr};
ghost use Rattle.c_types.specs.View.{texpr};
ghost use Rattle.c_exprs.specs.Nodes.{span_of, is_place, constant};

use c_rules::{constant_binary, constant_unary};
use c_tree::{Expr, Span, UnOp};
use c_types::{TExpr, TKind};

/// The tokens of an expression.
pub fn span_of(e: &Expr) -> Span
    ensures span { result ≡ span_of (expr e.now) }
{
    match e {
        Expr::Name(_, span)
        | Expr::Number(_, span)
        | Expr::Text(_, span)
        | Expr::Null(span)
        | Expr::Paren(_, span)
        | Expr::Unary(_, _, span)
        | Expr::Binary(_, _, _, span)
        | Expr::Assign(_, _, _, span)
        | Expr::Step(_, _, span)
        | Expr::Index(_, _, span)
        | Expr::Member(_, _, span)
        | Expr::Arrow(_, _, span)
        | Expr::Call(_, _, span)
        | Expr::Cast(_, _, span)
        | Expr::SizeOf(_, span) => *span,
    }
}

/// Whether a typed tree is a place: an object, a text, what `*`, an index and `->` give, and a member of a place.
pub fn is_place(x: &TExpr) -> bool
    ensures place { result ≡ is_place (texpr x.now) }
{
    match &x.kind {
        TKind::Literal(_) | TKind::Global(_) | TKind::Local(_) => true,
        TKind::Index(_, _) | TKind::Arrow(_, _) => true,
        TKind::Unary(op, _) => *op == UnOp::Deref,
        TKind::Member(a, _) => is_place(a),
        TKind::Number(_) | TKind::Null | TKind::Binary(_, _, _) | TKind::Assign(_, _, _) => false,
        TKind::Step(_, _) | TKind::Cast(_) | TKind::Call(_, _) => false,
        TKind::In(_) | TKind::Out(_, _) | TKind::Wait | TKind::Halt | TKind::Card => false,
    }
}

/// The number that a typed tree is made of numbers and operators alone; none where it divides by 0.
pub fn constant(x: &TExpr) -> Option<u32>
    ensures constant { result ≡ constant (texpr x.now) }
{
    match &x.kind {
        TKind::Number(n) => Some(*n),
        TKind::Unary(op, a) => constant_unary(*op, constant(a)?),
        TKind::Binary(op, a, b) => {
            let x = constant(a)?;
            constant_binary(*op, x, constant(b)?)
        }
        TKind::Null | TKind::Literal(_) | TKind::Global(_) | TKind::Local(_) => None,
        TKind::Assign(_, _, _) | TKind::Step(_, _) | TKind::Index(_, _) => None,
        TKind::Member(_, _) | TKind::Arrow(_, _) | TKind::Cast(_) | TKind::Call(_, _) => None,
        TKind::In(_) | TKind::Out(_, _) | TKind::Wait | TKind::Halt | TKind::Card => None,
    }
}
