// Kinds of types and expressions.
ghost use Rattle.std.specs.Prelude.{◌≡◌, ◌||◌};
ghost use Rattle.c_types.specs.View.{ctype, texpr};
ghost use Rattle.c_exprs.specs.Nodes.{is_place};
ghost use Rattle.lower_trees.specs.Counts.{is_scalar};
ghost use Rattle.lower_trees.specs.Flags.{is_bool, is_not, is_comparison, is_flag, tests_flag};
ghost use Rattle.lower_trees.specs.Expressions.{lazy_of, gives_old, counts_up};

use c_tree::{BinOp, StepOp, UnOp};
use c_types::{CType, TExpr, TKind, has_pointer_value};

fn is_bool(ty: &CType) -> bool
    ensures { result ≡ is_bool (ctype ty.now) }
{
    match ty {
        CType::Bool => true,
        CType::Void
        | CType::Int
        | CType::Enum(_)
        | CType::Struct(_)
        | CType::Union(_)
        | CType::Pointer(_)
        | CType::Array(_, _) => false,
    }
}

/// Whether a value of a type is one cell that is read from its place.
pub(crate) fn is_scalar(ty: &CType) -> bool
    ensures { result ≡ is_scalar (ctype ty.now) }
{
    match ty {
        CType::Int | CType::Bool | CType::Enum(_) | CType::Pointer(_) => true,
        CType::Void | CType::Struct(_) | CType::Union(_) | CType::Array(_, _) => false,
    }
}

/// Whether an expression is computed as a place.
pub(crate) fn is_place(x: &TExpr) -> bool
    ensures { result ≡ is_place (texpr x.now) }
{
    match &x.kind {
        TKind::Number(_) => false,
        TKind::Null => false,
        TKind::Literal(_) => true,
        TKind::Global(_) => true,
        TKind::Local(_) => true,
        TKind::Unary(UnOp::Deref, _) => true,
        TKind::Unary(UnOp::Minus, _) => false,
        TKind::Unary(UnOp::Plus, _) => false,
        TKind::Unary(UnOp::Not, _) => false,
        TKind::Unary(UnOp::Flip, _) => false,
        TKind::Unary(UnOp::Address, _) => false,
        TKind::Binary(_, _, _) => false,
        TKind::Assign(_, _, _) => false,
        TKind::Step(_, _) => false,
        TKind::Index(_, _) => true,
        TKind::Member(inner, _) => is_place(inner),
        TKind::Arrow(_, _) => true,
        TKind::Cast(_) => false,
        TKind::Call(_, _) => false,
        TKind::In(_) => false,
        TKind::Out(_, _) => false,
        TKind::Wait => false,
        TKind::Halt => false,
        TKind::Card => false,
    }
}

fn is_not(op: UnOp) -> bool
    ensures { result ≡ is_not op }
{
    match op {
        UnOp::Not => true,
        UnOp::Minus => false,
        UnOp::Plus => false,
        UnOp::Flip => false,
        UnOp::Deref => false,
        UnOp::Address => false,
    }
}

fn is_comparison(op: BinOp) -> bool
    ensures { result ≡ is_comparison op }
{
    match op {
        BinOp::Less => true,
        BinOp::LessEq => true,
        BinOp::More => true,
        BinOp::MoreEq => true,
        BinOp::Equal => true,
        BinOp::NotEqual => true,
        BinOp::AndAlso => true,
        BinOp::OrElse => true,
        BinOp::Mul => false,
        BinOp::Div => false,
        BinOp::Mod => false,
        BinOp::Add => false,
        BinOp::Sub => false,
        BinOp::Shl => false,
        BinOp::Shr => false,
        BinOp::BitAnd => false,
        BinOp::BitXor => false,
        BinOp::BitOr => false,
    }
}

/// Whether an expression's value is always 0 or 1.
pub(crate) fn is_flag(x: &TExpr) -> bool
    ensures { result ≡ is_flag (texpr x.now) }
{
    match &x.kind {
        TKind::Number(n) => *n <= 1,
        TKind::Null => false,
        TKind::Literal(_) => false,
        TKind::Global(_) => false,
        TKind::Local(_) => false,
        TKind::Unary(op, _) => is_not(*op),
        TKind::Binary(op, _, _) => is_comparison(*op),
        TKind::Assign(_, place, _) => is_bool(&place.ty),
        TKind::Step(_, _) => false,
        TKind::Index(_, _) => false,
        TKind::Member(_, _) => false,
        TKind::Arrow(_, _) => false,
        TKind::Cast(_) => is_bool(&x.ty),
        TKind::Call(_, _) => false,
        TKind::In(_) => false,
        TKind::Out(_, _) => false,
        TKind::Wait => false,
        TKind::Halt => false,
        TKind::Card => false,
    }
}

/// Whether an expression is a condition whose word is 0 or 1.
pub(crate) fn tests_flag(x: &TExpr) -> bool
    ensures { result ≡ tests_flag (texpr x.now) }
{
    is_flag(x) || has_pointer_value(&x.ty)
}

/// Whether an operator skips its second operand: `&&` (true) or `||` (false).
pub(crate) fn lazy_of(op: BinOp) -> Option<bool>
    ensures { result ≡ lazy_of op }
{
    match op {
        BinOp::AndAlso => Some(true),
        BinOp::OrElse => Some(false),
        BinOp::Less => None,
        BinOp::LessEq => None,
        BinOp::More => None,
        BinOp::MoreEq => None,
        BinOp::Equal => None,
        BinOp::NotEqual => None,
        BinOp::Mul => None,
        BinOp::Div => None,
        BinOp::Mod => None,
        BinOp::Add => None,
        BinOp::Sub => None,
        BinOp::Shl => None,
        BinOp::Shr => None,
        BinOp::BitAnd => None,
        BinOp::BitXor => None,
        BinOp::BitOr => None,
    }
}

/// Whether a step gives the cell before it.
pub(crate) fn gives_old(op: StepOp) -> bool
    ensures { result ≡ gives_old op }
{
    match op {
        StepOp::PreUp => false,
        StepOp::PreDown => false,
        StepOp::PostUp => true,
        StepOp::PostDown => true,
    }
}

/// Whether a step counts up.
pub(crate) fn counts_up(op: StepOp) -> bool
    ensures { result ≡ counts_up op }
{
    match op {
        StepOp::PreUp => true,
        StepOp::PreDown => false,
        StepOp::PostUp => true,
        StepOp::PostDown => false,
    }
}
