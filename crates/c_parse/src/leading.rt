// What tokens begin.
ghost use Rattle.std.specs.Prelude.{◌≡◌, suc};
ghost use Rattle.c_parse.specs.inner.Leads as leads;
ghost use Rattle.c_parse.specs.Marks as marks;
ghost use Rattle.c_parse.specs.inner.Reading.{assigner_at, assigner_behind, is_some_suffix, is_unary, of_level, operator_at};
ghost use Rattle.c_parse.specs.Tok.{toks};
ghost use Rattle.c_parse.specs.inner.View.{context};
ghost use Rattle.c_tree.specs.View.{expr};

use crate::class::{Class, Key, next};
use crate::lead::{ArmLead, ItemLead, Lead, Start, StmtLead, Suffix, TypeLead, TypeMark};
use crate::scope::{Scope, is_type};
use crate::tokens::at;
use c_lex::{Punct, Token};
use c_tree::{BinOp, Expr, StepOp, UnOp};

pub(crate) fn type_at(scope: &Scope, tokens: &[Token]) -> TypeLead
    ensures { result ≡ leads.type_at (context scope.now) (toks tokens.now) }
{
    match next(tokens) {
        Some((Class::Key(Key::Int), _, _)) => TypeLead::Int,
        Some((Class::Key(Key::Bool), _, _)) => TypeLead::Bool,
        Some((Class::Key(Key::Void), _, _)) => TypeLead::Void,
        Some((Class::Word, token, _)) => {
            if is_type(scope, token) {
                TypeLead::Named
            } else {
                TypeLead::Other
            }
        }
        _ => TypeLead::Other,
    }
}

pub(crate) fn begins_type(scope: &Scope, tokens: &[Token]) -> bool
    ensures { result ≡ leads.begins_type (context scope.now) (toks tokens.now) }
{
    match type_at(scope, tokens) {
        TypeLead::Other => false,
        _ => true,
    }
}

pub(crate) fn type_mark_at(tokens: &[Token]) -> TypeMark
    ensures { result ≡ leads.type_mark_at (toks tokens.now) }
{
    match next(tokens) {
        Some((Class::Mark(Punct::Star), _, _)) => TypeMark::Star,
        Some((Class::Mark(Punct::OpenBracket), _, _)) => TypeMark::Bracket,
        _ => TypeMark::Nothing,
    }
}

fn prefix_mark(mark: Punct) -> Option<UnOp>
    ensures { result ≡ marks.prefix_mark mark }
{
    match mark {
        Punct::Minus => Some(UnOp::Minus),
        Punct::Plus => Some(UnOp::Plus),
        Punct::Bang => Some(UnOp::Not),
        Punct::Tilde => Some(UnOp::Flip),
        Punct::Star => Some(UnOp::Deref),
        Punct::And => Some(UnOp::Address),
        _ => None,
    }
}

fn operator_start(op: Option<UnOp>) -> Start
    ensures { result ≡ leads.operator_start op }
{
    match op {
        Some(op) => Start::Operator(op),
        None => Start::Other,
    }
}

fn mark_start(scope: &Scope, mark: Punct, rest: &[Token]) -> Start
    ensures { result ≡ leads.mark_start (context scope.now) mark (toks rest.now) }
{
    match mark {
        Punct::PlusPlus => Start::Step(StepOp::PreUp),
        Punct::MinusMinus => Start::Step(StepOp::PreDown),
        Punct::OpenParen => {
            if begins_type(scope, rest) {
                Start::Cast
            } else {
                Start::Other
            }
        }
        _ => operator_start(prefix_mark(mark)),
    }
}

pub(crate) fn start_at(scope: &Scope, tokens: &[Token]) -> Start
    ensures { result ≡ leads.start_at (context scope.now) (toks tokens.now) }
{
    match next(tokens) {
        Some((Class::Mark(mark), _, rest)) => mark_start(scope, mark, rest),
        Some((Class::Key(Key::SizeOf), _, _)) => Start::Size,
        _ => Start::Other,
    }
}

fn key_lead(key: Key) -> Lead
    ensures { result ≡ leads.key_lead key }
{
    match key {
        Key::True => Lead::Value(1),
        Key::False => Lead::Value(0),
        Key::Null => Lead::Null,
        _ => Lead::Other,
    }
}

pub(crate) fn lead_at(scope: &Scope, tokens: &[Token]) -> Lead
    ensures { result ≡ leads.lead_at (context scope.now) (toks tokens.now) }
{
    match next(tokens) {
        Some((Class::Word, token, _)) => {
            if is_type(scope, token) {
                Lead::Other
            } else {
                Lead::Name
            }
        }
        Some((Class::Number(n), _, _)) => Lead::Value(n),
        Some((Class::Char(n), _, _)) => Lead::Value(n),
        Some((Class::Text, _, _)) => Lead::Text,
        Some((Class::Key(key), _, _)) => key_lead(key),
        Some((Class::Mark(Punct::OpenParen), _, _)) => Lead::Paren,
        _ => Lead::Other,
    }
}

fn is_some_start(start: Start) -> bool
    ensures { result ≡ leads.is_some_start start }
{
    match start {
        Start::Other => false,
        _ => true,
    }
}

fn is_some_lead(lead: Lead) -> bool
    ensures { result ≡ leads.is_some_lead lead }
{
    match lead {
        Lead::Other => false,
        _ => true,
    }
}

pub(crate) fn begins_expr(scope: &Scope, tokens: &[Token]) -> bool
    ensures { result ≡ leads.begins_expr (context scope.now) (toks tokens.now) }
{
    is_some_start(start_at(scope, tokens)) || is_some_lead(lead_at(scope, tokens))
}

pub(crate) fn suffix_at(tokens: &[Token]) -> Suffix
    ensures { result ≡ leads.suffix_at (toks tokens.now) }
{
    match next(tokens) {
        Some((Class::Mark(Punct::OpenBracket), _, _)) => Suffix::Index,
        Some((Class::Mark(Punct::Dot), _, _)) => Suffix::Member,
        Some((Class::Mark(Punct::Arrow), _, _)) => Suffix::Arrow,
        Some((Class::Mark(Punct::PlusPlus), _, _)) => Suffix::Step(StepOp::PostUp),
        Some((Class::Mark(Punct::MinusMinus), _, _)) => Suffix::Step(StepOp::PostDown),
        _ => Suffix::Nothing,
    }
}

pub(crate) fn is_some_suffix(suffix: Suffix) -> bool
    ensures { result ≡ is_some_suffix suffix }
{
    match suffix {
        Suffix::Nothing => false,
        _ => true,
    }
}

fn key_stmt(key: Key) -> StmtLead
    ensures { result ≡ leads.key_stmt key }
{
    match key {
        Key::Int => StmtLead::Vars,
        Key::Bool => StmtLead::Vars,
        Key::Void => StmtLead::Vars,
        Key::If => StmtLead::If,
        Key::While => StmtLead::While,
        Key::Do => StmtLead::Do,
        Key::For => StmtLead::For,
        Key::Switch => StmtLead::Switch,
        Key::Return => StmtLead::Return,
        Key::Break => StmtLead::Break,
        Key::Continue => StmtLead::Continue,
        _ => StmtLead::Expr,
    }
}

pub(crate) fn stmt_at(scope: &Scope, tokens: &[Token]) -> StmtLead
    ensures { result ≡ leads.stmt_at (context scope.now) (toks tokens.now) }
{
    match next(tokens) {
        Some((Class::Key(key), _, _)) => key_stmt(key),
        Some((Class::Word, token, _)) => {
            if is_type(scope, token) {
                StmtLead::Vars
            } else {
                StmtLead::Expr
            }
        }
        Some((Class::Mark(Punct::OpenBrace), _, _)) => StmtLead::Block,
        Some((Class::Mark(Punct::Semicolon), _, _)) => StmtLead::Empty,
        _ => StmtLead::Expr,
    }
}

fn is_some_stmt(lead: StmtLead) -> bool
    ensures { result ≡ leads.is_some_stmt lead }
{
    match lead {
        StmtLead::Expr => false,
        _ => true,
    }
}

pub(crate) fn begins_stmt(scope: &Scope, tokens: &[Token]) -> bool
    ensures { result ≡ leads.begins_stmt (context scope.now) (toks tokens.now) }
{
    is_some_stmt(stmt_at(scope, tokens)) || begins_expr(scope, tokens)
}

pub(crate) fn arm_at(tokens: &[Token]) -> ArmLead
    ensures { result ≡ leads.arm_at (toks tokens.now) }
{
    match next(tokens) {
        Some((Class::Key(Key::Case), _, _)) => ArmLead::Case,
        Some((Class::Key(Key::Default), _, _)) => ArmLead::Default,
        _ => ArmLead::Stmt,
    }
}

pub(crate) fn is_some_arm(lead: ArmLead) -> bool
    ensures { result ≡ leads.is_some_arm lead }
{
    match lead {
        ArmLead::Stmt => false,
        _ => true,
    }
}

pub(crate) fn item_at(tokens: &[Token]) -> ItemLead
    ensures { result ≡ leads.item_at (toks tokens.now) }
{
    match next(tokens) {
        Some((Class::Key(Key::Struct), _, _)) => ItemLead::Record(false),
        Some((Class::Key(Key::Union), _, _)) => ItemLead::Record(true),
        Some((Class::Key(Key::Enum), _, _)) => ItemLead::Enum,
        Some((Class::Key(Key::Typedef), _, _)) => ItemLead::Typedef,
        Some((Class::Key(Key::Void), _, rest)) => {
            if at(Punct::Star, rest) {
                ItemLead::Other
            } else {
                ItemLead::Void
            }
        }
        _ => ItemLead::Other,
    }
}

fn binary_mark(mark: Punct) -> Option<(u32, BinOp)>
    ensures { result ≡ marks.binary_mark mark }
{
    match mark {
        Punct::Star => Some((1, BinOp::Mul)),
        Punct::Slash => Some((1, BinOp::Div)),
        Punct::Percent => Some((1, BinOp::Mod)),
        Punct::Plus => Some((2, BinOp::Add)),
        Punct::Minus => Some((2, BinOp::Sub)),
        Punct::Shl => Some((3, BinOp::Shl)),
        Punct::Shr => Some((3, BinOp::Shr)),
        Punct::Less => Some((4, BinOp::Less)),
        Punct::LessEqual => Some((4, BinOp::LessEq)),
        Punct::Greater => Some((4, BinOp::More)),
        Punct::GreaterEqual => Some((4, BinOp::MoreEq)),
        Punct::EqualEqual => Some((5, BinOp::Equal)),
        Punct::NotEqual => Some((5, BinOp::NotEqual)),
        Punct::And => Some((6, BinOp::BitAnd)),
        Punct::Xor => Some((7, BinOp::BitXor)),
        Punct::Or => Some((8, BinOp::BitOr)),
        Punct::AndAnd => Some((9, BinOp::AndAlso)),
        Punct::OrOr => Some((10, BinOp::OrElse)),
        _ => None,
    }
}

fn of_level(level: u32, found: Option<(u32, BinOp)>) -> Option<BinOp>
    ensures { result ≡ of_level level found }
{
    match found {
        None => None,
        Some((k, op)) => { if k == level { Some(op) } else { None } }
    }
}

/// The operator of that level, where one comes next.
pub(crate) fn operator_at(level: u32, tokens: &[Token]) -> Option<BinOp>
    ensures { result ≡ operator_at level (toks tokens.now) }
{
    match next(tokens) {
        Some((Class::Mark(mark), _, _)) => of_level(level, binary_mark(mark)),
        _ => None,
    }
}

fn assigner_mark(mark: Punct) -> Option<Option<BinOp>>
    ensures { result ≡ marks.assigner_mark mark }
{
    match mark {
        Punct::Assign => Some(None),
        Punct::PlusAssign => Some(Some(BinOp::Add)),
        Punct::MinusAssign => Some(Some(BinOp::Sub)),
        Punct::StarAssign => Some(Some(BinOp::Mul)),
        Punct::SlashAssign => Some(Some(BinOp::Div)),
        Punct::PercentAssign => Some(Some(BinOp::Mod)),
        Punct::ShlAssign => Some(Some(BinOp::Shl)),
        Punct::ShrAssign => Some(Some(BinOp::Shr)),
        Punct::AndAssign => Some(Some(BinOp::BitAnd)),
        Punct::OrAssign => Some(Some(BinOp::BitOr)),
        Punct::XorAssign => Some(Some(BinOp::BitXor)),
        _ => None,
    }
}

fn assigner_at(tokens: &[Token]) -> Option<Option<BinOp>>
    ensures { result ≡ assigner_at (toks tokens.now) }
{
    match next(tokens) {
        Some((Class::Mark(mark), _, _)) => assigner_mark(mark),
        _ => None,
    }
}

fn is_unary(e: &Expr) -> bool
    ensures { result ≡ is_unary (expr e.now) }
{
    match e {
        Expr::Binary(_, _, _, _) => false,
        Expr::Assign(_, _, _, _) => false,
        _ => true,
    }
}

/// The assignment that goes on with an expression.
pub(crate) fn assigner_behind(e: &Expr, tokens: &[Token]) -> Option<Option<BinOp>>
    ensures { result ≡ assigner_behind (expr e.now) (toks tokens.now) }
{
    if !is_unary(e) {
        return None;
    }
    assigner_at(tokens)
}
