// What a unit declares and defines.

use crate::expression::{Expr, TypeTree};
use crate::span::Span;
use crate::statement::Stmt;
use crate::variable::Var;
use kit_base::{Name, Seq};

#[derive(Drop)]
pub enum Item {
    Record {
        is_union: bool,
        name: Name,
        members: Option<Seq<Var>>,
        span: Span,
    },
    Enum {
        name: Name,
        values: Seq<(Name, Option<Expr>)>,
        span: Span,
    },
    Typedef(TypeTree, Name, Span),
    Vars(Seq<Var>, Span),
    Function {
        result: TypeTree,
        name: Name,
        params: Seq<Var>,
        body: Option<Seq<Stmt>>,
        span: Span,
    },
}

#[derive(Drop)]
pub struct Unit {
    pub items: Seq<Item>,
}
