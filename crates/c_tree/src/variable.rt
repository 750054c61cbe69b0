// Variables and what they begin with.

use crate::expression::{Expr, TypeTree};
use crate::span::Span;
use kit_base::{Name, Seq};

#[derive(Drop)]
pub enum Init {
    One(Expr),
    List(Seq<Init>, Span),
}

#[derive(Drop)]
pub struct Var {
    pub ty: TypeTree,
    pub name: Name,
    pub init: Option<Init>,
    pub span: Span,
}
