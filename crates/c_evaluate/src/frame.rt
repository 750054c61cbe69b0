// What the machine looks at, and what it has still to do.
use c_meaning::End;
use c_tree::Span;
use c_types::{CType, TArm, TExpr, TInit, TStmt, TVar};
use kit_base::Event;
use obj_mem::Cell;

/// What came of an expression: a value, a place, or none.
#[derive(Clone, Copy)]
pub(crate) enum Outcome {
    Value(Cell),
    Place(Cell),
    Nothing,
}

/// How a statement was left.
#[derive(Clone, Copy)]
pub(crate) enum How {
    On,
    Break,
    Continue,
    Return(Option<Cell>),
}

/// What is looked at next: an expression to evaluate, an initialiser of a type to fill in at a place, a statement to do whose function gives a
/// structure at a place; or what came of one. The number before a tree is the bound.
#[derive(Clone, Copy)]
pub(crate) enum Focus<'a> {
    Eval(u32, &'a TExpr),
    Fill(u32, &'a TInit, Option<&'a CType>, Cell),
    Do(u32, Cell, &'a TStmt),
    Outcome(Outcome),
    Made(Event, Outcome),
    Exit(How),
    Full,
    Over(End),
}

/// What of a statement is being done: the value that it asks for, the step of a `for`, the body of a loop, the first part of a `for`.
#[derive(Clone, Copy)]
pub(crate) enum Stage {
    Value,
    Step,
    Body,
    Begin,
}

/// What a call keeps of its caller.
#[derive(Drop)]
pub(crate) struct Caller {
    pub(crate) objects: u64,
    pub(crate) function: Option<u32>,
    pub(crate) locals: Vec<Option<u64>>,
    pub(crate) used: u32,
}

/// What is still to be done with what comes of the focus. The number before a tree is the bound.
#[derive(Drop)]
pub(crate) enum Frame<'a> {
    First(u32, &'a TExpr),
    Second(u32, &'a TExpr, Cell),
    Argument(u32, u32, Span, Vec<Cell>, &'a [TExpr]),
    Back(u32, Vec<Cell>, Cell, Span, Box<Caller>),
    InStmt(Stage, u32, Cell, &'a TStmt),
    Rest(u32, Cell, &'a [TStmt]),
    Arms(u32, Cell, &'a [TArm]),
    End(&'a [u32]),
    Switch,
    One(u32, Option<&'a CType>, &'a TExpr, Cell),
    Items(u32, &'a [TInit], Option<&'a CType>, usize, Cell),
    Vars(u32, &'a [TVar]),
    Filled,
    Main(u32, u32),
}
