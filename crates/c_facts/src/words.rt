// The numbers of trees in memory are words.
ghost use Rattle.std.specs.Prelude.{map, option_map};
ghost use Rattle.c_types.specs.View.{function, texpr, texprs, tinit, tinits, tvar, tstmt, tstmts, tarm, tarms};
ghost use Rattle.c_check.specs.View.{program};
ghost use Rattle.c_facts.specs.Words.{IsWord, AreWords, InWords, AllInWords, FillsInWords, AllFillInWords, VariableInWords, VariablesInWords};
ghost use Rattle.c_facts.specs.Words.{MaybeInWords, StatementInWords, StatementsInWords, ArmInWords, ArmsInWords, FillInWords, FunctionsInWords};
ghost use Rattle.c_facts.specs.Words.{NumbersAreWords};

use c_check::Program;
use c_types::{TArm, TExpr, TFunction, TInit, TKind, TStmt, TVar};

/// A number in memory is a word.
fn word(number: u32)
    ensures word { IsWord number }
{
    let _ = number;
}

fn words(numbers: &[u32])
    ensures words { AreWords numbers.now }
{
    for number in numbers {
        word(*number);
    }
}

#[cycle(expressions)]
fn expression(x: &TExpr)
    ensures words { InWords (texpr x.now) }
{
    word(x.span.first);
    word(x.span.last);
    match &x.kind {
        TKind::Number(n) | TKind::Literal(n) | TKind::Global(n) | TKind::Local(n) | TKind::In(n) =>
            word(*n),
        TKind::Unary(_, a) => expression(a),
        TKind::Binary(_, a, b) => {
            expression(a);
            expression(b);
        }
        TKind::Assign(_, a, b) => {
            expression(a);
            expression(b);
        }
        TKind::Step(_, a) => expression(a),
        TKind::Index(a, b) => {
            expression(a);
            expression(b);
        }
        TKind::Member(a, offset) => {
            word(*offset);
            expression(a);
        }
        TKind::Arrow(a, offset) => {
            word(*offset);
            expression(a);
        }
        TKind::Cast(a) => expression(a),
        TKind::Call(number, xs) => {
            word(*number);
            expressions(xs.as_slice());
        }
        TKind::Out(port, a) => {
            word(*port);
            expression(a);
        }
        TKind::Null | TKind::Wait | TKind::Halt | TKind::Card => {}
    }
}

#[cycle(expressions)]
fn expressions(xs: &[TExpr])
    ensures words { AllInWords (texprs (map texpr xs.now)) }
{
    for x in xs {
        expression(x);
    }
}

fn maybe_expression(x: &Option<TExpr>)
    ensures words { MaybeInWords (option_map texpr x.now) }
{
    if let Some(x) = x {
        expression(x);
    }
}

#[cycle(initialisers)]
fn initialiser(i: &TInit)
    ensures words { FillsInWords (tinit i.now) }
{
    match i {
        TInit::One(x) => expression(x),
        TInit::Text(number) => word(*number),
        TInit::List(items) => initialisers(items.as_slice()),
    }
}

#[cycle(initialisers)]
fn initialisers(items: &[TInit])
    ensures words { AllFillInWords (tinits (map tinit items.now)) }
{
    for i in items {
        initialiser(i);
    }
}

fn variable(v: &TVar)
    ensures words { VariableInWords (tvar v.now) }
{
    word(v.object);
    initialiser(&v.init);
}

fn variables(vars: &[TVar])
    ensures words { VariablesInWords (map tvar vars.now) }
{
    for v in vars {
        variable(v);
    }
}

#[cycle(statements)]
fn statement(s: &TStmt)
    ensures words { StatementInWords (tstmt s.now) }
{
    match s {
        TStmt::Block(made, body) => {
            words(made.as_slice());
            statements(body.as_slice());
        }
        TStmt::Vars(vars) => variables(vars.as_slice()),
        TStmt::Do(x) => expression(x),
        TStmt::If(x, a, None) => {
            expression(x);
            statement(a);
        }
        TStmt::If(x, a, Some(b)) => {
            expression(x);
            statement(a);
            statement(b);
        }
        TStmt::While(x, a) => {
            expression(x);
            statement(a);
        }
        TStmt::DoWhile(a, x) => {
            statement(a);
            expression(x);
        }
        TStmt::For(made, None, test, step, a) => {
            words(made.as_slice());
            maybe_expression(test);
            maybe_expression(step);
            statement(a);
        }
        TStmt::For(made, Some(first), test, step, a) => {
            words(made.as_slice());
            statement(first);
            maybe_expression(test);
            maybe_expression(step);
            statement(a);
        }
        TStmt::Switch(x, made, all) => {
            expression(x);
            words(made.as_slice());
            arms(all.as_slice());
        }
        TStmt::Return(x) => maybe_expression(x),
        TStmt::Empty | TStmt::Break | TStmt::Continue => {}
    }
}

#[cycle(statements)]
fn statements(body: &[TStmt])
    ensures words { StatementsInWords (tstmts (map tstmt body.now)) }
{
    for s in body {
        statement(s);
    }
}

#[cycle(statements)]
fn arm(a: &TArm)
    ensures words { ArmInWords (tarm a.now) }
{
    match a {
        TArm::Case(label) => word(*label),
        TArm::Default => {}
        TArm::Stmt(s) => statement(s),
    }
}

#[cycle(statements)]
fn arms(all: &[TArm])
    ensures words { ArmsInWords (tarms (map tarm all.now)) }
{
    for a in all {
        arm(a);
    }
}

fn inits(all: &[TStmt])
    ensures words { FillInWords (map tstmt all.now) }
{
    for s in all {
        statement(s);
    }
}

fn functions(all: &[TFunction])
    ensures words { FunctionsInWords (map function all.now) }
{
    for f in all {
        statements(f.body.as_slice());
    }
}

/// The numbers of a program's nodes and labels are below 2^32, and so are those of its tokens. It walks over the program once, for the proof alone, since
/// what a number in memory is limited to is known of a number at hand; it takes no memory.
pub fn numbers_are_words(checked: &Program)
    ensures words { NumbersAreWords (program checked.now) }
{
    inits(checked.inits());
    functions(checked.functions());
}
