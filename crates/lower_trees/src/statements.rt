// Statements, lowered.

ghost use Rattle.std.specs.Prelude.{◌≡◌, ◌≤◌, ◌+◌, length, map, IfOk, OnOk};
ghost use Rattle.c_types.specs.Typed.{BlockZ, WhileZ, DoWhileZ};
ghost use Rattle.c_types.specs.View.{ctype, texpr, tstmt, tstmts, tarm, tarms};
ghost use Rattle.c_types.specs.Nodes.{maybe_statement_nodes, statements_nodes, arms_nodes};
ghost use Rattle.mid_code.specs.Functions.{node};
ghost use Rattle.lower_trees.specs.Counts.{value_temps, stmt_temps, stmts_temps, other_temps, arms_temps};
ghost use Rattle.lower_trees.specs.Counts.{value_sizes, stmt_sizes, stmts_sizes, other_sizes, arms_sizes};
ghost use Rattle.lower_trees.specs.Pieces.{◌▸◌, DoP, BlockP, listing};
ghost use Rattle.lower_trees.specs.Parts.{one, made};
ghost use Rattle.lower_trees.specs.Expressions.{low_value};
ghost use Rattle.lower_trees.specs.Statements.{labels_before_default, low_match, low_stmt, low_other, low_stmts, low_arms, ToEnd};
ghost use Rattle.lower_trees.specs.inner.Adding.{Adds, AddsInside, HasRoom};
ghost use Rattle.lower_trees.specs.inner.MaybeStatements.{other_of};
ghost use Rattle.lower_trees.specs.inner.StatementParts.{simple_of, choice_of, for_of, switch_of, AddsStatement, AddsNested, CanLower, CanLowerOne};
ghost use Rattle.lower_trees.specs.View.{shape_of, jump_of};

use crate::cells::{make, put_choice};
use crate::expressions::value;
use crate::initialisers::variables;
use crate::jump::{Exits, JumpTo};
use crate::looping::{
    Turn, begin_turn, close_do_while, close_label, close_turn, close_while, condition, further,
    jump, put_block, put_return, put_tests, return_value,
};
use crate::output::{Nodes, Output};
use crate::reading::Reading;
use c_exprs::keeping;
use c_types::{CType, TArm, TExpr, TStmt};
use kit_base::Memory;
use mid_code::Op;
use std::mem;

/// The branches of an `if`.
#[derive(Clone, Copy)]
struct Branches<'x>(&'x TStmt, &'x Option<Box<TStmt>>);

/// What stands between the parentheses of a `for`, in its order: what is done first, the condition, and the step.
#[derive(Clone, Copy)]
struct ForHead<'x>(&'x Option<Box<TStmt>>, Option<&'x TExpr>, Option<&'x TExpr>);

/// The parts of a `for`, which makes the locals `made` anew.
#[derive(Clone, Copy)]
struct ForParts<'x> {
    made: &'x [u32],
    head: ForHead<'x>,
    body: &'x TStmt,
}

/// The parts of a switch, which makes the locals `made` anew.
#[derive(Clone, Copy)]
struct SwitchParts<'x> {
    value: &'x TExpr,
    made: &'x [u32],
    arms: &'x [TArm],
}

/// A statement that holds no other.
fn simple<'x>(
    s: &Reading<'x>,
    exits: Exits<'_>,
    a: &'x TStmt,
    out: &mut Output,
) -> Result<(), Memory>
    requires room { CanLowerOne s.now exits.continues (simple_of (tstmt a.now)) out.old }
    ensures adds { OnOk result (AddsStatement s.now exits.entry (simple_of (tstmt a.now)) out.old out.new) }
{
    match a {
        TStmt::Vars(vs) => variables(s, vs.as_slice(), out),
        TStmt::Do(x) => {
            let t = out.take(1);
            value(s, x, t, out)
        }
        TStmt::Return(None) => put_return(&mut out.nodes, None),
        TStmt::Return(Some(x)) => return_value(s, exits.gives, x, out),
        TStmt::Break => jump(&mut out.nodes, JumpTo::End(exits.breaks)),
        TStmt::Continue => jump(&mut out.nodes, exits.continues),
        TStmt::Empty
        | TStmt::Block(_, _)
        | TStmt::If(_, _, _)
        | TStmt::While(_, _)
        | TStmt::DoWhile(_, _)
        | TStmt::For(_, _, _, _, _)
        | TStmt::Switch(_, _, _) => Ok(()),
    }
}

/// A statement.
#[cycle(execute)]
fn statement<'x>(
    s: &Reading<'x>,
    exits: Exits<'_>,
    a: &'x TStmt,
    out: &mut Output,
) -> Result<(), Memory>
    requires room { CanLowerOne s.now exits.continues (tstmt a.now) out.old }
    ensures adds { OnOk result (AddsStatement s.now exits.entry (tstmt a.now) out.old out.new) }
{
    match a {
        TStmt::Block(made, body) => {
            let made = made.as_slice();
            block(s, exits, made, body.as_slice(), out)
        }
        TStmt::Empty
        | TStmt::Vars(_)
        | TStmt::Do(_)
        | TStmt::Return(_)
        | TStmt::Break
        | TStmt::Continue => simple(s, exits, a, out),
        TStmt::If(x, body, rest) => choice(s, exits, x, Branches(body, rest), out),
        TStmt::While(x, body) => while_loop(s, exits.gives, x, body, out),
        TStmt::DoWhile(body, x) => do_while_loop(s, exits.gives, body, x, out),
        TStmt::For(made, first, test, step, body) => {
            let made = made.as_slice();
            let head = ForHead(first, test.as_ref(), step.as_ref());
            let of = ForParts { made, head, body };
            for_loop(s, exits, of, out)
        }
        TStmt::Switch(value, made, arms) => {
            let made = made.as_slice();
            let arms = arms.as_slice();
            let of = SwitchParts { value, made, arms };
            switch(s, exits, of, out)
        }
    }
}

/// A statement behind nodes that come to stand inside of others.
#[cycle(execute)]
fn nested<'x>(
    s: &Reading<'x>,
    exits: Exits<'_>,
    a: &'x TStmt,
    begun: Nodes,
    out: &mut Output,
) -> Result<Nodes, Memory>
    requires room { CanLowerOne s.now exits.continues (tstmt a.now) out.old }
    ensures adds { IfOk result (λ r. AddsNested s.now exits.entry (tstmt a.now) (map node begun.items) r out.old out.new) }
{
    let before = mem::replace(&mut out.nodes, begun);
    let answer = statement(s, exits, a, out);
    let inside = mem::replace(&mut out.nodes, before);
    let (inside, _) = keeping(inside, answer)?;
    Ok(inside)
}

/// A statement, where there is one, as nodes that come to stand inside of others.
#[cycle(execute)]
fn nested_other<'x>(
    s: &Reading<'x>,
    exits: Exits<'_>,
    a: &'x Option<Box<TStmt>>,
    out: &mut Output,
) -> Result<Nodes, Memory>
    requires room { CanLower exits.continues (other_temps (other_of a.now))
        (other_sizes (shape_of s.now) (other_of a.now)) (maybe_statement_nodes (other_of a.now)) out.old }
    ensures adds { IfOk result (λ r. AddsInside out.old out.new r (λ n m. listing
        (low_other (shape_of s.now) (ctype exits.entry.gives.now) (other_of a.now) n m exits.entry.breaks (jump_of exits.entry.continues)))
        (other_temps (other_of a.now)) (other_sizes (shape_of s.now) (other_of a.now))) }
{
    match a {
        None => Ok(Vec::new(s.alloc)),
        Some(a) => nested(s, exits, a, Vec::new(s.alloc), out),
    }
}

/// A statement, where there is one.
#[cycle(execute)]
fn other<'x>(
    s: &Reading<'x>,
    exits: Exits<'_>,
    a: &'x Option<Box<TStmt>>,
    out: &mut Output,
) -> Result<(), Memory>
    requires room { CanLower exits.continues (other_temps (other_of a.now))
        (other_sizes (shape_of s.now) (other_of a.now)) (maybe_statement_nodes (other_of a.now)) out.old }
    ensures adds { OnOk result (Adds out.old out.new (λ n m.
        low_other (shape_of s.now) (ctype exits.entry.gives.now) (other_of a.now) n m exits.entry.breaks (jump_of exits.entry.continues))
        (other_temps (other_of a.now)) (other_sizes (shape_of s.now) (other_of a.now))) }
{
    match a {
        None => Ok(()),
        Some(a) => statement(s, exits, a, out),
    }
}

/// A block that makes these locals anew.
#[cycle(execute)]
fn block<'x>(
    s: &Reading<'x>,
    exits: Exits<'_>,
    made: &'x [u32],
    body: &'x [TStmt],
    out: &mut Output,
) -> Result<(), Memory>
    requires room { CanLowerOne s.now exits.continues (BlockZ made.now (tstmts (map tstmt body.now))) out.old }
    ensures adds { OnOk result (AddsStatement s.now exits.entry (BlockZ made.now (tstmts (map tstmt body.now))) out.old out.new) }
{
    make(&mut out.nodes, made)?;
    statements(s, exits, body, out)
}

/// A choice by a condition.
#[cycle(execute)]
fn choice<'x>(
    s: &Reading<'x>,
    exits: Exits<'_>,
    x: &'x TExpr,
    branches: Branches<'x>,
    out: &mut Output,
) -> Result<(), Memory>
    requires room { CanLowerOne s.now exits.continues (choice_of (texpr x.now) branches) out.old }
    ensures adds { OnOk result (AddsStatement s.now exits.entry (choice_of (texpr x.now) branches.entry) out.old out.new) }
{
    let t = out.next;
    condition(s, x, out)?;
    let Branches(first, second) = branches;
    let inside = nested(s, exits, first, Vec::new(s.alloc), out)?;
    let otherwise = nested_other(s, exits, second, out);
    let (inside, otherwise) = keeping(inside, otherwise)?;
    put_choice(&mut out.nodes, t, inside, otherwise)
}

/// A loop that begins with its condition.
#[cycle(execute)]
fn while_loop<'x>(
    s: &Reading<'x>,
    gives: &CType,
    x: &'x TExpr,
    body: &'x TStmt,
    out: &mut Output,
) -> Result<(), Memory>
    requires room { CanLowerOne s.now (JumpTo.Turn 0) (WhileZ (texpr x.now) (tstmt body.now)) out.old }
    ensures adds { OnOk result (Adds out.old out.new (λ n m.
        low_stmt (shape_of s.now) (ctype gives.now) (WhileZ (texpr x.now) (tstmt body.now)) n m 0 (ToEnd 0))
        (stmt_temps (WhileZ (texpr x.now) (tstmt body.now))) (stmt_sizes (shape_of s.now) (WhileZ (texpr x.now) (tstmt body.now)))) }
{
    let t = out.next;
    let turn = begin_turn(s, Some(x), out)?;
    let own = Exits {
        gives,
        breaks: 0,
        continues: JumpTo::Turn(0),
    };
    let inside = nested(s, own, body, Vec::new(s.alloc), out);
    let (turn, inside) = keeping(turn, inside)?;
    close_while(s.alloc, t, turn, inside, &mut out.nodes)
}

/// A loop that ends with its condition.
#[cycle(execute)]
fn do_while_loop<'x>(
    s: &Reading<'x>,
    gives: &CType,
    body: &'x TStmt,
    x: &'x TExpr,
    out: &mut Output,
) -> Result<(), Memory>
    requires room { CanLowerOne s.now (JumpTo.End 0) (DoWhileZ (tstmt body.now) (texpr x.now)) out.old }
    ensures adds { OnOk result (Adds out.old out.new (λ n m.
        low_stmt (shape_of s.now) (ctype gives.now) (DoWhileZ (tstmt body.now) (texpr x.now)) n m 0 (ToEnd 0))
        (stmt_temps (DoWhileZ (tstmt body.now) (texpr x.now))) (stmt_sizes (shape_of s.now) (DoWhileZ (tstmt body.now) (texpr x.now)))) }
{
    let own = Exits {
        gives,
        breaks: 1,
        continues: JumpTo::End(0),
    };
    let inside = nested(s, own, body, Vec::new(s.alloc), out)?;
    close_do_while(s, x, inside, out)
}

/// A `for`.
#[cycle(execute)]
fn for_loop<'x>(
    s: &Reading<'x>,
    exits: Exits<'_>,
    of: ForParts<'x>,
    out: &mut Output,
) -> Result<(), Memory>
    requires room { CanLowerOne s.now exits.continues (for_of of) out.old }
    ensures adds { OnOk result (AddsStatement s.now exits.entry (for_of of.entry) out.old out.new) }
{
    make(&mut out.nodes, of.made)?;
    let ForHead(first, test, step) = of.head;
    other(s, exits, first, out)?;
    let temporary = out.next;
    let condition = begin_turn(s, test, out)?;
    let own = Exits {
        gives: exits.gives,
        breaks: 1,
        continues: JumpTo::End(0),
    };
    let body = nested(s, own, of.body, Vec::new(s.alloc), out);
    let (condition, body) = keeping(condition, body)?;
    let turn = Turn {
        tests: test.is_some(),
        temporary,
        condition,
        body,
    };
    close_turn(s, turn, step, out)
}

/// The value of a switch, held against the labels of its arms; its temporary takes how many labels come before the one that is chosen.
fn begin_switch(s: &Reading<'_>, of: SwitchParts<'_>, out: &mut Output) -> Result<u32, Memory>
    requires room { HasRoom out.old (value_temps (texpr of.value.now) + 1) (value_sizes (shape_of s.now) (texpr of.value.now)) }
    requires few { length of.arms.now ≤ 1000000 }
    ensures adds { OnOk result (Adds out.old out.new (λ n m. low_value (shape_of s.now) (texpr of.entry.value.now) n (n + 1) m
        ▸ (BlockP (low_match n 0 (labels_before_default (tarms (map tarm of.entry.arms.now))) (tarms (map tarm of.entry.arms.now))) ▸ DoP (Op.Const one 1))
        ▸ made of.entry.made.now) (value_temps (texpr of.entry.value.now) + 1) (value_sizes (shape_of s.now) (texpr of.entry.value.now))) }
    ensures temporary { IfOk result (λ r. r ≡ out.old.next) }
{
    let t = out.take(1);
    value(s, of.value, t, out)?;
    put_tests(s.alloc, t, of.arms, &mut out.nodes)?;
    make(&mut out.nodes, of.made)?;
    Ok(t)
}

/// A switch.
#[cycle(execute)]
fn switch<'x>(
    s: &Reading<'x>,
    exits: Exits<'_>,
    of: SwitchParts<'x>,
    out: &mut Output,
) -> Result<(), Memory>
    requires room { CanLowerOne s.now exits.continues (switch_of of) out.old }
    ensures adds { OnOk result (AddsStatement s.now exits.entry (switch_of of.entry) out.old out.new) }
{
    let t = begin_switch(s, of, out)?;
    let own = Exits {
        gives: exits.gives,
        breaks: 0,
        continues: further(exits.continues),
    };
    let inside = labelled(s, own, t, of.arms, out)?;
    put_block(&mut out.nodes, inside)
}

/// Statements, one after the other.
#[cycle(execute)]
pub(crate) fn statements<'x>(
    s: &Reading<'x>,
    exits: Exits<'_>,
    body: &'x [TStmt],
    out: &mut Output,
) -> Result<(), Memory>
    requires room { CanLower exits.continues (stmts_temps (tstmts (map tstmt body.now)))
        (stmts_sizes (shape_of s.now) (tstmts (map tstmt body.now))) (statements_nodes (tstmts (map tstmt body.now))) out.old }
    ensures adds { OnOk result (Adds out.old out.new (λ n m. low_stmts (shape_of s.now) (ctype exits.entry.gives.now) (tstmts (map tstmt body.now))
        n m exits.entry.breaks (jump_of exits.entry.continues))
        (stmts_temps (tstmts (map tstmt body.now))) (stmts_sizes (shape_of s.now) (tstmts (map tstmt body.now)))) }
{
    for a in body {
        statement(s, exits, a, out)?;
    }
    Ok(())
}

/// The arms of a switch, one after the other; the word in t tells how many labels come before the one that is chosen.
#[cycle(execute)]
fn labelled<'x>(
    s: &Reading<'x>,
    exits: Exits<'_>,
    t: u32,
    arms: &'x [TArm],
    out: &mut Output,
) -> Result<Nodes, Memory>
    requires room { CanLower exits.continues (arms_temps (tarms (map tarm arms.now)))
        (arms_sizes (shape_of s.now) (tarms (map tarm arms.now))) (arms_nodes (tarms (map tarm arms.now))) out.old }
    ensures adds { IfOk result (λ r. AddsInside out.old out.new r (λ n m. listing
        (low_arms (shape_of s.now) (ctype exits.entry.gives.now) t (tarms (map tarm arms.now)) n m exits.entry.breaks (jump_of exits.entry.continues)))
        (arms_temps (tarms (map tarm arms.now))) (arms_sizes (shape_of s.now) (tarms (map tarm arms.now)))) }
{
    let mut nodes = Vec::new(s.alloc);
    let mut met = false;
    let mut inside = Vec::new(s.alloc);
    for arm in arms {
        match arm {
            TArm::Case(_) => {
                close_label(s.alloc, &mut nodes, met, t, inside)?;
                inside = Vec::new(s.alloc);
                met = true;
            }
            TArm::Default => {
                close_label(s.alloc, &mut nodes, met, t, inside)?;
                inside = Vec::new(s.alloc);
                met = true;
            }
            TArm::Stmt(a) => inside = nested(s, exits, a, inside, out)?,
        }
    }
    close_label(s.alloc, &mut nodes, met, t, inside)?;
    Ok(nodes)
}
