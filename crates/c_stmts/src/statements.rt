// The typing of statements.
ghost use Rattle.std.specs.Prelude.{◌≡◌, ◌+◌, ◌≤◌, ◌^◌, ℕ, length, [], List, Some, false, map, IfOk, OnErr, Err};
ghost use Rattle.c_tree.specs.Count.{vars_nodes, stmt_nodes, maybe_nodes, stmts_nodes, arm_nodes, arms_nodes};
ghost use Rattle.c_tree.specs.View.{expr, var, stmt, stmts, arm, arms};
ghost use Rattle.c_tree.specs.Tree.{DoS, DoWhileS, ReturnS, VarsS, WhileS};
ghost use Rattle.c_types.specs.Typed.{TStmtTs};
ghost use Rattle.c_types.specs.View.{tarm, tarms, tstmt, tstmts};
ghost use Rattle.kit_base.specs.declared.failure.Failure.TheVariants.{Cause};
ghost use Rattle.c_exprs.specs.declared.error.Fault.{Fault};
ghost use Rattle.kit_base.specs.Gives.{Gives};
ghost use Rattle.c_stmts.specs.State.{St, no_labels, with_label};
ghost use Rattle.c_stmts.specs.View.{st, fn_of, reached, labels, maybe_s, maybe_z};
ghost use Rattle.c_stmts.specs.StatementTyping as typing;
ghost use Rattle.c_stmts.specs.StatementTypes.{Statements};
ghost use Rattle.c_stmts.specs.StatementBreaks.{NotStatements};

use crate::building::{
    block_made, do_while_made, for_made, if_made, jump_made, label_at, switch_made, while_made,
};
use crate::labels::{Labels, add_case, add_default, no_labels};
use crate::state::{State, kept_state};
use crate::variables::{all_declared, maybe_value, value_in};
use c_exprs::{CheckErr, Globals, demanded, keeping, span_of};
use c_rules::{Code, converts};
use c_tree::{Arm, Expr, Span, Stmt, Var};
use c_types::{CType, TArm, TStmt};
use kit_base::Seq;
use std::alloc::Global;

/// Whether `break` and `continue` may stand.
#[derive(Clone, Copy)]
struct Jumps {
    breaks: bool,
    continues: bool,
}

const NEITHER: Jumps = Jumps {
    breaks: false,
    continues: false,
};

const BOTH: Jumps = Jumps {
    breaks: true,
    continues: true,
};

/// A declaration of variables.
fn vars_of(
    alloc: Global,
    globals: &Globals,
    state: &mut State,
    gives: &CType,
    vars: &[Var],
    span: Span,
) -> Result<TStmt, CheckErr>
    requires room { length (st state.old).sizes + vars_nodes (map var vars.now) ≤ 2 ^ 32 }
    ensures { Gives (λ r. (tstmt r, st state.new)) result
        (typing.statement (fn_of globals.now gives.now) (st state.old) false false (VarsS (map var vars.now) span)) }
{
    let vars = all_declared(alloc, globals, state, gives, vars)?;
    Ok(TStmt::Vars(Seq::from_vec(vars)))
}

/// An expression that is a statement.
fn do_of(
    alloc: Global,
    globals: &Globals,
    state: &mut State,
    gives: &CType,
    e: &Expr,
) -> Result<TStmt, CheckErr>
    ensures { Gives (λ r. (tstmt r, st state.new)) result (typing.statement (fn_of globals.now gives.now) (st state.old) false false (DoS (expr e.now))) }
{
    let x = value_in(alloc, globals, state, gives, e)?;
    Ok(TStmt::Do(x))
}

/// A `return` with a value.
fn return_of(
    alloc: Global,
    globals: &Globals,
    state: &mut State,
    gives: &CType,
    e: &Expr,
    span: Span,
) -> Result<TStmt, CheckErr>
    ensures { Gives (λ r. (tstmt r, st state.new)) result
        (typing.statement (fn_of globals.now gives.now) (st state.old) false false (ReturnS (Some (expr e.now)) span)) }
{
    let x = value_in(alloc, globals, state, gives, e)?;
    let holds = demanded(span, Code::WrongType, converts(&x.ty, gives));
    let (x, _) = keeping(x, holds)?;
    Ok(TStmt::Return(Some(x)))
}

/// The typed tree of a statement.
#[cycle(statements)]
fn stmt_of(
    alloc: Global,
    globals: &Globals,
    state: &mut State,
    s: &Stmt,
    gives: &CType,
    jumps: Jumps,
) -> Result<TStmt, CheckErr>
    requires room { length (st state.old).sizes + stmt_nodes (stmt s.now) ≤ 2 ^ 32 }
    ensures { Gives (λ r. (tstmt r, st state.new)) result
        (typing.statement (fn_of globals.now gives.now) (st state.old) jumps.breaks jumps.continues (stmt s.now)) }
{
    match s {
        Stmt::Block(body, _) => {
            state.open(alloc)?;
            let body = stmts_of(alloc, globals, state, body.as_slice(), gives, jumps)?;
            Ok(block_made(alloc, state, body)?)
        }
        Stmt::Empty(_) => Ok(TStmt::Empty),
        Stmt::Vars(vars, span) => { vars_of(alloc, globals, state, gives, vars.as_slice(), *span) }
        Stmt::Do(e) => do_of(alloc, globals, state, gives, e),
        Stmt::If(e, a, b, span) => {
            let x = value_in(alloc, globals, state, gives, e)?;
            let y = stmt_of(alloc, globals, state, a, gives, jumps);
            let (x, y) = keeping(x, y)?;
            let z = maybe_of(alloc, globals, state, b, gives, jumps);
            let ((x, y), z) = keeping((x, y), z)?;
            Ok(if_made(alloc, *span, x, y, z)?)
        }
        Stmt::While(e, a, span) => while_of(alloc, globals, state, e, a, gives, *span),
        Stmt::DoWhile(a, e, span) => do_while_of(alloc, globals, state, a, e, gives, *span),
        Stmt::For(first, test, step, a, span) => {
            state.open(alloc)?;
            let x = maybe_of(alloc, globals, state, first, gives, jumps)?;
            let y = maybe_value(alloc, globals, state, gives, test);
            let (x, y) = keeping(x, y)?;
            let z = maybe_value(alloc, globals, state, gives, step);
            let ((x, y), z) = keeping((x, y), z)?;
            let w = stmt_of(alloc, globals, state, a, gives, BOTH);
            let ((x, y, z), w) = keeping((x, y, z), w)?;
            Ok(for_made(alloc, state, *span, x, y, z, w)?)
        }
        Stmt::Switch(e, all, span) => {
            let x = value_in(alloc, globals, state, gives, e)?;
            let (x, _) = keeping(x, state.open(alloc))?;
            let all = all.as_slice();
            let inside = Jumps {
                breaks: true,
                continues: jumps.continues,
            };
            let xs = arms_of(alloc, globals, state, all, gives, inside);
            let (x, xs) = keeping(x, xs)?;
            Ok(switch_made(alloc, state, *span, x, xs)?)
        }
        Stmt::Return(Some(e), span) => return_of(alloc, globals, state, gives, e, *span),
        Stmt::Return(None, _) => Ok(TStmt::Return(None)),
        Stmt::Break(span) => Ok(jump_made(*span, jumps.breaks, TStmt::Break)?),
        Stmt::Continue(span) => Ok(jump_made(*span, jumps.continues, TStmt::Continue)?),
    }
}

/// A `while` loop.
#[cycle(statements)]
fn while_of(
    alloc: Global,
    globals: &Globals,
    state: &mut State,
    e: &Expr,
    a: &Stmt,
    gives: &CType,
    span: Span,
) -> Result<TStmt, CheckErr>
    requires room { length (st state.old).sizes + stmt_nodes (WhileS (expr e.now) (stmt a.now) span) ≤ 2 ^ 32 }
    ensures { Gives (λ r. (tstmt r, st state.new)) result
        (typing.statement (fn_of globals.now gives.now) (st state.old) false false (WhileS (expr e.now) (stmt a.now) span)) }
{
    let x = value_in(alloc, globals, state, gives, e)?;
    let y = stmt_of(alloc, globals, state, a, gives, BOTH);
    let (x, y) = keeping(x, y)?;
    Ok(while_made(alloc, span, x, y)?)
}

/// A `do` loop.
#[cycle(statements)]
fn do_while_of(
    alloc: Global,
    globals: &Globals,
    state: &mut State,
    a: &Stmt,
    e: &Expr,
    gives: &CType,
    span: Span,
) -> Result<TStmt, CheckErr>
    requires room { length (st state.old).sizes + stmt_nodes (DoWhileS (stmt a.now) (expr e.now) span) ≤ 2 ^ 32 }
    ensures { Gives (λ r. (tstmt r, st state.new)) result
        (typing.statement (fn_of globals.now gives.now) (st state.old) false false (DoWhileS (stmt a.now) (expr e.now) span)) }
{
    let y = stmt_of(alloc, globals, state, a, gives, BOTH)?;
    let x = value_in(alloc, globals, state, gives, e);
    let (y, x) = keeping(y, x)?;
    Ok(do_while_made(alloc, span, y, x)?)
}

/// A statement that may be missing.
#[cycle(statements)]
fn maybe_of(
    alloc: Global,
    globals: &Globals,
    state: &mut State,
    s: &Option<Box<Stmt>>,
    gives: &CType,
    jumps: Jumps,
) -> Result<Option<TStmt>, CheckErr>
    requires room { length (st state.old).sizes + maybe_nodes (maybe_s s.now) ≤ 2 ^ 32 }
    ensures { Gives (λ r. (maybe_z r, st state.new)) result
        (typing.maybe_statement (fn_of globals.now gives.now) (st state.old) jumps.breaks jumps.continues (maybe_s s.now)) }
{
    match s {
        Some(s) => {
            let x = stmt_of(alloc, globals, state, s, gives, jumps)?;
            Ok(Some(x))
        }
        None => Ok(None),
    }
}

#[cycle(statements)]
fn stmts_of(
    alloc: Global,
    globals: &Globals,
    state: &mut State,
    all: &[Stmt],
    gives: &CType,
    jumps: Jumps,
) -> Result<Vec<TStmt>, CheckErr>
    requires room { length (st state.old).sizes + stmts_nodes (stmts (map stmt all.now)) ≤ 2 ^ 32 }
    ensures { Gives (λ r. (tstmts (map tstmt r.items), st state.new)) result
        (typing.statements (fn_of globals.now gives.now) (st state.old) jumps.breaks jumps.continues (stmts (map stmt all.now))) }
{
    let mut found = Vec::new(alloc);
    for s in all {
        let x = stmt_of(alloc, globals, state, s, gives, jumps)?;
        found.push(x)?;
    }
    Ok(found)
}

/// The typed tree of an arm of a switch, behind the labels so far, to which it adds its own.
#[cycle(statements)]
fn arm_of(
    alloc: Global,
    globals: &Globals,
    state: &mut State,
    a: &Arm,
    gives: &CType,
    jumps: Jumps,
    seen: &mut Labels,
) -> Result<TArm, CheckErr>
    requires room { length (st state.old).sizes + arm_nodes (arm a.now) ≤ 2 ^ 32 }
    ensures gives { Gives (λ r. (tarm r, st state.new)) result
        (typing.arm (fn_of globals.now gives.now) (st state.old) jumps.breaks jumps.continues (labels seen.old) (arm a.now)) }
    ensures labels { IfOk result (λ r. labels seen.new ≡ with_label (labels seen.old) (tarm r)) }
{
    match a {
        Arm::Case(e, span) => {
            let x = value_in(alloc, globals, state, gives, e)?;
            let k = label_at(span_of(e), x)?;
            add_case(seen, *span, k)?;
            Ok(TArm::Case(k))
        }
        Arm::Default(span) => {
            add_default(seen, *span)?;
            Ok(TArm::Default)
        }
        Arm::Stmt(s) => {
            let x = stmt_of(alloc, globals, state, s, gives, jumps)?;
            Ok(TArm::Stmt(x))
        }
    }
}

#[cycle(statements)]
fn arms_of(
    alloc: Global,
    globals: &Globals,
    state: &mut State,
    all: &[Arm],
    gives: &CType,
    jumps: Jumps,
) -> Result<Vec<TArm>, CheckErr>
    requires room { length (st state.old).sizes + arms_nodes (arms (map arm all.now)) ≤ 2 ^ 32 }
    ensures { Gives (λ r. (tarms (map tarm r.items), st state.new)) result
        (typing.arms (fn_of globals.now gives.now) (st state.old) jumps.breaks jumps.continues no_labels (arms (map arm all.now))) }
{
    let mut seen = no_labels(alloc);
    let mut found = Vec::new(alloc);
    for a in all {
        let x = arm_of(alloc, globals, state, a, gives, jumps, &mut seen)?;
        found.push(x)?;
    }
    Ok(found)
}

/// The typed trees of the statements of a function's body, whose result is of the type `gives`. Scopes, objects and texts are
/// added to those of the state; after a refusal it has none. The objects of the state and the nodes of the body are at most 2^32 together.
pub fn type_statements(
    alloc: Global,
    globals: &Globals,
    state: &mut State,
    body: &[Stmt],
    gives: &CType,
) -> Result<Vec<TStmt>, CheckErr>
    requires room { length (st state.old).sizes + stmts_nodes (stmts (map stmt body.now)) ≤ 2 ^ 32 }
    ensures gives { Gives (λ r. (tstmts (map tstmt r.items), st state.new)) result
        (typing.statements (fn_of globals.now gives.now) (st state.old) false false (stmts (map stmt body.now))) }
    // What is answered is typed so by the rules.
    ensures types { IfOk result (λ r. Statements (fn_of globals.now gives.now) (st state.old) false false (stmts (map stmt body.now))
        (tstmts (map tstmt r.items)) (st state.new)) }
    // What the rules type is answered, unless memory runs out.
    ensures only { (x : TStmtTs) (sq : St) → Statements (fn_of globals.now gives.now) (st state.old) false false (stmts (map stmt body.now)) x sq
        → Gives (λ r. (tstmts (map tstmt r.items), st state.new)) result (reached x sq) }
    // A refusal names the first broken rule.
    ensures first { (f : Fault) → result ≡ Err (Cause f)
        → NotStatements (fn_of globals.now gives.now) (st state.old) false false (stmts (map stmt body.now)) f }
    // After a refusal nothing is left of the state: the unit is read no further.
    ensures refused { OnErr result (st state.new ≡ record { scopes = []; sizes = []; used = 0; texts = [] }) }
{
    let answer = stmts_of(alloc, globals, state, body, gives, NEITHER);
    kept_state(alloc, state, answer)
}
