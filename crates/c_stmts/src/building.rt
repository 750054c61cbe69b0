// Typed statements made from their parts, which come to lie in boxes: first the rule of the statement, then its tree.
ghost use Rattle.std.specs.Prelude.{◌≡◌, map, option_map, IfOk, OnOk};
ghost use Rattle.c_types.specs.Typed.{BlockZ, IfZ, WhileZ, DoWhileZ, ForZ, SwitchZ};
ghost use Rattle.c_types.specs.View.{texpr, tarm, tarms, tstmt, tstmts};
ghost use Rattle.c_rules.specs.Kinds.{is_number};
ghost use Rattle.c_rules.specs.declared.code.Code.TheVariants.{BreakOutside, NotConstant, WrongType};
ghost use Rattle.c_exprs.specs.Faults.{demanded, known};
ghost use Rattle.kit_base.specs.Gives.{Gives};
ghost use Rattle.c_exprs.specs.Nodes.{constant, type_of_typed};
ghost use Rattle.c_stmts.specs.State.{left, made, is_condition_of, is_test};
ghost use Rattle.c_stmts.specs.View.{st, maybe_box, maybe_z};

use crate::state::State;
use c_exprs::{CheckErr, constant, demanded, keeping, known};
use c_rules::{Code, is_condition, is_number};
use c_tree::Span;
use c_types::{TArm, TExpr, TStmt};
use kit_base::{Memory, Seq};
use std::alloc::Global;

/// A statement in a box, where there is one. The error is want of memory.
fn maybe_boxed(alloc: Global, s: Option<TStmt>) -> Result<Option<Box<TStmt>>, Memory>
    ensures { IfOk result (λ r. maybe_box r ≡ maybe_z s) }
{
    match s {
        Some(s) => Ok(Some(Box::new(alloc, s)?)),
        None => Ok(None),
    }
}

/// `for`, with the numbers of the objects of its scope. The error is want of memory.
#[tactic(auto, using(crate::proofs::Built::built))]
fn for_(
    alloc: Global,
    made: Vec<u32>,
    first: Option<TStmt>,
    test: Option<TExpr>,
    step: Option<TExpr>,
    body: TStmt,
) -> Result<TStmt, Memory>
    ensures { IfOk result (λ r. tstmt r ≡ ForZ made.items (maybe_z first) (option_map texpr test) (option_map texpr step) (tstmt body)) }
{
    let rest = (made, test, step, body);
    let ((made, test, step, body), first) = keeping(rest, maybe_boxed(alloc, first))?;
    let rest = (made, first, test, step);
    let ((made, first, test, step), body) = keeping(rest, Box::new(alloc, body))?;
    Ok(TStmt::For(Seq::from_vec(made), first, test, step, body))
}

/// Whether a condition that may be missing can be tested; a missing one holds.
fn is_test(test: &Option<TExpr>) -> bool
    ensures { result ≡ is_test (option_map texpr test.now) }
{
    match test {
        Some(x) => is_condition(&x.ty),
        None => true,
    }
}

/// A block whose statements are typed; its scope is closed. The error is want of memory.
pub(crate) fn block_made(
    alloc: Global,
    state: &mut State,
    body: Vec<TStmt>,
) -> Result<TStmt, Memory>
    ensures tree { IfOk result (λ r. tstmt r ≡ BlockZ (made (st state.old)) (tstmts (map tstmt body.items))) }
    ensures left { OnOk result (st state.new ≡ left (st state.old)) }
{
    let (body, made) = keeping(body, state.close(alloc))?;
    Ok(TStmt::Block(Seq::from_vec(made), Seq::from_vec(body)))
}

/// A condition that can be tested, at a node of this span, and what stands beside it.
fn tested<T: Drop>(span: Span, test: TExpr, beside: T) -> Result<(TExpr, T), CheckErr>
    ensures rule { Gives (λ r. tt) result (demanded span WrongType (is_condition_of (texpr test))) }
    ensures same { IfOk result (λ r. (r.0 ≡ test) × (r.1 ≡ beside)) }
{
    let holds = demanded(span, Code::WrongType, is_condition(&test.ty));
    let ((test, beside), _) = keeping((test, beside), holds)?;
    Ok((test, beside))
}

/// `if`, with or without `else`.
#[tactic(auto, using(crate::proofs::Built::built))]
pub(crate) fn if_made(
    alloc: Global,
    span: Span,
    test: TExpr,
    then: TStmt,
    other: Option<TStmt>,
) -> Result<TStmt, CheckErr>
    ensures rule { Gives (λ r. tt) result (demanded span WrongType (is_condition_of (texpr test))) }
    ensures tree { IfOk result (λ r. tstmt r ≡ IfZ (texpr test) (tstmt then) (maybe_z other)) }
{
    let (test, (then, other)) = tested(span, test, (then, other))?;
    let ((test, then), other) = keeping((test, then), maybe_boxed(alloc, other))?;
    let ((test, other), then) = keeping((test, other), Box::new(alloc, then))?;
    Ok(TStmt::If(test, then, other))
}

/// `while`.
pub(crate) fn while_made(
    alloc: Global,
    span: Span,
    test: TExpr,
    body: TStmt,
) -> Result<TStmt, CheckErr>
    ensures rule { Gives (λ r. tt) result (demanded span WrongType (is_condition_of (texpr test))) }
    ensures tree { IfOk result (λ r. tstmt r ≡ WhileZ (texpr test) (tstmt body)) }
{
    let (test, body) = tested(span, test, body)?;
    let (test, body) = keeping(test, Box::new(alloc, body))?;
    Ok(TStmt::While(test, body))
}

/// `do` with its `while`.
pub(crate) fn do_while_made(
    alloc: Global,
    span: Span,
    body: TStmt,
    test: TExpr,
) -> Result<TStmt, CheckErr>
    ensures rule { Gives (λ r. tt) result (demanded span WrongType (is_condition_of (texpr test))) }
    ensures tree { IfOk result (λ r. tstmt r ≡ DoWhileZ (tstmt body) (texpr test)) }
{
    let (test, body) = tested(span, test, body)?;
    let (test, body) = keeping(test, Box::new(alloc, body))?;
    Ok(TStmt::DoWhile(body, test))
}

/// A `for` whose parts are typed; its scope is closed.
pub(crate) fn for_made(
    alloc: Global,
    state: &mut State,
    span: Span,
    first: Option<TStmt>,
    test: Option<TExpr>,
    step: Option<TExpr>,
    body: TStmt,
) -> Result<TStmt, CheckErr>
    ensures rule { Gives (λ r. tt) result (demanded span WrongType (is_test (option_map texpr test))) }
    ensures tree { IfOk result (λ r. tstmt r ≡ ForZ (made (st state.old)) (maybe_z first) (option_map texpr test) (option_map texpr step) (tstmt body)) }
    ensures left { OnOk result (st state.new ≡ left (st state.old)) }
{
    let holds = demanded(span, Code::WrongType, is_test(&test));
    let (parts, _) = keeping((first, test, step, body), holds)?;
    let ((first, test, step, body), made) = keeping(parts, state.close(alloc))?;
    Ok(for_(alloc, made, first, test, step, body)?)
}

/// A `switch` whose value and arms are typed; its scope is closed.
pub(crate) fn switch_made(
    alloc: Global,
    state: &mut State,
    span: Span,
    on: TExpr,
    arms: Vec<TArm>,
) -> Result<TStmt, CheckErr>
    ensures rule { Gives (λ r. tt) result (demanded span WrongType (is_number (type_of_typed (texpr on)))) }
    ensures tree { IfOk result (λ r. tstmt r ≡ SwitchZ (texpr on) (made (st state.old)) (tarms (map tarm arms.items))) }
    ensures left { OnOk result (st state.new ≡ left (st state.old)) }
{
    let holds = demanded(span, Code::WrongType, is_number(&on.ty));
    let (parts, _) = keeping((on, arms), holds)?;
    let ((on, arms), made) = keeping(parts, state.close(alloc))?;
    Ok(TStmt::Switch(on, Seq::from_vec(made), Seq::from_vec(arms)))
}

/// A `break` or `continue`, where it may stand, at a node of this span.
pub(crate) fn jump_made(span: Span, stands: bool, jump: TStmt) -> Result<TStmt, CheckErr>
    ensures rule { Gives (λ r. tt) result (demanded span BreakOutside stands) }
    ensures tree { IfOk result (λ r. r ≡ jump) }
{
    let holds = demanded(span, Code::BreakOutside, stands);
    let (jump, _) = keeping(jump, holds)?;
    Ok(jump)
}

/// The number of a label whose value is at a node of this span.
pub(crate) fn label_at(span: Span, x: TExpr) -> Result<u32, CheckErr>
    ensures { Gives (λ k. k) result (known span NotConstant (constant (texpr x))) }
{
    known(span, Code::NotConstant, constant(&x))
}
