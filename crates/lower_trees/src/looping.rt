// Parts of loops, switches and returns.
ghost use Rattle.std.specs.Prelude.{◌≡◌, ◌≤◌, ◌+◌, ◌++◌, ◌∷◌, [], length, map, if◌then◌else◌, IfOk, OnOk};
ghost use Rattle.c_types.specs.View.{ctype, texpr, tarm, tarms};
ghost use Rattle.mid_code.specs.Functions.{DoN, BlockN, LoopN, ChooseN, LeaveN, AgainN, listed, node};
ghost use Rattle.lower_trees.specs.Counts.{maybe_temps, maybe_sizes, value_temps, value_sizes};
ghost use Rattle.lower_trees.specs.Pieces.{◌▸◌, DoP, BlockP, LeaveP, ReturnP, listing};
ghost use Rattle.lower_trees.specs.Parts.{converted, one};
ghost use Rattle.lower_trees.specs.Expressions.{second, low_value, low_test};
ghost use Rattle.lower_trees.specs.Statements.{further, labels_before_default, depth, jump, tested_first, low_dropped, low_match, returned};
ghost use Rattle.lower_trees.specs.inner.Adding.{Adds, AddsCode, AddsNodes, AddsInside, HasRoom};
ghost use Rattle.lower_trees.specs.inner.Enclosed.{chosen_by, turn_of, low_label};
ghost use Rattle.lower_trees.specs.inner.MaybeStatements.{maybe_texpr};
ghost use Rattle.lower_trees.specs.Flags.{is_flag};
ghost use Rattle.lower_trees.specs.View.{shape_of, jump_of};

use crate::cells::{ONE, OTHER, RESULT_AT, add, alone, copy_between, put, put_choice, put_loop};
use crate::expressions::{test, value};
use crate::jump::JumpTo;
use crate::kinds::is_flag;
use crate::operating::convert;
use crate::output::{Nodes, Output};
use crate::reading::Reading;
use c_exprs::keeping;
use c_types::{CType, TArm, TExpr, is_structure};
use kit_base::{Memory, Seq};
use mid_code::{Node, Op};
use std::alloc::Global;
use std::mem;
use v32_isa::Two;

/// The same, with one enclosing part more.
pub(crate) fn further(j: JumpTo) -> JumpTo
    requires { depth (jump_of j) ≤ 1000000 }
    ensures { jump_of result ≡ further (jump_of j) }
{
    match j {
        JumpTo::End(k) => JumpTo::End(k + 1),
        JumpTo::Turn(k) => JumpTo::Turn(k + 1),
    }
}

/// Goes to the end of an enclosing part, or to its next turn.
pub(crate) fn jump(nodes: &mut Nodes, j: JumpTo) -> Result<(), Memory>
    ensures { OnOk result (AddsCode nodes.old nodes.new (jump (jump_of j))) }
{
    match j {
        JumpTo::End(k) => add(nodes, Node::Leave(k)),
        JumpTo::Turn(k) => add(nodes, Node::Again(k)),
    }
}

/// Returns the word in a temporary, or nothing.
pub(crate) fn put_return(nodes: &mut Nodes, p: Option<u32>) -> Result<(), Memory>
    ensures { OnOk result (AddsCode nodes.old nodes.new (ReturnP p)) }
{
    add(nodes, Node::Return(p))
}

/// Adds a block of nodes.
pub(crate) fn put_block(nodes: &mut Nodes, inside: Nodes) -> Result<(), Memory>
    ensures { OnOk result (map node nodes.new.items ≡ map node nodes.old.items ++ BlockN (listed (map node inside.items)) ∷ []) }
{
    add(nodes, Node::Block(Seq::from_vec(inside)))
}

/// Computes a condition into the first free temporary.
pub(crate) fn condition(s: &Reading<'_>, x: &TExpr, out: &mut Output) -> Result<(), Memory>
    requires room { HasRoom out.old (value_temps (texpr x.now) + 1) (value_sizes (shape_of s.now) (texpr x.now)) }
    ensures adds { OnOk result (Adds out.old out.new (λ n m. low_test (shape_of s.now) (texpr x.now) n (n + 1) m)
        (value_temps (texpr x.now) + 1) (value_sizes (shape_of s.now) (texpr x.now))) }
    ensures next { OnOk result (out.new.next ≡ second (texpr x.now) out.old.next) }
{
    let t = out.take(1);
    test(s, x, t, out)
}

/// Computes the condition of a turn, where there is one, into the first free temporary.
fn test_first(s: &Reading<'_>, test: Option<&TExpr>, out: &mut Output) -> Result<(), Memory>
    requires room { HasRoom out.old (maybe_temps (maybe_texpr test)) (maybe_sizes (shape_of s.now) (maybe_texpr test)) }
    ensures adds { OnOk result (Adds out.old out.new (tested_first (shape_of s.now) (maybe_texpr test.entry))
        (maybe_temps (maybe_texpr test.entry)) (maybe_sizes (shape_of s.now) (maybe_texpr test.entry))) }
{
    match test {
        None => Ok(()),
        Some(x) => condition(s, x, out),
    }
}

/// A turn that begins with its condition, where there is one.
pub(crate) fn begin_turn(
    s: &Reading<'_>,
    test: Option<&TExpr>,
    out: &mut Output,
) -> Result<Nodes, Memory>
    requires room { HasRoom out.old (maybe_temps (maybe_texpr test)) (maybe_sizes (shape_of s.now) (maybe_texpr test)) }
    ensures adds { IfOk result (λ r. AddsInside out.old out.new r (λ n m. listing (tested_first (shape_of s.now) (maybe_texpr test.entry) n m))
        (maybe_temps (maybe_texpr test.entry)) (maybe_sizes (shape_of s.now) (maybe_texpr test.entry))) }
{
    let before = mem::replace(&mut out.nodes, Vec::new(s.alloc));
    let answer = test_first(s, test, out);
    let turn = mem::replace(&mut out.nodes, before);
    let (turn, _) = keeping(turn, answer)?;
    Ok(turn)
}

/// Computes the value of a step, where there is one, into the first free temporary, and drops it.
fn drop_value(s: &Reading<'_>, step: Option<&TExpr>, out: &mut Output) -> Result<(), Memory>
    requires room { HasRoom out.old (maybe_temps (maybe_texpr step)) (maybe_sizes (shape_of s.now) (maybe_texpr step)) }
    ensures adds { OnOk result (Adds out.old out.new (low_dropped (shape_of s.now) (maybe_texpr step.entry))
        (maybe_temps (maybe_texpr step.entry)) (maybe_sizes (shape_of s.now) (maybe_texpr step.entry))) }
{
    match step {
        None => Ok(()),
        Some(x) => {
            let t = out.take(1);
            value(s, x, t, out)
        }
    }
}

/// A turn that goes on with the next one.
fn with_next(turn: Nodes) -> Result<Nodes, Memory>
    ensures { IfOk result (λ r. map node r.items ≡ map node turn.items ++ AgainN 0 ∷ []) }
{
    let mut turn = turn;
    let answer = add(&mut turn, Node::Again(0));
    let (turn, _) = keeping(turn, answer)?;
    Ok(turn)
}

/// Adds a loop whose turns go on while the word in t holds; the condition stands in `turn` and the body in `inside`.
pub(crate) fn close_while(
    alloc: Global,
    t: u32,
    turn: Nodes,
    inside: Nodes,
    nodes: &mut Nodes,
) -> Result<(), Memory>
    ensures { OnOk result (map node nodes.new.items ≡ map node nodes.old.items
        ++ LoopN (listed (map node turn.items ++ ChooseN t (listed (map node inside.items ++ AgainN 0 ∷ [])) (listed []) ∷ [])) ∷ []) }
{
    let (turn, inside) = keeping(turn, with_next(inside))?;
    let mut turn = turn;
    put_choice(&mut turn, t, inside, Vec::new(alloc))?;
    put_loop(nodes, turn)
}

/// Adds the nodes in `inside` and then the condition, as a turn that goes on while it holds.
fn put_turn(s: &Reading<'_>, x: &TExpr, inside: Nodes, out: &mut Output) -> Result<(), Memory>
    requires room { HasRoom out.old (value_temps (texpr x.now) + 1) (value_sizes (shape_of s.now) (texpr x.now)) }
    ensures adds { OnOk result (AddsNodes out.old out.new (λ n m. (BlockN (listed (map node inside.items)) ∷ [])
        ++ listing (low_test (shape_of s.now) (texpr x.now) n (n + 1) m) ++ (ChooseN n (listed (AgainN 0 ∷ [])) (listed []) ∷ []))
        (value_temps (texpr x.now) + 1) (value_sizes (shape_of s.now) (texpr x.now))) }
{
    put_block(&mut out.nodes, inside)?;
    let t = out.next;
    condition(s, x, out)?;
    let again = with_next(Vec::new(s.alloc))?;
    put_choice(&mut out.nodes, t, again, Vec::new(s.alloc))
}

/// Adds a loop whose turns are the nodes in `inside` and then the condition.
pub(crate) fn close_do_while(
    s: &Reading<'_>,
    x: &TExpr,
    inside: Nodes,
    out: &mut Output,
) -> Result<(), Memory>
    requires room { HasRoom out.old (value_temps (texpr x.now) + 1) (value_sizes (shape_of s.now) (texpr x.now)) }
    ensures adds { OnOk result (AddsNodes out.old out.new (λ n m. LoopN (listed ((BlockN (listed (map node inside.items)) ∷ [])
        ++ listing (low_test (shape_of s.now) (texpr x.now) n (n + 1) m) ++ (ChooseN n (listed (AgainN 0 ∷ [])) (listed []) ∷ []))) ∷ [])
        (value_temps (texpr x.now) + 1) (value_sizes (shape_of s.now) (texpr x.now))) }
{
    let before = mem::replace(&mut out.nodes, Vec::new(s.alloc));
    let answer = put_turn(s, x, inside, out);
    let turn = mem::replace(&mut out.nodes, before);
    let (turn, _) = keeping(turn, answer)?;
    put_loop(&mut out.nodes, turn)
}

/// A turn of a `for`: whether it has a condition, the temporary and the nodes of that, and the nodes of the body.
#[derive(Drop)]
pub(crate) struct Turn {
    pub(crate) tests: bool,
    pub(crate) temporary: u32,
    pub(crate) condition: Nodes,
    pub(crate) body: Nodes,
}

/// Adds the body and the step of a turn, which goes on with the next one.
fn put_rest(
    s: &Reading<'_>,
    body: Nodes,
    step: Option<&TExpr>,
    out: &mut Output,
) -> Result<(), Memory>
    requires room { HasRoom out.old (maybe_temps (maybe_texpr step)) (maybe_sizes (shape_of s.now) (maybe_texpr step)) }
    ensures adds { OnOk result (AddsNodes out.old out.new
        (λ n m. turn_of (map node body.items) (listing (low_dropped (shape_of s.now) (maybe_texpr step.entry) n m)))
        (maybe_temps (maybe_texpr step.entry)) (maybe_sizes (shape_of s.now) (maybe_texpr step.entry))) }
{
    put_block(&mut out.nodes, body)?;
    drop_value(s, step, out)?;
    add(&mut out.nodes, Node::Again(0))
}

/// A turn that ends with its body and then the step.
fn end_turn(
    s: &Reading<'_>,
    turn: Nodes,
    body: Nodes,
    step: Option<&TExpr>,
    out: &mut Output,
) -> Result<Nodes, Memory>
    requires room { HasRoom out.old (maybe_temps (maybe_texpr step)) (maybe_sizes (shape_of s.now) (maybe_texpr step)) }
    ensures adds { IfOk result (λ r. AddsInside out.old out.new r (λ n m. map node turn.items
        ++ turn_of (map node body.items) (listing (low_dropped (shape_of s.now) (maybe_texpr step.entry) n m)))
        (maybe_temps (maybe_texpr step.entry)) (maybe_sizes (shape_of s.now) (maybe_texpr step.entry))) }
{
    let before = mem::replace(&mut out.nodes, turn);
    let answer = put_rest(s, body, step, out);
    let turn = mem::replace(&mut out.nodes, before);
    let (turn, _) = keeping(turn, answer)?;
    Ok(turn)
}

/// Adds a loop of such turns, each of which ends with this step.
pub(crate) fn close_turn(
    s: &Reading<'_>,
    turn: Turn,
    step: Option<&TExpr>,
    out: &mut Output,
) -> Result<(), Memory>
    requires room { HasRoom out.old (maybe_temps (maybe_texpr step)) (maybe_sizes (shape_of s.now) (maybe_texpr step)) }
    ensures adds { OnOk result (AddsNodes out.old out.new (λ n m. LoopN (listed (map node turn.condition.items ++ chosen_by turn.tests turn.temporary
        (turn_of (map node turn.body.items) (listing (low_dropped (shape_of s.now) (maybe_texpr step.entry) n m))))) ∷ [])
        (maybe_temps (maybe_texpr step.entry)) (maybe_sizes (shape_of s.now) (maybe_texpr step.entry))) }
{
    let Turn {
        tests,
        temporary,
        condition,
        body,
    } = turn;
    if tests {
        let rest = end_turn(s, Vec::new(s.alloc), body, step, out);
        let (condition, rest) = keeping(condition, rest)?;
        let mut turn = condition;
        put_choice(&mut turn, temporary, rest, Vec::new(s.alloc))?;
        put_loop(&mut out.nodes, turn)
    } else {
        let turn = end_turn(s, condition, body, step, out)?;
        put_loop(&mut out.nodes, turn)
    }
}

/// The labels before `default`, else all.
fn labels_before_default(arms: &[TArm]) -> u32
    requires { length arms.now ≤ 1000000 }
    ensures { result ≡ labels_before_default (tarms (map tarm arms.now)) }
{
    let mut count = 0;
    'arms: for arm in arms {
        match arm {
            TArm::Case(_) => count += 1,
            TArm::Default => return count,
            TArm::Stmt(_) => {}
        }
    }
    count
}

/// A label was found that comes behind i others.
fn leave_with(nodes: &mut Nodes, t: u32, i: u32) -> Result<(), Memory>
    ensures { OnOk result (AddsCode nodes.old nodes.new (DoP (Op.Const t i) ▸ LeaveP 0)) }
{
    put(nodes, Op::Const(t, i))?;
    add(nodes, Node::Leave(0))
}

/// The word in t is equal to a label, which comes behind i others.
fn match_label(alloc: Global, nodes: &mut Nodes, t: u32, i: u32, label: u32) -> Result<(), Memory>
    ensures { OnOk result (map node nodes.new.items ≡ map node nodes.old.items
        ++ (DoN (Op.Const OTHER label) ∷ DoN (Op.Two Two.IEQ OTHER t OTHER) ∷ ChooseN OTHER (listed (DoN (Op.Const t i) ∷ LeaveN 0 ∷ [])) (listed []) ∷ [])) }
{
    put(nodes, Op::Const(OTHER, label))?;
    put(nodes, Op::Two(Two::IEQ, OTHER, t, OTHER))?;
    let mut found = Vec::new(alloc);
    let answer = leave_with(&mut found, t, i);
    let (found, _) = keeping(found, answer)?;
    put_choice(nodes, OTHER, found, Vec::new(alloc))
}

/// The word in t is held against the labels of the arms; t takes how many labels come before the one that is chosen.
fn match_arms(alloc: Global, nodes: &mut Nodes, t: u32, arms: &[TArm]) -> Result<(), Memory>
    requires { length arms.now ≤ 1000000 }
    ensures { OnOk result (AddsCode nodes.old nodes.new
        (low_match t 0 (labels_before_default (tarms (map tarm arms.now))) (tarms (map tarm arms.now)))) }
{
    let before = labels_before_default(arms);
    let mut i = 0;
    'arms: for arm in arms {
        match arm {
            TArm::Case(label) => {
                match_label(alloc, nodes, t, i, *label)?;
                i += 1;
            }
            TArm::Default => i += 1,
            TArm::Stmt(_) => {}
        }
    }
    put(nodes, Op::Const(t, before))
}

/// Adds the tests of a switch, whose value stands in t, and the 1 that its arms count down by.
pub(crate) fn put_tests(
    alloc: Global,
    t: u32,
    arms: &[TArm],
    nodes: &mut Nodes,
) -> Result<(), Memory>
    requires { length arms.now ≤ 1000000 }
    ensures { OnOk result (AddsCode nodes.old nodes.new
        (BlockP (low_match t 0 (labels_before_default (tarms (map tarm arms.now))) (tarms (map tarm arms.now))) ▸ DoP (Op.Const one 1))) }
{
    let mut tests = Vec::new(alloc);
    let answer = match_arms(alloc, &mut tests, t, arms);
    let (tests, _) = keeping(tests, answer)?;
    put_block(nodes, tests)?;
    put(nodes, Op::Const(ONE, 1))
}

/// The statements after a label, where one was met, are passed over until the chosen label.
pub(crate) fn close_label(
    alloc: Global,
    nodes: &mut Nodes,
    met: bool,
    t: u32,
    inside: Nodes,
) -> Result<(), Memory>
    ensures { OnOk result (map node nodes.new.items ≡ map node nodes.old.items ++ (if met then low_label t (map node inside.items) else [])) }
{
    if met {
        let passed = alone(alloc, Op::Two(Two::ISUB, t, t, ONE));
        let (inside, passed) = keeping(inside, passed)?;
        return put_choice(nodes, t, passed, inside);
    }
    Ok(())
}

/// Returns the value in t.
fn give_back(s: &Reading<'_>, nodes: &mut Nodes, ty: &CType, t: u32) -> Result<(), Memory>
    ensures { OnOk result (AddsCode nodes.old nodes.new (returned (shape_of s.now) (ctype ty.now) t)) }
{
    if is_structure(ty) {
        copy_between(s.alloc, nodes, s.words(ty), t, RESULT_AT)?;
        put_return(nodes, None)
    } else {
        put_return(nodes, Some(t))
    }
}

/// Returns the value of an expression.
pub(crate) fn return_value(
    s: &Reading<'_>,
    gives: &CType,
    x: &TExpr,
    out: &mut Output,
) -> Result<(), Memory>
    requires room { HasRoom out.old (value_temps (texpr x.now) + 1) (value_sizes (shape_of s.now) (texpr x.now)) }
    ensures adds { OnOk result (Adds out.old out.new (λ n m. low_value (shape_of s.now) (texpr x.now) n (n + 1) m
        ▸ converted (ctype gives.now) (is_flag (texpr x.now)) n ▸ returned (shape_of s.now) (ctype gives.now) n)
        (value_temps (texpr x.now) + 1) (value_sizes (shape_of s.now) (texpr x.now))) }
{
    let t = out.take(1);
    value(s, x, t, out)?;
    convert(&mut out.nodes, gives, is_flag(x), t)?;
    give_back(s, &mut out.nodes, gives, t)
}
