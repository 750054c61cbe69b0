// What is known at a point of temporaries and of results.
ghost use Rattle.std.specs.Prelude.{◌≡◌, IfOk, OnOk};
ghost use Rattle.mid_code.specs.Functions.{node};
ghost use Rattle.mid_fold.specs.inner.Reusing.{nothing_seen, operands_behind, results_behind, with_operand, with_result};
ghost use Rattle.mid_fold.specs.inner.Reusing.{made, behind_maybe, is_zero, step_found, address_of_local};
ghost use Rattle.mid_fold.specs.inner.ReusingListed.{seen, op_reused, op_seen, node_seen, or_move};

use crate::made::{Made, Maker, Results, forget_results, has_address, know_result, result_of};
use crate::operand::{Operand, Operands, forget_operands, know_operand, operand_in};
use kit_base::Memory;
use mid_code::{Node, Op};
use std::alloc::Global;

/// What temporaries have.
#[derive(Drop)]
pub(crate) struct Known {
    pub(crate) operands: Operands,
    pub(crate) results: Results,
}

pub(crate) fn nothing_known(alloc: Global) -> Known
    ensures { seen result ≡ nothing_seen }
{
    Known {
        operands: Vec::new(alloc),
        results: Vec::new(alloc),
    }
}

pub(crate) fn copy_known(alloc: Global, known: &Known) -> Result<Known, Memory>
    ensures { IfOk result (λ r. seen r ≡ seen known.now) }
{
    Ok(Known {
        operands: known.operands.as_slice().to_vec(alloc)?,
        results: known.results.as_slice().to_vec(alloc)?,
    })
}

pub(crate) fn clear_known(known: &mut Known)
    ensures { seen known.new ≡ nothing_seen }
{
    known.operands.clear();
    known.results.clear();
}

fn made(known: &Known, by: Maker, t: u32, a: u32, b: u32) -> Made
    ensures { result ≡ made known.now.operands.items by t a b }
{
    Made {
        target: t,
        by,
        first: operand_in(known.operands.as_slice(), a),
        second: operand_in(known.operands.as_slice(), b),
    }
}

fn is_zero(x: Operand) -> bool
    ensures { result ≡ is_zero x }
{
    match x {
        Operand::Word(word) => word == 0,
        Operand::Address(_) => false,
        Operand::Cell(_) => false,
    }
}

/// The temporary that has what a step makes: its pointer, where it is by 0.
fn step_found(known: &Known, t: u32, p: u32, n: u32) -> Option<u32>
    ensures { result ≡ step_found (seen known.now) t p n }
{
    let m = made(known, Maker::Step, t, p, n);
    let results = known.results.as_slice();
    if is_zero(m.second) && has_address(results, m.first) {
        Some(p)
    } else {
        result_of(results, m)
    }
}

/// The address of a local.
fn address_of_local(t: u32) -> Made
    ensures { result ≡ address_of_local t }
{
    Made {
        target: t,
        by: Maker::Local,
        first: Operand::Word(0),
        second: Operand::Word(0),
    }
}

fn put_move(t: u32, o: &mut Op<u32>, q: Option<u32>)
    ensures { o.new ≡ or_move t o.old q }
{
    if let Some(q) = q {
        *o = Op::Move(t, q);
    }
}

/// Puts in the place of an operator or a step the move of a temporary that has its result.
pub(crate) fn reuse_op(known: &Known, o: &mut Op<u32>)
    ensures { o.new ≡ op_reused (seen known.now) o.old }
{
    match o {
        Op::Two(by, t, a, b) => {
            let t = *t;
            let m = made(known, Maker::Operator(*by), t, *a, *b);
            let found = result_of(known.results.as_slice(), m);
            put_move(t, o, found);
        }
        Op::Step(t, p, n) => {
            let t = *t;
            let found = step_found(known, t, *p, *n);
            put_move(t, o, found);
        }
        _ => {}
    }
}

fn forget(known: &mut Known, t: Option<u32>)
    ensures { seen known.new ≡ behind_maybe (seen known.old) t }
{
    if let Some(t) = t {
        forget_operands(&mut known.operands, t);
        forget_results(&mut known.results, t);
    }
}

fn know_as(known: &mut Known, t: u32, x: Operand) -> Result<(), Memory>
    ensures { OnOk result (seen known.new ≡ (with_operand (operands_behind known.old.operands.items t) t x, results_behind known.old.results.items t)) }
{
    forget_operands(&mut known.operands, t);
    know_operand(&mut known.operands, t, x)?;
    forget_results(&mut known.results, t);
    Ok(())
}

fn know_made(known: &mut Known, m: Made) -> Result<(), Memory>
    ensures { OnOk result (seen known.new
        ≡ (operands_behind known.old.operands.items m.target, with_result (results_behind known.old.results.items m.target) m)) }
{
    forget_operands(&mut known.operands, m.target);
    forget_results(&mut known.results, m.target);
    know_result(&mut known.results, m)
}

fn see_op(known: &mut Known, o: &Op<u32>) -> Result<(), Memory>
    ensures { OnOk result (seen known.new ≡ op_seen (seen known.old) o.now) }
{
    match o {
        Op::Const(t, word) => know_as(known, *t, Operand::Word(*word)),
        Op::Global(t, number) => know_as(known, *t, Operand::Address(*number)),
        Op::Move(t, a) => {
            let x = operand_in(known.operands.as_slice(), *a);
            know_as(known, *t, x)
        }
        Op::Two(by, t, a, b) => {
            let m = made(known, Maker::Operator(*by), *t, *a, *b);
            know_made(known, m)
        }
        Op::Step(t, p, n) => {
            let m = made(known, Maker::Step, *t, *p, *n);
            know_made(known, m)
        }
        Op::Local(t, _) => know_made(known, address_of_local(*t)),
        Op::Call(_, _, _) => {
            clear_known(known);
            Ok(())
        }
        _ => {
            forget(known, o.target());
            Ok(())
        }
    }
}

/// Makes it what is known behind a node.
pub(crate) fn see_node(known: &mut Known, n: &Node<u32>) -> Result<(), Memory>
    ensures { OnOk result (seen known.new ≡ node_seen (seen known.old) (node n.now)) }
{
    match n {
        Node::Do(o) => see_op(known, o)?,
        Node::Choose(_, _, _) => clear_known(known),
        Node::Block(_) => clear_known(known),
        Node::Loop(_) => clear_known(known),
        Node::Leave(_) => clear_known(known),
        Node::Again(_) => clear_known(known),
        Node::Return(_) => clear_known(known),
    }
    Ok(())
}
