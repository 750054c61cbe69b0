// Loops that ask for one more turn where a temporary is not 0, and do nothing else.
ghost use Rattle.std.specs.Prelude.{◌≡◌, IfOk, map};
ghost use Rattle.mid_code.specs.Functions.{node, listed, LoopN};
ghost use Rattle.mid_replace.specs.inner.Replaced.{turns_once, asks_by};
ghost use Rattle.mid_replace.specs.inner.Loops.{is_nothing, is_again_node, is_again, is_zero, is_zero_op, asks_node, asking};

use crate::slices::next;
use kit_base::{Memory, Seq};
use mid_code::{Node, Op};
use std::alloc::Global;

fn is_nothing(ns: &[Node<u32>]) -> bool
    ensures { result ≡ is_nothing (listed (map node ns.now)) }
{
    match next(ns) {
        Some((_, _)) => false,
        None => true,
    }
}

fn is_again_node(n: &Node<u32>) -> bool
    ensures { result ≡ is_again_node (node n.now) }
{
    match n {
        Node::Do(_) => false,
        Node::Choose(_, _, _) => false,
        Node::Block(_) => false,
        Node::Loop(_) => false,
        Node::Leave(_) => false,
        Node::Again(k) => *k == 0,
        Node::Return(_) => false,
    }
}

/// Whether that is one more turn of the loop around it.
fn is_again(ns: &[Node<u32>]) -> bool
    ensures { result ≡ is_again (listed (map node ns.now)) }
{
    match next(ns) {
        Some((n, after)) => is_again_node(n) && is_nothing(after),
        None => false,
    }
}

fn is_zero_op(o: &Op<u32>, t: u32) -> bool
    ensures { result ≡ is_zero_op o.now t }
{
    match o {
        Op::Const(u, n) => *u == t && *n == 0,
        _ => false,
    }
}

/// Whether that puts 0 in the temporary.
fn is_zero(n: &Node<u32>, t: u32) -> bool
    ensures { result ≡ is_zero (node n.now) t }
{
    match n {
        Node::Do(o) => is_zero_op(o, t),
        Node::Choose(_, _, _) => false,
        Node::Block(_) => false,
        Node::Loop(_) => false,
        Node::Leave(_) => false,
        Node::Again(_) => false,
        Node::Return(_) => false,
    }
}

#[tactic(auto, using(crate::proofs::Asks::turns_is))]
fn turns_once(ns: &[Node<u32>], t: u32) -> bool
    ensures { result ≡ turns_once (listed (map node ns.now)) t }
{
    match next(ns) {
        Some((n, after)) => is_zero(n, t) && is_again(after),
        None => false,
    }
}

fn asks_node(n: &Node<u32>) -> Option<u32>
    ensures { result ≡ asks_node (node n.now) }
{
    match n {
        Node::Do(_) => None,
        Node::Choose(t, a, b) => {
            let asks = is_nothing(b.as_slice()) && turns_once(a.as_slice(), *t);
            if asks { Some(*t) } else { None }
        }
        Node::Block(_) => None,
        Node::Loop(_) => None,
        Node::Leave(_) => None,
        Node::Again(_) => None,
        Node::Return(_) => None,
    }
}

/// The temporary that the loop with this body asks, where it does nothing else.
#[tactic(auto, using(crate::proofs::Asks::asks_is))]
pub(crate) fn asks(ns: &[Node<u32>]) -> Option<u32>
    ensures { result ≡ asks_by (listed (map node ns.now)) }
{
    match next(ns) {
        Some((n, after)) => if is_nothing(after) {
            asks_node(n)
        } else {
            None
        },
        None => None,
    }
}

/// Such a loop.
pub(crate) fn asking_loop(alloc: Global, t: u32) -> Result<Node<u32>, Memory>
    ensures { IfOk result (λ r. node r ≡ LoopN (asking t)) }
{
    let mut turn = Vec::new(alloc);
    turn.push(Node::Do(Op::Const(t, 0)))?;
    turn.push(Node::Again(0))?;
    let mut body = Vec::new(alloc);
    body.push(Node::Choose(t, Seq::from_vec(turn), Seq::from_vec(Vec::new(alloc))))?;
    Ok(Node::Loop(Seq::from_vec(body)))
}
