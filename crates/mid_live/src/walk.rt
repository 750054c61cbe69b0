// What is live before nodes, found by a walk from their end.
ghost use Rattle.std.specs.Prelude.{◌≡◌, ◌∷◌, ℕ, suc, ◌+◌, ◌<◌, length, IfOk, IfSome, OnOk, map, false};
ghost use Rattle.mid_code.specs.Code.{Stop, Choose};
ghost use Rattle.mid_code.specs.Functions.{LoopN, AgainN, NoN, MoreN, node, nodes, before, listed};
ghost use Rattle.mid_code.specs.Live.{label, is_live};
ghost use Rattle.mid_live.specs.Sets.{on, room};
ghost use Rattle.mid_live.specs.Labels.{labels_of};
ghost use Rattle.mid_live.specs.Heads.{node_loops, list_loops, NodeTold, ListTold};

use crate::heads::{Head, one_further, pass_loop, told_each};
use crate::labels::{Labels, at_begin, at_end, join_begin};
use crate::live::{Kept, Live};
use crate::operations::{at_return, before_op};
use kit_base::Memory;
use mid_code::Node;
use std::alloc::Global;

/// Where nodes are but one that begins anew what is around them: how far out that is.
fn only_again(ns: &[Node<u32>]) -> Option<u32>
    ensures { IfSome result (λ k. listed (map node ns.now) ≡ MoreN (AgainN k) NoN) }
{
    match ns {
        [Node::Again(k)] => Some(*k),
        _ => None,
    }
}

#[cycle(walk)]
#[tactic(auto, using(crate::proofs::Facts::or_none, crate::proofs::Named::told_inside))]
fn before_node(
    alloc: Global,
    n: &Node<u32>,
    m: &Labels,
    s: &mut Live,
    heads: &[Head],
    next: usize,
) -> Result<usize, Memory>
    requires told { NodeTold (length s.old) heads.now next (node n.now) }
    ensures len { OnOk result (length s.new ≡ length s.old) }
    ensures next { IfOk result (λ k. k ≡ node_loops (node n.now) + next) }
    ensures is { OnOk result ((y : ℕ) → y < room s.old → on s.new y ≡ is_live y (labels_of y m.now) (before (node n.now) Stop) (on s.old y)) }
{
    match n {
        Node::Do(o) => {
            before_op(o, m, s);
            Ok(next)
        }
        Node::Choose(p, a, b) => {
            let Some(_) = b.as_slice().split_first() else {
                return before_one_way(alloc, *p, a.as_slice(), m, s, heads, next);
            };
            let behind = s.kept(alloc)?;
            let between = before_nodes(alloc, b.as_slice(), &*m, s, heads, next)?;
            let other = s.kept(alloc)?;
            s.restore(&behind);
            let after = before_nodes(alloc, a.as_slice(), &*m, s, heads, between)?;
            s.join(&other);
            s.put(*p as usize);
            Ok(after)
        }
        Node::Block(b) => {
            let ends = s.kept(alloc)?;
            let begins = Kept::none(alloc);
            let around = Labels::Inside(&begins, &ends, &*m);
            before_nodes(alloc, b.as_slice(), &around, s, heads, next)
        }
        Node::Loop(b) => {
            if let Some(behind) = pass_loop(b.as_slice(), s, heads, next)? {
                return Ok(behind);
            }
            let first = one_further(next)?;
            let ends = s.kept(alloc)?;
            let begins = Kept::none(alloc);
            let around = Labels::Inside(&begins, &ends, &*m);
            before_nodes(alloc, b.as_slice(), &around, s, heads, first)
        }
        Node::Leave(k) => {
            at_end(m, *k, s);
            Ok(next)
        }
        Node::Again(k) => {
            at_begin(m, *k, s);
            Ok(next)
        }
        Node::Return(p) => {
            at_return(p, s);
            Ok(next)
        }
    }
}

/// The same at a choice of one way. A way that only begins anew what is around it takes no copy of the set.
#[cycle(walk)]
fn before_one_way(
    alloc: Global,
    p: u32,
    a: &[Node<u32>],
    m: &Labels,
    s: &mut Live,
    heads: &[Head],
    next: usize,
) -> Result<usize, Memory>
    requires told { ListTold (length s.old) heads.now next (listed (map node a.now)) }
    ensures len { OnOk result (length s.new ≡ length s.old) }
    ensures next { IfOk result (λ k. k ≡ list_loops (listed (map node a.now)) + next) }
    ensures is { OnOk result ((y : ℕ) → y < room s.old → on s.new y ≡ is_live y (labels_of y m.now) (Choose p (nodes a.now) Stop Stop) (on s.old y)) }
{
    if let Some(k) = only_again(a) {
        join_begin(m, k, s);
        s.put(p as usize);
        return Ok(next);
    }
    let behind = s.kept(alloc)?;
    let after = before_nodes(alloc, a, &*m, s, heads, next)?;
    s.join(&behind);
    s.put(p as usize);
    Ok(after)
}

/// What is live before the nodes, from what is live after them.
#[cycle(walk)]
pub(crate) fn before_nodes(
    alloc: Global,
    ns: &[Node<u32>],
    m: &Labels,
    s: &mut Live,
    heads: &[Head],
    next: usize,
) -> Result<usize, Memory>
    requires told { ListTold (length s.old) heads.now next (listed (map node ns.now)) }
    ensures len { OnOk result (length s.new ≡ length s.old) }
    ensures next { IfOk result (λ k. k ≡ list_loops (listed (map node ns.now)) + next) }
    ensures is { OnOk result ((y : ℕ) → y < room s.old → on s.new y ≡ is_live y (labels_of y m.now) (nodes ns.now) (on s.old y)) }
{
    let mut after = next;
    let mut i = ns.len();
    while i > 0 {
        i -= 1;
        told_each(ns, i, s, heads, next, after);
        after = before_node(alloc, &ns[i], &*m, s, heads, after)?;
    }
    Ok(after)
}

/// Makes the set what is live at the head of a loop.
fn to_head(
    alloc: Global,
    b: &[Node<u32>],
    m: &Labels,
    s: &mut Live,
    ends: &Kept,
    heads: &[Head],
    at: usize,
) -> Result<(), Memory>
    requires behind { ends.now ≡ s.old }
    requires told { NodeTold (length s.old) heads.now at (LoopN (listed (map node b.now))) }
    ensures len { OnOk result (length s.new ≡ length s.old) }
    ensures is { OnOk result ((y : ℕ) → y < room s.old → on s.new y ≡ is_live y (label false (on s.old y) ∷ labels_of y m.now) (nodes b.now) (on s.old y)) }
{
    if let Some(_) = pass_loop(b, s, heads, at)? {
        return Ok(());
    }
    let first = one_further(at)?;
    let begins = Kept::none(alloc);
    before_nodes(
        alloc,
        b,
        &Labels::Inside(&begins, ends, &*m),
        s,
        heads,
        first,
    )?;
    Ok(())
}

/// What is live at the head of a loop with the body `b`, of which the set, and `ends`, is what is live behind it. The number goes on from the loop to those
/// inside it. Where the loop is not known, its body is walked. The error is want of memory.
pub fn head_of(
    alloc: Global,
    b: &[Node<u32>],
    m: &Labels,
    s: &mut Live,
    ends: &Kept,
    heads: &[Head],
    next: &mut usize,
) -> Result<Kept, Memory>
    requires behind { ends.now ≡ s.old }
    requires told { NodeTold (length s.old) heads.now next.old (LoopN (listed (map node b.now))) }
    ensures next { OnOk result (next.new ≡ suc next.old) }
    ensures kept { OnOk result (s.new ≡ s.old) }
    ensures head_len { IfOk result (λ v. length v ≡ length s.old) }
    ensures is { IfOk result (λ v. (y : ℕ) → y < room s.old → on v y ≡ is_live y (label false (on s.old y) ∷ labels_of y m.now) (nodes b.now) (on s.old y)) }
{
    to_head(alloc, b, m, s, ends, heads, *next)?;
    *next = one_further(*next)?;
    let head = s.kept(alloc)?;
    s.restore(ends);
    Ok(head)
}
