// What nodes name.
ghost use Rattle.std.specs.Prelude.{◌≡◌, ℕ, ◌+◌, ◌<◌, ◌||◌, IfOk, OnOk, length, map};
ghost use Rattle.mid_code.specs.Code.{Stop, maybe};
ghost use Rattle.mid_code.specs.Functions.{LoopN, op_before, node, nodes, before, listed};
ghost use Rattle.mid_code.specs.Live.{is_among, is_target};
ghost use Rattle.mid_live.specs.Sets.{on, room};
ghost use Rattle.mid_live.specs.Heads.{named, node_loops, list_loops, NodeTold, ListTold};
ghost use Rattle.mid_live.specs.inner.Loops.{NamesPut};

use crate::heads::{Head, further, one_further, told_each};
use crate::live::Live;
use crate::operations::put_uses;
use kit_base::Memory;
use mid_code::{Node, Op};

/// Puts the temporary in, where there is one.
fn put_maybe(s: &mut Live, t: Option<u32>)
    ensures len { length s.new ≡ length s.old }
    ensures is { (y : ℕ) → y < room s.old → on s.new y ≡ (is_among (maybe t) y || on s.old y) }
{
    if let Some(t) = t {
        s.put(t as usize);
    }
}

fn put_target(s: &mut Live, o: &Op<u32>)
    ensures len { length s.new ≡ length s.old }
    ensures is { (y : ℕ) → y < room s.old → on s.new y ≡ (is_target (op_before o.now Stop) y || on s.old y) }
{
    put_maybe(s, o.target());
}

#[tactic(auto, using(crate::proofs::Named::op_turn))]
fn name_op(s: &mut Live, o: &Op<u32>)
    ensures len { length s.new ≡ length s.old }
    ensures is { (y : ℕ) → y < room s.old → on s.new y ≡ (named (op_before o.now Stop) y || on s.old y) }
{
    put_target(s, o);
    put_uses(s, o);
}

/// Where the loop is known, puts in what it names. The answer is the number behind its loops.
fn name_loop(
    b: &[Node<u32>],
    s: &mut Live,
    heads: &[Head],
    at: usize,
) -> Result<Option<usize>, Memory>
    requires told { NodeTold (length s.old) heads.now at (LoopN (listed (map node b.now))) }
    ensures len { OnOk result (length s.new ≡ length s.old) }
    ensures put { IfOk result (λ o. NamesPut at (listed (map node b.now)) s.old s.new o) }
{
    let Head::Known(known) = &heads[at] else {
        return Ok(None);
    };
    s.join(&known.names);
    let first = one_further(at)?;
    let behind = further(first, known.inside)?;
    Ok(Some(behind))
}

/// Puts in what a node names. The loops from one on are told of, and the answer is the number behind those inside.
#[cycle(names)]
#[tactic(auto, using(crate::proofs::Facts::or_none, crate::proofs::Named::told_inside))]
fn name_node(n: &Node<u32>, s: &mut Live, heads: &[Head], next: usize) -> Result<usize, Memory>
    requires told { NodeTold (length s.old) heads.now next (node n.now) }
    ensures len { OnOk result (length s.new ≡ length s.old) }
    ensures next { IfOk result (λ k. k ≡ node_loops (node n.now) + next) }
    ensures is { OnOk result ((y : ℕ) → y < room s.old → on s.new y ≡ (named (before (node n.now) Stop) y || on s.old y)) }
{
    match n {
        Node::Do(o) => {
            name_op(s, o);
            Ok(next)
        }
        Node::Choose(p, a, b) => {
            let between = name_nodes(b.as_slice(), s, heads, next)?;
            let after = name_nodes(a.as_slice(), s, heads, between)?;
            s.put(*p as usize);
            Ok(after)
        }
        Node::Block(b) => name_nodes(b.as_slice(), s, heads, next),
        Node::Loop(b) => {
            if let Some(behind) = name_loop(b.as_slice(), s, heads, next)? {
                return Ok(behind);
            }
            let first = one_further(next)?;
            name_nodes(b.as_slice(), s, heads, first)
        }
        Node::Leave(_) => Ok(next),
        Node::Again(_) => Ok(next),
        Node::Return(p) => {
            if let Some(p) = p {
                s.put(*p as usize);
            }
            Ok(next)
        }
    }
}

/// The same for nodes.
#[cycle(names)]
pub(crate) fn name_nodes(
    ns: &[Node<u32>],
    s: &mut Live,
    heads: &[Head],
    next: usize,
) -> Result<usize, Memory>
    requires told { ListTold (length s.old) heads.now next (listed (map node ns.now)) }
    ensures len { OnOk result (length s.new ≡ length s.old) }
    ensures next { IfOk result (λ k. k ≡ list_loops (listed (map node ns.now)) + next) }
    ensures is { OnOk result ((y : ℕ) → y < room s.old → on s.new y ≡ (named (nodes ns.now) y || on s.old y)) }
{
    let mut after = next;
    let mut i = ns.len();
    while i > 0 {
        i -= 1;
        told_each(ns, i, s, heads, next, after);
        after = name_node(&ns[i], s, heads, after)?;
    }
    Ok(after)
}
