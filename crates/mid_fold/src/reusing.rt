// Nodes whose results are used again.
ghost use Rattle.std.specs.Prelude.{◌≡◌, OnOk, map};
ghost use Rattle.mid_code.specs.Functions.{listed, node};
ghost use Rattle.mid_fold.specs.inner.Reusing.{nothing_seen};
ghost use Rattle.mid_fold.specs.inner.ReusingListed.{seen, list_reused, node_reused, node_seen};

use crate::seen::{Known, clear_known, copy_known, reuse_op, see_node};
use kit_base::{Memory, Seq};
use mid_code::Node;
use std::alloc::Global;
use std::mem;

/// Puts in the place of a node the one that stands for it. What was known before it is gone, unless it is an operation.
#[cycle(reuse)]
fn reuse_node(alloc: Global, known: &mut Known, n: &mut Node<u32>) -> Result<(), Memory>
    ensures node { OnOk result (node n.new ≡ node_reused (seen known.old) (node n.old)) }
    ensures known { OnOk result (node_seen (seen known.new) (node n.new) ≡ node_seen (seen known.old) (node n.new)) }
{
    match n {
        Node::Do(o) => {
            reuse_op(known, o);
            Ok(())
        }
        Node::Choose(_, a, b) => {
            let mut first = copy_known(alloc, known)?;
            reuse_inside(alloc, &mut first, a)?;
            reuse_inside(alloc, known, b)
        }
        Node::Block(b) => reuse_inside(alloc, known, b),
        Node::Loop(b) => {
            clear_known(known);
            reuse_inside(alloc, known, b)
        }
        Node::Leave(_) => Ok(()),
        Node::Again(_) => Ok(()),
        Node::Return(_) => Ok(()),
    }
}

/// Puts in the place of nodes those that stand for them, where this is known before them.
#[cycle(reuse)]
fn reuse_nodes(alloc: Global, known: &mut Known, ns: &mut [Node<u32>]) -> Result<(), Memory>
    ensures { OnOk result (map node ns.new ≡ list_reused (seen known.old) (listed (map node ns.old))) }
{
    for i in 0..ns.len() {
        reuse_node(alloc, known, &mut ns[i])?;
        see_node(known, &ns[i])?;
    }
    Ok(())
}

/// The same of nodes inside of a node.
#[cycle(reuse)]
pub(crate) fn reuse_inside(
    alloc: Global,
    known: &mut Known,
    b: &mut Seq<Node<u32>>,
) -> Result<(), Memory>
    ensures { OnOk result (map node b.new ≡ list_reused (seen known.old) (listed (map node b.old))) }
{
    let mut ns = mem::replace(b, Seq::from_vec(Vec::new(alloc))).into_vec();
    reuse_nodes(alloc, known, &mut ns)?;
    *b = Seq::from_vec(ns);
    Ok(())
}
