// Nodes whose words are known.
ghost use Rattle.std.specs.Prelude.{◌≡◌, [], OnOk, map};
ghost use Rattle.mid_code.specs.Functions.{listed, node};
ghost use Rattle.mid_fold.specs.inner.Listed.{list_folded, node_folded, node_known};

use crate::folding::fold_op;
use crate::known::{Words, know_node};
use kit_base::{Memory, Seq};
use mid_code::Node;
use std::alloc::Global;
use std::mem;

/// Puts in the place of a node the one that stands for it. What was known before it is gone, unless it is an operation.
#[cycle(fold)]
fn fold_node(alloc: Global, words: &mut Words, n: &mut Node<u32>) -> Result<(), Memory>
    ensures node { OnOk result (node n.new ≡ node_folded words.old.items (node n.old)) }
    ensures known { OnOk result (node_known words.new.items (node n.new) ≡ node_known words.old.items (node n.new)) }
{
    match n {
        Node::Do(o) => {
            fold_op(words.as_slice(), o);
            Ok(())
        }
        Node::Choose(_, a, b) => {
            let mut first = words.as_slice().to_vec(alloc)?;
            fold_inside(alloc, &mut first, a)?;
            fold_inside(alloc, words, b)
        }
        Node::Block(b) => fold_inside(alloc, words, b),
        Node::Loop(b) => {
            words.clear();
            fold_inside(alloc, words, b)
        }
        Node::Leave(_) => Ok(()),
        Node::Again(_) => Ok(()),
        Node::Return(_) => Ok(()),
    }
}

/// Puts in the place of nodes those that stand for them, where some words are known before them.
#[cycle(fold)]
fn fold_nodes(alloc: Global, words: &mut Words, ns: &mut [Node<u32>]) -> Result<(), Memory>
    ensures { OnOk result (map node ns.new ≡ list_folded words.old.items (listed (map node ns.old))) }
{
    for i in 0..ns.len() {
        fold_node(alloc, words, &mut ns[i])?;
        know_node(words, &ns[i])?;
    }
    Ok(())
}

/// The same of nodes inside of a node.
#[cycle(fold)]
pub(crate) fn fold_inside(
    alloc: Global,
    words: &mut Words,
    b: &mut Seq<Node<u32>>,
) -> Result<(), Memory>
    ensures { OnOk result (map node b.new ≡ list_folded words.old.items (listed (map node b.old))) }
{
    let mut ns = mem::replace(b, Seq::from_vec(Vec::new(alloc))).into_vec();
    fold_nodes(alloc, words, &mut ns)?;
    *b = Seq::from_vec(ns);
    Ok(())
}
