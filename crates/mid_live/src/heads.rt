// What is known of loops.
ghost use Rattle.std.specs.Prelude.{◌≡◌, ℕ, suc, ◌+◌, ◌<◌, IfOk, OnOk, false, length, map, slice_set, take, drop, get_or};
ghost use Rattle.mid_code.specs.Functions.{LoopN, node, listed};
ghost use Rattle.mid_code.specs.declared.node.Node.{Node};
ghost use Rattle.mid_live.specs.Heads.{list_loops, NodeTold, ListTold};
ghost use Rattle.mid_live.specs.inner.Loops.{Passed};
ghost use Rattle.mid_live.specs.declared.heads.Head.{Head};

use crate::live::{Kept, Live};
use kit_base::Memory;
use mid_code::Node;

/// What is known of a loop: how many stand inside it, what it names, and that what is live at its head is what it needs, and what is live behind it and
/// not gone.
#[derive(Drop)]
pub struct Known {
    pub(crate) inside: usize,
    pub(crate) names: Kept,
    pub(crate) gone: Kept,
    pub(crate) needs: Kept,
}

/// What is told of a loop: only how many stand inside it, or what is known of it, which lies in a box, so that a table of many loops is small. A slice of
/// them is told of the loops of nodes, the last loop first, each before those inside it.
#[derive(Drop)]
pub enum Head {
    Unknown(usize),
    Known(Box<Known>),
}

/// The number behind one, and behind so many.
pub(crate) fn one_further(k: usize) -> Result<usize, Memory>
    ensures { IfOk result (λ m. m ≡ suc k) }
{
    if k == usize::MAX {
        Err(Memory)
    } else {
        Ok(k + 1)
    }
}

pub(crate) fn further(k: usize, n: usize) -> Result<usize, Memory>
    ensures { IfOk result (λ m. m ≡ n + k) }
{
    if n > usize::MAX - k {
        Err(Memory)
    } else {
        Ok(n + k)
    }
}

/// Where the loop is known, makes the set, of what is live behind it, what is live at its head. The answer is the number behind its loops.
pub(crate) fn pass_loop(
    b: &[Node<u32>],
    s: &mut Live,
    heads: &[Head],
    at: usize,
) -> Result<Option<usize>, Memory>
    requires told { NodeTold (length s.old) heads.now at (LoopN (listed (map node b.now))) }
    ensures len { OnOk result (length s.new ≡ length s.old) }
    ensures passed { IfOk result (λ o. Passed at (listed (map node b.now)) s.old s.new o) }
{
    let Head::Known(known) = &heads[at] else {
        return Ok(None);
    };
    s.leave(&known.gone);
    s.join(&known.needs);
    let first = one_further(at)?;
    let behind = further(first, known.inside)?;
    Ok(Some(behind))
}

/// Where the entries from `next` on tell of the loops of nodes, those from `after` on tell of the loops of the i-th one: `after` is `next` and as many as
/// the nodes behind that one have loops. It does nothing.
pub fn told_each(ns: &[Node<u32>], i: usize, s: &Live, heads: &[Head], next: usize, after: usize)
    requires told { (w : ℕ) → w ≡ length s.now → ListTold w heads.now next (listed (map node ns.now)) }
    requires after { after ≡ list_loops (listed (map node (drop (suc i) ns.now))) + next }
    requires inside { i < length ns.now }
    ensures { (x : Node ℕ) → x ≡ get_or ns.now i x → NodeTold (length s.now) heads.now after (node x) }
{}

/// A loop more, of which nothing is known.
pub(crate) fn push_unknown(heads: &mut Vec<Head>) -> Result<(), Memory>
    ensures more { OnOk result (take (length heads.old.items) heads.new.items ≡ heads.old.items) }
    ensures len { OnOk result (length heads.new.items ≡ suc (length heads.old.items)) }
{
    heads.push(Head::Unknown(0))?;
    Ok(())
}

/// What was found of the loop at a place.
pub(crate) fn put_head(heads: &mut Vec<Head>, at: usize, head: Head)
    requires inside { at < length heads.old.items }
    ensures { heads.new.items ≡ slice_set heads.old.items at head }
{
    heads[at] = head;
}
