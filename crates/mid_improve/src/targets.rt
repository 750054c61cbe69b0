// Whether targets are live behind their operations.
ghost use Rattle.std.specs.Prelude.{◌≡◌, ℕ, ◌+◌, ◌<◌, ◌≤◌, ◌||◌, ◌&&◌, not, nat_lt, length, map, IfOk, OnOk, ◌↔◌, [], true};
ghost use Rattle.mid_code.specs.Code.{Stop};
ghost use Rattle.mid_code.specs.Functions.{function, node, nodes, before, listed};
ghost use Rattle.mid_code.specs.Paths.{Each};
ghost use Rattle.mid_code.specs.Live.{is_live};
ghost use Rattle.mid_live.specs.Sets.{on, room};
ghost use Rattle.mid_improve.specs.Settled.{IsWanted};
ghost use Rattle.mid_live.specs.Labels.{labels_of};
ghost use Rattle.mid_live.specs.Heads.{node_loops, list_loops, NodeTold, ListTold};
ghost use Rattle.mid_improve.specs.inner.Named.{IsNamed};
ghost use Rattle.mid_improve.specs.inner.Wanted.{is_wanted, op_wanted, node_wanted, list_wanted};

use crate::runs::divides;
use kit_base::Memory;
use mid_code::{Function, Node, Op};
use mid_live::{
    Head, Kept, Labels, Live, at_begin, at_end, at_return, before_op, head_of, heads_in, nested,
    outside, told_each,
};
use std::alloc::Global;

/// Whether a target of which a temporary has room is in the set, where its operation only puts something there.
fn is_wanted(count: u32, only: bool, t: u32, s: &Live) -> bool
    ensures { result ≡ is_wanted count only t (on s.now) }
{
    !only || (!(t < count) || s.has(t as usize))
}

pub(crate) fn is_op_wanted(count: u32, o: &Op<u32>, s: &Live) -> bool
    ensures { result ≡ op_wanted count o.now (on s.now) }
{
    match o {
        Op::Const(t, _) => is_wanted(count, true, *t, s),
        Op::Null(t) => is_wanted(count, true, *t, s),
        Op::Move(t, _) => is_wanted(count, true, *t, s),
        Op::One(_, t, _) => is_wanted(count, true, *t, s),
        Op::Two(o, t, _, _) => is_wanted(count, !divides(*o), *t, s),
        Op::Global(t, _) => is_wanted(count, true, *t, s),
        Op::Local(t, _) => is_wanted(count, true, *t, s),
        Op::Literal(t, _) => is_wanted(count, true, *t, s),
        Op::Card(t) => is_wanted(count, true, *t, s),
        _ => true,
    }
}

fn both(a: bool, b: bool) -> bool
    ensures { result ≡ (a && b) }
{
    a && b
}

/// Makes the set what is live before a node; whether the targets there are wanted.
#[cycle(wanted)]
#[tactic(auto, using(mid_live::proofs::Named::told_inside))]
fn walk_node(
    alloc: Global,
    count: u32,
    n: &Node<u32>,
    m: &Labels,
    s: &mut Live,
    heads: &[Head],
    next: &mut usize,
) -> Result<bool, Memory>
    requires fits { count ≤ room s.old }
    requires told { NodeTold (length s.old) heads.now next.old (node n.now) }
    ensures next { OnOk result (next.new ≡ node_loops (node n.now) + next.old) }
    ensures len { OnOk result (length s.new ≡ length s.old) }
    ensures is { OnOk result ((y : ℕ) → y < room s.old → on s.new y ≡ is_live y (labels_of y m.now) (before (node n.now) Stop) (on s.old y)) }
    ensures wanted { IfOk result (λ b. b ≡ node_wanted count (λ y. labels_of y m.now) (node n.now) (on s.old)) }
{
    match n {
        Node::Do(o) => {
            let fine = is_op_wanted(count, o, &*s);
            before_op(o, m, s);
            Ok(fine)
        }
        Node::Choose(p, a, b) => {
            let behind = s.kept(alloc)?;
            let Some(_) = b.as_slice().split_first() else {
                let first = walk_nodes(alloc, count, a.as_slice(), &*m, s, heads, next)?;
                s.join(&behind);
                s.put(*p as usize);
                return Ok(first);
            };
            let second = walk_nodes(alloc, count, b.as_slice(), &*m, s, heads, next)?;
            let other = s.kept(alloc)?;
            s.restore(&behind);
            let first = walk_nodes(alloc, count, a.as_slice(), &*m, s, heads, next)?;
            s.join(&other);
            s.put(*p as usize);
            Ok(both(first, second))
        }
        Node::Block(b) => {
            let ends = s.kept(alloc)?;
            let begins = Kept::none(alloc);
            let around = nested(&begins, &ends, &*m);
            walk_nodes(alloc, count, b.as_slice(), &around, s, heads, next)
        }
        Node::Loop(b) => {
            let ends = s.kept(alloc)?;
            let head = head_of(alloc, b.as_slice(), &*m, s, &ends, heads, next)?;
            let around = nested(&head, &ends, &*m);
            let fine = walk_nodes(alloc, count, b.as_slice(), &around, s, heads, next)?;
            Ok(fine)
        }
        Node::Leave(k) => {
            at_end(m, *k, s);
            Ok(true)
        }
        Node::Again(k) => {
            at_begin(m, *k, s);
            Ok(true)
        }
        Node::Return(p) => {
            at_return(p, s);
            Ok(true)
        }
    }
}

/// Makes the set what is live before nodes; whether the targets there are wanted.
#[cycle(wanted)]
fn walk_nodes(
    alloc: Global,
    count: u32,
    ns: &[Node<u32>],
    m: &Labels,
    s: &mut Live,
    heads: &[Head],
    next: &mut usize,
) -> Result<bool, Memory>
    requires fits { count ≤ room s.old }
    requires told { ListTold (length s.old) heads.now next.old (listed (map node ns.now)) }
    ensures next { OnOk result (next.new ≡ list_loops (listed (map node ns.now)) + next.old) }
    ensures len { OnOk result (length s.new ≡ length s.old) }
    ensures is { OnOk result ((y : ℕ) → y < room s.old → on s.new y ≡ is_live y (labels_of y m.now) (nodes ns.now) (on s.old y)) }
    ensures wanted { IfOk result (λ b. b ≡ list_wanted count (λ y. labels_of y m.now) (listed (map node ns.now)) (on s.old)) }
{
    let start = *next;
    let mut fine = true;
    let mut i = ns.len();
    while i > 0 {
        i -= 1;
        told_each(ns, i, s, heads, start, *next);
        let here = walk_node(alloc, count, &ns[i], &*m, s, heads, next)?;
        fine = both(here, fine);
    }
    Ok(fine)
}

/// Makes room for so many temporaries in a set that has room for `have`; what is in it is not told then.
pub(crate) fn make_room(
    alloc: Global,
    s: &mut Live,
    have: &mut usize,
    count: usize,
) -> Result<(), Memory>
    requires have { have.old ≤ room s.old }
    ensures room { OnOk result (count ≤ room s.new) }
    ensures have { OnOk result (have.new ≤ room s.new) }
{
    if *have < count {
        *s = Live::none(alloc, count)?;
        *have = count;
    }
    Ok(())
}

/// Whether each target of an operation that only puts something into it is live behind the operation. The set has room for `have` temporaries.
pub(crate) fn are_targets_live(
    alloc: Global,
    f: &Function<u32>,
    s: &mut Live,
    have: &mut usize,
) -> Result<bool, Memory>
    requires named { IsNamed (function f.now) }
    requires have { have.old ≤ room s.old }
    ensures have { OnOk result (have.new ≤ room s.new) }
    ensures live { IfOk result (λ b. (b ≡ true) ↔ Each IsWanted [] (function f.now).body) }
{
    let spare = f.temps as usize;
    make_room(alloc, s, have, spare + 1)?;
    let heads = heads_in(alloc, f.body.as_slice(), s, spare)?;
    let mut next = 0;
    let fine = walk_nodes(
        alloc,
        f.temps,
        f.body.as_slice(),
        &outside(),
        s,
        heads.as_slice(),
        &mut next,
    )?;
    Ok(fine)
}
