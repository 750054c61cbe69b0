// The spans of temporaries, found in one walk from the end.
ghost use Rattle.std.specs.Prelude.{◌≡◌, ℕ, ◌+◌, ◌<◌, ◌≤◌, ◌&&◌, ◌||◌, ◌^◌, not, length, drop, map, IfOk, OnOk, false, true};
ghost use Rattle.mid_code.specs.Code.{Stop, Leave, Again, Return};
ghost use Rattle.mid_code.specs.Functions.{op_before, node, nodes, before, listed};
ghost use Rattle.mid_code.specs.Live.{is_live};
ghost use Rattle.mid_code.specs.Spans.{places};
ghost use Rattle.mid_live.specs.Sets.{on, room};
ghost use Rattle.mid_live.specs.Labels.{labels_of};
ghost use Rattle.mid_live.specs.Heads.{node_loops, list_loops, NodeTold, ListTold};
ghost use Rattle.reg_choose.specs.inner.Trails.{stood, trail_at};
ghost use Rattle.reg_choose.specs.inner.Sparse.{ceases, sparse, follows};
ghost use Rattle.reg_choose.specs.inner.Seen.{seen, calls};

use crate::stands::{cease, stand_all, stand_maybe, stand_one, stand_target, stand_uses};
use crate::trail::Trail;
use kit_base::Memory;
use mid_code::{Node, Op};
use mid_live::{
    Head, Kept, Labels, Live, at_begin, at_end, at_return, begin_less, head_of, nested, put_uses,
    strike_target, told_each,
};
use std::alloc::Global;

/// What a walk goes by: where memory is taken, and what is told of the loops.
#[derive(Clone, Copy)]
pub(crate) struct Setting<'a> {
    pub(crate) alloc: Global,
    pub(crate) heads: &'a [Head],
}

/// The temporaries that are live at the point of a walk, and those that were found live across a call.
#[derive(Drop)]
pub(crate) struct Sets {
    pub(crate) live: Live,
    pub(crate) crossed: Live,
}

/// The point behind a node: its place, and whether more nodes follow there.
#[derive(Clone, Copy)]
struct Behind {
    place: u64,
    more: bool,
}

/// The place before one. There are no more than a word can number.
fn one_less(place: u64) -> Result<u64, Memory>
    ensures { IfOk result (λ n. n + 1 ≡ place) }
{
    if place == 0 {
        Err(Memory)
    } else {
        Ok(place - 1)
    }
}

fn is_call(o: &Op<u32>) -> bool
    ensures { result ≡ calls (op_before o.now Stop) }
{
    match o {
        Op::Call(_, _, _) => true,
        _ => false,
    }
}

/// What is in the set crosses a call, where the operation is one.
fn cross(alloc: Global, crossed: &mut Live, s: &Live, o: &Op<u32>) -> Result<(), Memory>
    ensures len { OnOk result (length crossed.new ≡ length crossed.old) }
    ensures is { OnOk result ((y : ℕ) → y < room crossed.old → on crossed.new y ≡ ((calls (op_before o.now Stop) && on s.now y) || on crossed.old y)) }
{
    if is_call(o) {
        let live = s.kept(alloc)?;
        crossed.join(&live);
    }
    Ok(())
}

/// What an operation adds to the trails, and what is live before it. The answer is its place.
fn walk_op(
    alloc: Global,
    o: &Op<u32>,
    m: &Labels,
    sets: &mut Sets,
    trails: &mut [Trail],
    at: Behind,
) -> Result<u64, Memory>
    requires sizes { length trails.old ≤ room sets.old.live }
    requires crossed_sizes { length trails.old ≤ room sets.old.crossed }
    ensures len { OnOk result (length sets.new.live ≡ length sets.old.live) }
    ensures trails_len { OnOk result (length trails.new ≡ length trails.old) }
    ensures crossed_len { OnOk result (length sets.new.crossed ≡ length sets.old.crossed) }
    ensures live { OnOk result ((y : ℕ) → y < room sets.old.live → on sets.new.live y
        ≡ is_live y (labels_of y m.now) (op_before o.now Stop) (on sets.old.live y)) }
    ensures place { IfOk result (λ n. n + places (op_before o.now Stop) ≡ at.place) }
    ensures trails { IfOk result (λ n. (y : ℕ) → y < length trails.old → seen trails.new sets.new.crossed y
        ≡ sparse y (labels_of y m.now) (op_before o.now Stop) (on sets.old.live y) at.more n (seen trails.old sets.old.crossed y)) }
{
    let first = one_less(at.place)?;
    strike_target(&mut sets.live, o);
    cross(alloc, &mut sets.crossed, &sets.live, o)?;
    put_uses(&mut sets.live, o);
    stand_uses(trails, o, first);
    stand_target(trails, o, first);
    Ok(first)
}

/// Adds the place behind a node to what is live there and not before it, where more nodes follow. The answer is the place of the node, which is before
/// another one.
fn cease_before(
    alloc: Global,
    trails: &mut [Trail],
    behind: &Kept,
    before: &Live,
    at: Behind,
    inside: u64,
) -> Result<u64, Memory>
    ensures len { OnOk result (length trails.new ≡ length trails.old) }
    ensures place { IfOk result (λ n. n + 1 ≡ inside) }
    ensures is { OnOk result ((y : ℕ) → y < length trails.old → trail_at trails.new y
        ≡ stood (ceases (on before.now y) (on behind.now y) at.more) at.place (trail_at trails.old y)) }
{
    cease(alloc, trails, behind, before, at.place, at.more)?;
    one_less(inside)
}

/// What a leave adds to the trails, and what is live before it. The answer is its place.
fn walk_leave(
    alloc: Global,
    k: u32,
    m: &Labels,
    sets: &mut Sets,
    trails: &mut [Trail],
    at: Behind,
) -> Result<u64, Memory>
    requires sizes { length trails.old ≤ room sets.old.live }
    requires crossed_sizes { length trails.old ≤ room sets.old.crossed }
    ensures len { OnOk result (length sets.new.live ≡ length sets.old.live) }
    ensures trails_len { OnOk result (length trails.new ≡ length trails.old) }
    ensures crossed_len { OnOk result (length sets.new.crossed ≡ length sets.old.crossed) }
    ensures live { OnOk result ((y : ℕ) → y < room sets.old.live → on sets.new.live y
        ≡ is_live y (labels_of y m.now) (Leave k Stop) (on sets.old.live y)) }
    ensures place { IfOk result (λ n. n + places (Leave k Stop) ≡ at.place) }
    ensures trails { IfOk result (λ n. (y : ℕ) → y < length trails.old → seen trails.new sets.new.crossed y
        ≡ sparse y (labels_of y m.now) (Leave k Stop) (on sets.old.live y) at.more n (seen trails.old sets.old.crossed y)) }
{
    let behind = sets.live.kept(alloc)?;
    at_end(m, k, &mut sets.live);
    let first = cease_before(alloc, trails, &behind, &sets.live, at, at.place)?;
    Ok(first)
}

/// What a repetition adds to the trails, and what is live before it. The answer is its place.
fn walk_again(
    alloc: Global,
    k: u32,
    m: &Labels,
    sets: &mut Sets,
    trails: &mut [Trail],
    at: Behind,
) -> Result<u64, Memory>
    requires sizes { length trails.old ≤ room sets.old.live }
    requires crossed_sizes { length trails.old ≤ room sets.old.crossed }
    ensures len { OnOk result (length sets.new.live ≡ length sets.old.live) }
    ensures trails_len { OnOk result (length trails.new ≡ length trails.old) }
    ensures crossed_len { OnOk result (length sets.new.crossed ≡ length sets.old.crossed) }
    ensures live { OnOk result ((y : ℕ) → y < room sets.old.live → on sets.new.live y
        ≡ is_live y (labels_of y m.now) (Again k Stop) (on sets.old.live y)) }
    ensures place { IfOk result (λ n. n + places (Again k Stop) ≡ at.place) }
    ensures trails { IfOk result (λ n. (y : ℕ) → y < length trails.old → seen trails.new sets.new.crossed y
        ≡ sparse y (labels_of y m.now) (Again k Stop) (on sets.old.live y) at.more n (seen trails.old sets.old.crossed y)) }
{
    let behind = sets.live.kept(alloc)?;
    let fresh = begin_less(alloc, m, k, &sets.live)?;
    at_begin(m, k, &mut sets.live);
    let first = cease_before(alloc, trails, &behind, &sets.live, at, at.place)?;
    stand_all(trails, fresh.as_slice(), first);
    Ok(first)
}

/// What a return adds to the trails, and what is live before it. The answer is its place.
fn walk_return(
    alloc: Global,
    p: &Option<u32>,
    m: &Labels,
    sets: &mut Sets,
    trails: &mut [Trail],
    at: Behind,
) -> Result<u64, Memory>
    requires sizes { length trails.old ≤ room sets.old.live }
    requires crossed_sizes { length trails.old ≤ room sets.old.crossed }
    ensures len { OnOk result (length sets.new.live ≡ length sets.old.live) }
    ensures trails_len { OnOk result (length trails.new ≡ length trails.old) }
    ensures crossed_len { OnOk result (length sets.new.crossed ≡ length sets.old.crossed) }
    ensures live { OnOk result ((y : ℕ) → y < room sets.old.live → on sets.new.live y
        ≡ is_live y (labels_of y m.now) (Return p.now Stop) (on sets.old.live y)) }
    ensures place { IfOk result (λ n. n + places (Return p.now Stop) ≡ at.place) }
    ensures trails { IfOk result (λ n. (y : ℕ) → y < length trails.old → seen trails.new sets.new.crossed y
        ≡ sparse y (labels_of y m.now) (Return p.now Stop) (on sets.old.live y) at.more n (seen trails.old sets.old.crossed y)) }
{
    let behind = sets.live.kept(alloc)?;
    at_return(p, &mut sets.live);
    let first = cease_before(alloc, trails, &behind, &sets.live, at, at.place)?;
    stand_maybe(trails, *p, first);
    Ok(first)
}

/// Whether there are nodes from this one on.
pub(crate) fn more_from(ns: &[Node<u32>], i: usize) -> bool
    ensures { result ≡ follows (nodes (drop i ns.now)) }
{
    i < ns.len()
}

/// What a node adds to the trails, and what is live before it. The answer is its place.
#[cycle(walk)]
#[tactic(auto, using(mid_live::proofs::Named::told_inside))]
fn walk_node(
    by: &Setting<'_>,
    x: &Node<u32>,
    m: &Labels,
    sets: &mut Sets,
    trails: &mut [Trail],
    at: Behind,
    next: &mut usize,
) -> Result<u64, Memory>
    requires sizes { length trails.old ≤ room sets.old.live }
    requires crossed_sizes { length trails.old ≤ room sets.old.crossed }
    requires told { NodeTold (length sets.old.live) by.now.heads.now next.old (node x.now) }
    ensures next { OnOk result (next.new ≡ node_loops (node x.now) + next.old) }
    ensures len { OnOk result (length sets.new.live ≡ length sets.old.live) }
    ensures trails_len { OnOk result (length trails.new ≡ length trails.old) }
    ensures crossed_len { OnOk result (length sets.new.crossed ≡ length sets.old.crossed) }
    ensures live { OnOk result ((y : ℕ) → y < room sets.old.live → on sets.new.live y
        ≡ is_live y (labels_of y m.now) (before (node x.now) Stop) (on sets.old.live y)) }
    ensures place { IfOk result (λ n. n + places (before (node x.now) Stop) ≡ at.place) }
    ensures trails { IfOk result (λ n. (y : ℕ) → y < length trails.old → seen trails.new sets.new.crossed y
        ≡ sparse y (labels_of y m.now) (before (node x.now) Stop) (on sets.old.live y) at.more n (seen trails.old sets.old.crossed y)) }
{
    match x {
        Node::Do(o) => walk_op(by.alloc, o, m, sets, trails, at),
        Node::Choose(p, a, b) => {
            let behind = sets.live.kept(by.alloc)?;
            let Some(_) = b.as_slice().split_first() else {
                let one = walk_nodes(by, a.as_slice(), &*m, sets, trails, at.place, next)?;
                sets.live.join(&behind);
                sets.live.put(*p as usize);
                let begun = cease_before(by.alloc, trails, &behind, &sets.live, at, one)?;
                stand_one(trails, *p as usize, begun);
                return Ok(begun);
            };
            let between = walk_nodes(by, b.as_slice(), &*m, sets, trails, at.place, next)?;
            let other = sets.live.kept(by.alloc)?;
            sets.live.restore(&behind);
            let inside = walk_nodes(by, a.as_slice(), &*m, sets, trails, between, next)?;
            sets.live.join(&other);
            sets.live.put(*p as usize);
            let first = cease_before(by.alloc, trails, &behind, &sets.live, at, inside)?;
            stand_one(trails, *p as usize, first);
            Ok(first)
        }
        Node::Block(b) => {
            let ends = sets.live.kept(by.alloc)?;
            let begins = Kept::none(by.alloc);
            let around = nested(&begins, &ends, &*m);
            let inside = walk_nodes(by, b.as_slice(), &around, sets, trails, at.place, next)?;
            let first = cease_before(by.alloc, trails, &ends, &sets.live, at, inside)?;
            Ok(first)
        }
        Node::Loop(b) => {
            let ends = sets.live.kept(by.alloc)?;
            let live = &mut sets.live;
            let head = head_of(by.alloc, b.as_slice(), &*m, live, &ends, by.heads, next)?;
            let around = nested(&head, &ends, &*m);
            let inside = walk_nodes(by, b.as_slice(), &around, sets, trails, at.place, next)?;
            let first = cease_before(by.alloc, trails, &ends, &sets.live, at, inside)?;
            Ok(first)
        }
        Node::Leave(k) => walk_leave(by.alloc, *k, m, sets, trails, at),
        Node::Again(k) => walk_again(by.alloc, *k, m, sets, trails, at),
        Node::Return(p) => walk_return(by.alloc, p, m, sets, trails, at),
    }
}

/// What nodes add to the trails, and what is live before them. The answer is the first place; the one behind them is given.
#[cycle(walk)]
pub(crate) fn walk_nodes(
    by: &Setting<'_>,
    ns: &[Node<u32>],
    m: &Labels,
    sets: &mut Sets,
    trails: &mut [Trail],
    place: u64,
    next: &mut usize,
) -> Result<u64, Memory>
    requires sizes { length trails.old ≤ room sets.old.live }
    requires crossed_sizes { length trails.old ≤ room sets.old.crossed }
    requires told { ListTold (length sets.old.live) by.now.heads.now next.old (listed (map node ns.now)) }
    ensures next { OnOk result (next.new ≡ list_loops (listed (map node ns.now)) + next.old) }
    ensures len { OnOk result (length sets.new.live ≡ length sets.old.live) }
    ensures trails_len { OnOk result (length trails.new ≡ length trails.old) }
    ensures crossed_len { OnOk result (length sets.new.crossed ≡ length sets.old.crossed) }
    ensures live { OnOk result ((y : ℕ) → y < room sets.old.live → on sets.new.live y
        ≡ is_live y (labels_of y m.now) (nodes ns.now) (on sets.old.live y)) }
    ensures place { IfOk result (λ n. n + places (nodes ns.now) ≡ place) }
    ensures trails { IfOk result (λ n. (y : ℕ) → y < length trails.old → seen trails.new sets.new.crossed y
        ≡ sparse y (labels_of y m.now) (nodes ns.now) (on sets.old.live y) false n (seen trails.old sets.old.crossed y)) }
{
    let start = *next;
    let mut first = place;
    let mut i = ns.len();
    while i > 0 {
        let more = more_from(ns, i);
        i -= 1;
        told_each(ns, i, &sets.live, by.heads, start, *next);
        let at = Behind { place: first, more };
        first = walk_node(by, &ns[i], &*m, sets, trails, at, next)?;
    }
    Ok(first)
}
