// The spans of a function's temporaries, and what crosses calls.
ghost use Rattle.std.specs.Prelude.{◌≡◌, ℕ, ◌+◌, ◌<◌, ◌≤◌, ◌&&◌, ◌^◌, [], length, IfOk, OnOk, Bool, false, map};
ghost use Rattle.mid_code.specs.Code.{Stop};
ghost use Rattle.mid_code.specs.Functions.{node, nodes, before, listed, function};
ghost use Rattle.mid_code.specs.Live.{is_live};
ghost use Rattle.mid_code.specs.Spans.{places};
ghost use Rattle.mid_live.specs.Sets.{on, room};
ghost use Rattle.reg_choose.specs.inner.Trails.{stood, crossing, no_trail, trail_at, trail_of};
ghost use Rattle.reg_choose.specs.inner.Sparse.{sparse, follows};
ghost use Rattle.reg_choose.specs.inner.Seen.{seen};
ghost use Rattle.mid_live.specs.Heads.{ListTold};

use crate::spans::{Sets, Setting, more_from, walk_nodes};
use crate::stands::stand_all;
use crate::trail::Trail;
use kit_base::Memory;
use mid_code::{Function, Node};
use mid_live::{Kept, Live, heads_in, outside};
use std::alloc::Global;

fn one_more(count: u64) -> Result<u64, Memory>
    ensures { IfOk result (λ n. n ≡ count + 1) }
{
    if count == u64::MAX {
        Err(Memory)
    } else {
        Ok(count + 1)
    }
}

/// The place behind nodes that begin at this one. Where 64 bits cannot number the places there is no room for the nodes.
#[cycle(count)]
fn behind_node(x: &Node<u32>, first: u64) -> Result<u64, Memory>
    ensures { IfOk result (λ n. n ≡ first + places (before (node x.now) Stop)) }
{
    match x {
        Node::Do(_) => one_more(first),
        Node::Choose(_, a, b) => {
            let inside = one_more(first)?;
            let between = behind_nodes(a.as_slice(), inside)?;
            behind_nodes(b.as_slice(), between)
        }
        Node::Block(b) => behind_nodes(b.as_slice(), one_more(first)?),
        Node::Loop(b) => behind_nodes(b.as_slice(), one_more(first)?),
        Node::Leave(_) => one_more(first),
        Node::Again(_) => one_more(first),
        Node::Return(_) => one_more(first),
    }
}

#[cycle(count)]
#[tactic(auto, using(crate::proofs::Trailed::places_turn))]
fn behind_nodes(ns: &[Node<u32>], first: u64) -> Result<u64, Memory>
    ensures { IfOk result (λ n. n ≡ first + places (nodes ns.now)) }
{
    let mut place = first;
    for n in ns {
        place = behind_node(n, place)?;
    }
    Ok(place)
}

/// The first place, added to what is live there, where there are nodes.
#[tactic(auto, using(crate::proofs::Gathered::begun, crate::proofs::Gathered::not_begun))]
fn begin(alloc: Global, trails: &mut [Trail], live: &Kept, ns: &[Node<u32>]) -> Result<(), Memory>
    ensures len { OnOk result (length trails.new ≡ length trails.old) }
    ensures is { OnOk result ((y : ℕ) → y < length trails.old → trail_at trails.new y
        ≡ stood (on live.now y && follows (nodes ns.now)) 1 (trail_at trails.old y)) }
{
    if more_from(ns, 0) {
        let nothing = Live::none(alloc, 0)?;
        let all = live.less(alloc, &nothing)?;
        stand_all(trails, all.as_slice(), 1);
    }
    Ok(())
}

/// What a function's nodes add to the trails, with what is live before them.
fn walk_body(
    by: &Setting<'_>,
    ns: &[Node<u32>],
    sets: &mut Sets,
    trails: &mut [Trail],
) -> Result<(), Memory>
    requires told { ListTold (length sets.old.live) by.now.heads.now 0 (listed (map node ns.now)) }
    requires sizes { length trails.old ≤ room sets.old.live }
    requires crossed_sizes { length trails.old ≤ room sets.old.crossed }
    requires nothing { (y : ℕ) → on sets.old.live y ≡ false }
    ensures trails_len { OnOk result (length trails.new ≡ length trails.old) }
    ensures crossed_len { OnOk result (length sets.new.crossed ≡ length sets.old.crossed) }
    ensures is { OnOk result ((y : ℕ) → y < length trails.old → seen trails.new sets.new.crossed y
        ≡ stood (is_live y [] (nodes ns.now) false && follows (nodes ns.now)) 1
        (sparse y [] (nodes ns.now) false false 1 (seen trails.old sets.old.crossed y))) }
{
    let end = behind_nodes(ns, 1)?;
    let mut next = 0;
    walk_nodes(by, ns, &outside(), sets, trails, end, &mut next)?;
    let live = sets.live.kept(by.alloc)?;
    begin(by.alloc, trails, &live, ns)?;
    Ok(())
}

fn with_crossing(r: Trail, crosses: bool) -> Trail
    ensures { result ≡ crossing crosses r }
{
    Trail {
        held: r.held,
        first: r.first,
        last: r.last,
        crosses: crosses || r.crosses,
    }
}

/// What crosses a call, told in the trails.
fn tell_crossing(trails: &mut [Trail], crossed: &Live)
    ensures len { length trails.new ≡ length trails.old }
    ensures is { (y : ℕ) → y < length trails.old → trail_at trails.new y ≡ seen trails.old crossed.now y }
{
    let mut i = 0;
    while i < trails.len() {
        trails[i] = with_crossing(trails[i], crossed.has(i));
        i += 1;
    }
}

fn walk_function(alloc: Global, f: &Function<u32>, trails: &mut [Trail]) -> Result<(), Memory>
    requires empty { (y : ℕ) → trail_at trails.old y ≡ no_trail }
    ensures len { OnOk result (length trails.new ≡ length trails.old) }
    ensures is { OnOk result ((y : ℕ) → y < length trails.old → trail_at trails.new y ≡ trail_of (function f.now) y) }
{
    let count = trails.len();
    let mut live = Live::none(alloc, count + 1)?;
    let crossed = Live::none(alloc, trails.len())?;
    let heads = heads_in(alloc, f.body.as_slice(), &mut live, count)?;
    let by = Setting {
        alloc,
        heads: heads.as_slice(),
    };
    let mut sets = Sets { live, crossed };
    walk_body(&by, f.body.as_slice(), &mut sets, trails)?;
    stand_all(trails, f.params.as_slice(), 0);
    tell_crossing(trails, &sets.crossed);
    Ok(())
}

fn no_trail() -> Trail
    ensures { result ≡ no_trail }
{
    Trail {
        held: false,
        first: 0,
        last: 0,
        crosses: false,
    }
}

fn no_trails(alloc: Global, count: usize) -> Result<Vec<Trail>, Memory>
    ensures len { IfOk result (λ r. length r.items ≡ count) }
    ensures is { IfOk result (λ r. (y : ℕ) → trail_at r.items y ≡ no_trail) }
{
    let mut trails = Vec::new(alloc);
    trails.resize(count, no_trail())?;
    Ok(trails)
}

/// The trails of a function's temporaries.
pub(crate) fn trails_of(alloc: Global, f: &Function<u32>) -> Result<Vec<Trail>, Memory>
    ensures len { IfOk result (λ r. length r.items ≡ (function f.now).temps) }
    ensures few { IfOk result (λ r. length r.items < 2 ^ 32) }
    ensures is { IfOk result (λ r. (y : ℕ) → y < (function f.now).temps → trail_at r.items y ≡ trail_of (function f.now) y) }
{
    let mut trails = no_trails(alloc, f.temps as usize)?;
    walk_function(alloc, f, trails.as_mut_slice())?;
    Ok(trails)
}
