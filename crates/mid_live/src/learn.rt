// What is told of loops, found by one walk from the end, inner loops first.
ghost use Rattle.std.specs.Prelude.{◌≡◌, ℕ, ◌+◌, ◌<◌, ◌≤◌, ◌||◌, ◌&&◌, not, [], IfOk, OnOk, true, false, eqb, length, map, take};
ghost use Rattle.std.specs.Bool.{OnTrue};
ghost use Rattle.mid_code.specs.Code.{Stop, Loop};
ghost use Rattle.mid_code.specs.Functions.{node, nodes, before, listed};
ghost use Rattle.mid_code.specs.Live.{is_live};
ghost use Rattle.mid_live.specs.Sets.{on, room};
ghost use Rattle.mid_live.specs.Heads.{named, node_loops, list_loops, IsHead, NodeTold, ListTold};
ghost use Rattle.mid_live.specs.inner.Loops.{Inside};
ghost use Rattle.mid_live.specs.declared.heads.Head.{Head};

use crate::heads::{Head, Known, push_unknown, put_head};
use crate::labels::{nested, outside};
use crate::live::{Kept, Live};
use crate::names::name_nodes;
use crate::walk::before_nodes;
use kit_base::Memory;
use mid_code::Node;
use std::alloc::Global;

/// What is live at the head of a loop that has nothing around it, where the set is live behind it. The set becomes that.
fn head_alone(
    alloc: Global,
    b: &[Node<u32>],
    s: &mut Live,
    heads: &[Head],
    first: usize,
) -> Result<Kept, Memory>
    requires told { ListTold (length s.old) heads.now first (listed (map node b.now)) }
    ensures len { OnOk result (length s.new ≡ length s.old) }
    ensures same { IfOk result (λ v. v ≡ s.new) }
    ensures is { OnOk result ((y : ℕ) → y < room s.old → on s.new y ≡ is_live y [] (Loop (nodes b.now) Stop) (on s.old y)) }
{
    let ends = s.kept(alloc)?;
    let begins = Kept::none(alloc);
    before_nodes(
        alloc,
        b,
        &nested(&begins, &ends, &outside()),
        s,
        heads,
        first,
    )?;
    let head = s.kept(alloc)?;
    Ok(head)
}

/// What is named by nodes. The set becomes that.
fn names_in(
    alloc: Global,
    b: &[Node<u32>],
    s: &mut Live,
    heads: &[Head],
    first: usize,
) -> Result<Kept, Memory>
    requires told { ListTold (length s.old) heads.now first (listed (map node b.now)) }
    ensures len { OnOk result (length s.new ≡ length s.old) }
    ensures same { IfOk result (λ v. v ≡ s.new) }
    ensures is { OnOk result ((y : ℕ) → y < room s.old → on s.new y ≡ named (nodes b.now) y) }
{
    s.clear();
    name_nodes(b, s, heads, first)?;
    let names = s.kept(alloc)?;
    Ok(names)
}

/// What is live at the head of a loop with nothing behind it. The set becomes that.
fn needs_in(
    alloc: Global,
    b: &[Node<u32>],
    s: &mut Live,
    heads: &[Head],
    first: usize,
) -> Result<Kept, Memory>
    requires told { ListTold (length s.old) heads.now first (listed (map node b.now)) }
    ensures len { OnOk result (length s.new ≡ length s.old) }
    ensures same { IfOk result (λ v. v ≡ s.new) }
    ensures is { OnOk result ((y : ℕ) → y < room s.old → on s.new y ≡ is_live y [] (Loop (nodes b.now) Stop) false) }
{
    s.clear();
    let needs = head_alone(alloc, b, s, heads, first)?;
    Ok(needs)
}

/// What is live at the head of a loop with all behind it that it names, and one more. The set becomes that.
fn passing_in(
    alloc: Global,
    b: &[Node<u32>],
    s: &mut Live,
    names: &Kept,
    spare: usize,
    heads: &[Head],
    first: usize,
) -> Result<Kept, Memory>
    requires told { ListTold (length s.old) heads.now first (listed (map node b.now)) }
    ensures len { OnOk result (length s.new ≡ length s.old) }
    ensures same { IfOk result (λ v. v ≡ s.new) }
    ensures is { OnOk result ((y : ℕ) → y < room s.old → on s.new y ≡ is_live y [] (Loop (nodes b.now) Stop) (eqb spare y || on names.now y)) }
{
    s.set_to(names);
    s.put(spare);
    let passing = head_alone(alloc, b, s, heads, first)?;
    Ok(passing)
}

/// Those of the one that are not in the other.
fn less(alloc: Global, names: &Kept, passing: &Kept, s: &mut Live) -> Result<Kept, Memory>
    ensures len { OnOk result (length s.new ≡ length s.old) }
    ensures same { IfOk result (λ v. v ≡ s.new) }
    ensures is { OnOk result ((y : ℕ) → y < room s.old → on s.new y ≡ (on names.now y && not (on passing.now y))) }
{
    s.set_to(names);
    s.leave(passing);
    let gone = s.kept(alloc)?;
    Ok(gone)
}

fn is_known(taken: bool, passes: bool) -> bool
    ensures { OnTrue result ((taken ≡ false) × (passes ≡ true)) }
{
    !taken && passes
}

/// Whether the head of a loop is asked for by loops around it, and the loop leaves nothing around it, where it may leave or begin anew so many.
fn is_asked(outermost: bool, inside: u64) -> bool
    ensures { OnTrue result (inside ≤ 1) }
{
    !outermost && inside <= 1
}

/// What is told of a loop, where its inner loops are told of. It is known where it is asked for, leaves nothing around it, and ends.
fn head_in(
    alloc: Global,
    b: &[Node<u32>],
    s: &mut Live,
    spare: usize,
    heads: &[Head],
    first: usize,
    asked: bool,
) -> Result<Head, Memory>
    requires told { ListTold (length s.old) heads.now first (listed (map node b.now)) }
    requires count { length heads.now ≡ list_loops (listed (map node b.now)) + first }
    requires few { asked ≡ true → Inside 1 (nodes b.now) }
    requires spare { spare < room s.old }
    ensures len { OnOk result (length s.new ≡ length s.old) }
    ensures is { IfOk result (λ h. IsHead (length s.old) h (listed (map node b.now))) }
{
    let inside = heads.len() - first;
    if !asked {
        return Ok(Head::Unknown(inside));
    }
    let names = names_in(alloc, b, s, heads, first)?;
    let taken = s.has(spare);
    let needs = needs_in(alloc, b, s, heads, first)?;
    let passing = passing_in(alloc, b, s, &names, spare, heads, first)?;
    let passes = s.has(spare);
    let gone = less(alloc, &names, &passing, s)?;
    if !is_known(taken, passes) {
        return Ok(Head::Unknown(inside));
    }
    let known = Box::new(
        alloc,
        Known {
            inside,
            names,
            gone,
            needs,
        },
    )?;
    Ok(Head::Known(known))
}

/// Adds what is told of the loops of a node. The answer is how many of the enclosing blocks and loops it may leave or begin anew. The set is changed;
/// `spare` has room in it, and should be named nowhere. Of an outermost loop nothing is found, since its head is asked for once.
#[cycle(learn)]
fn learn_node(
    alloc: Global,
    x: &Node<u32>,
    s: &mut Live,
    spare: usize,
    heads: &mut Vec<Head>,
    outermost: bool,
) -> Result<u64, Memory>
    requires spare { spare < room s.old }
    ensures len { OnOk result (length s.new ≡ length s.old) }
    ensures more { OnOk result (take (length heads.old.items) heads.new.items ≡ heads.old.items) }
    ensures count { OnOk result (length heads.new.items ≡ node_loops (node x.now) + length heads.old.items) }
    ensures told { OnOk result (NodeTold (length s.old) heads.new.items (length heads.old.items) (node x.now)) }
    ensures inside { IfOk result (λ n. Inside n (before (node x.now) Stop)) }
{
    match x {
        Node::Do(_) => Ok(0),
        Node::Choose(_, a, b) => {
            let second = learn_nodes(alloc, b.as_slice(), s, spare, heads, outermost)?;
            let first = learn_nodes(alloc, a.as_slice(), s, spare, heads, outermost)?;
            Ok(first.max(second))
        }
        Node::Block(b) => {
            let inside = learn_nodes(alloc, b.as_slice(), s, spare, heads, outermost)?;
            Ok(inside.saturating_sub(1))
        }
        Node::Loop(b) => {
            let at = heads.len();
            push_unknown(heads)?;
            let first = heads.len();
            let inside = learn_nodes(alloc, b.as_slice(), s, spare, heads, false)?;
            let asked = is_asked(outermost, inside);
            let head = head_in(
                alloc,
                b.as_slice(),
                s,
                spare,
                heads.as_slice(),
                first,
                asked,
            )?;
            put_head(heads, at, head);
            Ok(inside.saturating_sub(1))
        }
        Node::Leave(k) => Ok(u64::from(*k) + 1),
        Node::Again(k) => Ok(u64::from(*k) + 1),
        Node::Return(_) => Ok(0),
    }
}

/// The same for nodes.
#[cycle(learn)]
fn learn_nodes(
    alloc: Global,
    ns: &[Node<u32>],
    s: &mut Live,
    spare: usize,
    heads: &mut Vec<Head>,
    outermost: bool,
) -> Result<u64, Memory>
    requires spare { spare < room s.old }
    ensures len { OnOk result (length s.new ≡ length s.old) }
    ensures more { OnOk result (take (length heads.old.items) heads.new.items ≡ heads.old.items) }
    ensures count { OnOk result (length heads.new.items ≡ list_loops (listed (map node ns.now)) + length heads.old.items) }
    ensures told { OnOk result (ListTold (length s.old) heads.new.items (length heads.old.items) (listed (map node ns.now))) }
    ensures inside { IfOk result (λ n. Inside n (nodes ns.now)) }
{
    let mut far = 0;
    let mut i = ns.len();
    while i > 0 {
        i -= 1;
        let reached = learn_node(alloc, &ns[i], s, spare, heads, outermost)?;
        far = far.max(reached);
    }
    Ok(far)
}

/// What is told of the loops of nodes. Of an outermost loop nothing but the number inside, since its head is asked for once; for each other one its body is
/// walked three times. The set is the one that will be walked with, or one of its size, and is left with none; `spare` is a temporary in its room that no
/// node names, else less is told. The error is want of memory.
pub fn heads_in(
    alloc: Global,
    ns: &[Node<u32>],
    s: &mut Live,
    spare: usize,
) -> Result<Vec<Head>, Memory>
    requires spare { spare < room s.old }
    ensures len { OnOk result (length s.new ≡ length s.old) }
    ensures none { OnOk result ((y : ℕ) → on s.new y ≡ false) }
    ensures told { IfOk result (λ v. ListTold (length s.old) v.items 0 (listed (map node ns.now))) }
{
    let mut heads = Vec::new(alloc);
    learn_nodes(alloc, ns, s, spare, &mut heads, true)?;
    s.clear();
    Ok(heads)
}
