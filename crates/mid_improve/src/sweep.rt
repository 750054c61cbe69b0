// The sweep: operations that only put something where nothing reads it are taken out.
ghost use Rattle.std.specs.Prelude.{◌≡◌, ℕ, ◌+◌, ◌<◌, ◌≤◌, cond, drop, length, map, Some, None, IfOk, OnOk};
ghost use Rattle.mid_code.specs.Functions.{BlockN, LoopN, function, listed, node};
ghost use Rattle.mid_code.specs.Whole.{mid};
ghost use Rattle.mid_live.specs.Sets.{on, room};
ghost use Rattle.mid_live.specs.Labels.{labels_of};
ghost use Rattle.mid_live.specs.Heads.{node_loops, list_loops, NodeTold, ListTold};
ghost use Rattle.mid_improve.specs.inner.Sweep.{swept_function};
ghost use Rattle.mid_improve.specs.inner.Wanted.{op_wanted};
ghost use Rattle.mid_improve.specs.inner.SweepListed.{node_left, list_left, node_swept, list_swept};
ghost use Rattle.mid_improve.specs.inner.SweptFrom.{IsSweptFrom};

use crate::targets::{is_op_wanted, make_room};
use kit_base::{Memory, Seq};
use mid_code::laws::mid_code_is_sound;
use mid_code::{Code, Function, Mid, Node, Op};
use mid_live::{
    Head, Kept, Labels, Live, at_begin, at_end, at_return, before_op, head_of, heads_in, nested,
    outside,
};
use std::alloc::Global;
use std::mem;

/// Whether an operation is wanted; and then the set becomes what is live before it.
fn sweep_op(count: u32, o: &Op<u32>, m: &Labels, s: &mut Live) -> bool
    ensures len { length s.new ≡ length s.old }
    ensures is { (y : ℕ) → y < room s.old → on s.new y ≡ node_left count (λ y. labels_of y m.now) (node (Node.Do o.now)) (on s.old) y }
    ensures stays { result ≡ op_wanted count o.now (on s.old) }
{
    if !is_op_wanted(count, o, &*s) {
        return false;
    }
    before_op(o, m, s);
    true
}

/// What a walk goes by: the temporaries below `count` count, and the heads of loops are told.
#[derive(Drop)]
struct By<'a> {
    alloc: Global,
    count: u32,
    heads: &'a [Head],
}

/// Makes the set what is live before a node, without what is taken out inside of it. False where the node itself is taken out.
#[cycle(sweep)]
#[tactic(auto, using(mid_live::proofs::Named::told_inside))]
fn sweep_node(
    by: &By<'_>,
    n: &mut Node<u32>,
    m: &Labels,
    s: &mut Live,
    next: &mut usize,
) -> Result<bool, Memory>
    requires fits { by.now.count ≤ room s.old }
    requires told { NodeTold (length s.old) by.now.heads.now next.old (node n.old) }
    ensures next { OnOk result (next.new ≡ node_loops (node n.old) + next.old) }
    ensures len { OnOk result (length s.new ≡ length s.old) }
    ensures is { OnOk result ((y : ℕ) → y < by.now.count → on s.new y ≡ node_left by.now.count (λ y. labels_of y m.now) (node n.old) (on s.old) y) }
    ensures nodes { IfOk result (λ b. cond b (Some (node n.new)) None ≡ node_swept by.now.count (λ y. labels_of y m.now) (node n.old) (on s.old)) }
{
    match n {
        Node::Do(o) => Ok(sweep_op(by.count, &*o, m, s)),
        Node::Choose(p, a, b) => {
            let behind = s.kept(by.alloc)?;
            let Some(_) = b.as_slice().split_first() else {
                sweep_inside(by, a, &*m, s, next)?;
                s.join(&behind);
                s.put(*p as usize);
                return Ok(true);
            };
            sweep_inside(by, b, &*m, s, next)?;
            let other = s.kept(by.alloc)?;
            s.restore(&behind);
            sweep_inside(by, a, &*m, s, next)?;
            s.join(&other);
            s.put(*p as usize);
            Ok(true)
        }
        Node::Block(b) => {
            sweep_block(by, b, &*m, s, next)?;
            Ok(true)
        }
        Node::Loop(b) => {
            sweep_loop(by, b, &*m, s, next)?;
            Ok(true)
        }
        Node::Leave(k) => {
            at_end(m, *k, s);
            Ok(true)
        }
        Node::Again(k) => {
            at_begin(m, *k, s);
            Ok(true)
        }
        Node::Return(p) => {
            at_return(p, s);
            Ok(true)
        }
    }
}

/// The same of a block, which stays.
#[cycle(sweep)]
fn sweep_block(
    by: &By<'_>,
    b: &mut Seq<Node<u32>>,
    m: &Labels,
    s: &mut Live,
    next: &mut usize,
) -> Result<(), Memory>
    requires fits { by.now.count ≤ room s.old }
    requires told { NodeTold (length s.old) by.now.heads.now next.old (BlockN (listed (map node b.old))) }
    ensures next { OnOk result (next.new ≡ node_loops (BlockN (listed (map node b.old))) + next.old) }
    ensures len { OnOk result (length s.new ≡ length s.old) }
    ensures is { OnOk result ((y : ℕ) → y < by.now.count
        → on s.new y ≡ node_left by.now.count (λ y. labels_of y m.now) (BlockN (listed (map node b.old))) (on s.old) y) }
    ensures nodes { OnOk result (Some (BlockN (listed (map node b.new)))
        ≡ node_swept by.now.count (λ y. labels_of y m.now) (BlockN (listed (map node b.old))) (on s.old)) }
{
    let ends = s.kept(by.alloc)?;
    let begins = Kept::none(by.alloc);
    let around = nested(&begins, &ends, &*m);
    sweep_inside(by, b, &around, s, next)?;
    Ok(())
}

/// The same of a loop, which stays.
#[cycle(sweep)]
fn sweep_loop(
    by: &By<'_>,
    b: &mut Seq<Node<u32>>,
    m: &Labels,
    s: &mut Live,
    next: &mut usize,
) -> Result<(), Memory>
    requires fits { by.now.count ≤ room s.old }
    requires told { NodeTold (length s.old) by.now.heads.now next.old (LoopN (listed (map node b.old))) }
    ensures next { OnOk result (next.new ≡ node_loops (LoopN (listed (map node b.old))) + next.old) }
    ensures len { OnOk result (length s.new ≡ length s.old) }
    ensures is { OnOk result ((y : ℕ) → y < by.now.count
        → on s.new y ≡ node_left by.now.count (λ y. labels_of y m.now) (LoopN (listed (map node b.old))) (on s.old) y) }
    ensures nodes { OnOk result (Some (LoopN (listed (map node b.new)))
        ≡ node_swept by.now.count (λ y. labels_of y m.now) (LoopN (listed (map node b.old))) (on s.old)) }
{
    let ends = s.kept(by.alloc)?;
    let head = head_of(by.alloc, b.as_slice(), &*m, s, &ends, by.heads, next)?;
    let around = nested(&head, &ends, &*m);
    sweep_inside(by, b, &around, s, next)?;
    Ok(())
}

/// Makes the set what is live before nodes, without what is taken out. Those that stay stand, in their order, from the place on that is the answer.
#[cycle(sweep)]
fn sweep_nodes(
    by: &By<'_>,
    ns: &mut [Node<u32>],
    m: &Labels,
    s: &mut Live,
    next: &mut usize,
) -> Result<usize, Memory>
    requires fits { by.now.count ≤ room s.old }
    requires told { ListTold (length s.old) by.now.heads.now next.old (listed (map node ns.old)) }
    ensures next { OnOk result (next.new ≡ list_loops (listed (map node ns.old)) + next.old) }
    ensures len { OnOk result (length s.new ≡ length s.old) }
    ensures is { OnOk result ((y : ℕ) → y < by.now.count
        → on s.new y ≡ list_left by.now.count (λ y. labels_of y m.now) (listed (map node ns.old)) (on s.old) y) }
    ensures within { IfOk result (λ k. k ≤ length ns.new) }
    ensures nodes { IfOk result (λ k. map node (drop k ns.new) ≡ list_swept by.now.count (λ y. labels_of y m.now) (listed (map node ns.old)) (on s.old)) }
{
    let mut from = ns.len();
    let mut i = ns.len();
    while i > 0 {
        i -= 1;
        if sweep_node(by, &mut ns[i], &*m, s, next)? {
            from -= 1;
            ns.swap(i, from);
        }
    }
    Ok(from)
}

/// The same of the nodes inside of a node, or of a function; only those that stay are left.
#[cycle(sweep)]
fn sweep_inside(
    by: &By<'_>,
    b: &mut Seq<Node<u32>>,
    m: &Labels,
    s: &mut Live,
    next: &mut usize,
) -> Result<(), Memory>
    requires fits { by.now.count ≤ room s.old }
    requires told { ListTold (length s.old) by.now.heads.now next.old (listed (map node b.old)) }
    ensures next { OnOk result (next.new ≡ list_loops (listed (map node b.old)) + next.old) }
    ensures len { OnOk result (length s.new ≡ length s.old) }
    ensures is { OnOk result ((y : ℕ) → y < by.now.count
        → on s.new y ≡ list_left by.now.count (λ y. labels_of y m.now) (listed (map node b.old)) (on s.old) y) }
    ensures nodes { OnOk result (map node b.new ≡ list_swept by.now.count (λ y. labels_of y m.now) (listed (map node b.old)) (on s.old)) }
{
    let mut ns = mem::replace(b, Seq::from_vec(Vec::new(by.alloc))).into_vec();
    let from = sweep_nodes(by, &mut ns, &*m, s, next)?;
    if from > 0 {
        ns = ns.split_off(from)?;
    }
    *b = Seq::from_vec(ns);
    Ok(())
}

/// Takes out of the function the operations that only put something where nothing reads it. The error is want of memory.
/// The set has room for `have` temporaries.
fn sweep_function(
    alloc: Global,
    f: &mut Function<u32>,
    s: &mut Live,
    have: &mut usize,
) -> Result<(), Memory>
    requires have { have.old ≤ room s.old }
    ensures have { OnOk result (have.new ≤ room s.new) }
    ensures swept { OnOk result (function f.new ≡ swept_function (function f.old)) }
{
    let spare = f.temps as usize;
    make_room(alloc, s, have, spare + 1)?;
    let heads = heads_in(alloc, f.body.as_slice(), s, spare)?;
    let by = By {
        alloc,
        count: f.temps,
        heads: heads.as_slice(),
    };
    let mut next = 0;
    let around = outside();
    sweep_inside(&by, &mut f.body, &around, s, &mut next)?;
    Ok(())
}

fn sweep_functions(
    alloc: Global,
    fs: &mut Vec<Function<u32>>,
    s: &mut Live,
    have: &mut usize,
) -> Result<(), Memory>
    requires have { have.old ≤ room s.old }
    ensures { OnOk result (map function fs.new.items ≡ map swept_function (map function fs.old.items)) }
{
    for f in fs.iter_mut() {
        sweep_function(alloc, f, s, have)?;
    }
    Ok(())
}

/// The code without the operations that only put something where nothing reads it. The error is want of memory, and then the code given is dropped.
pub(crate) fn sweep_dead(alloc: Global, m: Mid) -> Result<Mid, Memory>
    ensures swept { IfOk result (λ r. IsSweptFrom (mid m) (mid r)) }
{
    mid_code_is_sound(&m);
    let of = m.into_code();
    let mut have = 0;
    let mut live = Live::none(alloc, have)?;
    let mut start = of.start;
    sweep_function(alloc, &mut start, &mut live, &mut have)?;
    let mut functions = of.functions.into_vec();
    sweep_functions(alloc, &mut functions, &mut live, &mut have)?;
    Ok(Mid::new(Code {
        start,
        functions: Seq::from_vec(functions),
        globals: of.globals,
        literals: of.literals,
        main: of.main,
    }))
}
