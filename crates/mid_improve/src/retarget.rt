// Targets that are moved at once.
ghost use Rattle.std.specs.Prelude.{◌≡◌, ℕ, ◌+◌, ◌<◌, None, Some, cond, eqb, map, length, drop, get_or};
ghost use Rattle.mid_code.specs.declared.node.Node.{Node};
ghost use Rattle.mid_code.specs.Functions.{function, listed, node};
ghost use Rattle.mid_code.specs.Operands.{op_target};
ghost use Rattle.mid_code.specs.Whole.{mid};
ghost use Rattle.mid_improve.specs.ImprovedFrom.{IsNoWorseFrom};
ghost use Rattle.mid_improve.specs.inner.Retarget.{or_else, turn_of, retargeted_function};
ghost use Rattle.mid_improve.specs.inner.RetargetListed.{op_to, op_landing, list_landing, list_lands};
ghost use Rattle.mid_improve.specs.inner.RetargetListed.{turned_move, unless_turned, node_target, node_turn, node_retargeted, list_retargeted};

use kit_base::Seq;
use mid_code::laws::mid_code_is_sound;
use mid_code::{Code, Function, Mid, Node, Op};
use std::alloc::Global;
use std::mem;

// ---- where targets go

/// The temporary to which an operation moves a target; else the target.
fn op_landing(t: u32, o: &Op<u32>) -> u32
    ensures { result ≡ op_landing t o.now }
{
    match o {
        Op::Move(x, a) => { if *a == t { *x } else { t } }
        _ => t,
    }
}

/// The temporary to which the first of these nodes moves a target; else the target.
fn landing(t: u32, after: &[Node<u32>]) -> u32
    ensures { result ≡ list_landing t (listed (map node after.now)) }
{
    match after.split_first() {
        None => t,
        Some((n, _)) => match n {
            Node::Do(o) => op_landing(t, o),
            Node::Choose(_, _, _) => t,
            Node::Block(_) => t,
            Node::Loop(_) => t,
            Node::Leave(_) => t,
            Node::Again(_) => t,
            Node::Return(_) => t,
        },
    }
}

fn lands(t: Option<u32>, after: &[Node<u32>]) -> Option<u32>
    ensures { result ≡ list_lands t (listed (map node after.now)) }
{
    match t {
        None => None,
        Some(t) => Some(landing(t, after)),
    }
}

fn to_target(x: Option<u32>, o: &mut Op<u32>)
    ensures { o.new ≡ op_to x o.old }
{
    match x {
        None => {}
        Some(x) => o.set_target(x),
    }
}

/// A target and the temporary that has its cell until the next node; none where they are one.
fn turn_of(t: Option<u32>, x: Option<u32>) -> Option<(u32, u32)>
    ensures { result ≡ turn_of t x }
{
    match t {
        None => None,
        Some(t) => match x {
            None => None,
            Some(x) => { if x == t { None } else { Some((t, x)) } }
        },
    }
}

/// The move that goes the other way, where one does.
fn turned_move(turn: Option<(u32, u32)>, o: &Op<u32>) -> Option<Op<u32>>
    ensures { result ≡ turned_move turn o.now }
{
    match turn {
        None => None,
        Some((t, x)) => match o {
            Op::Move(_, _) => Some(Op::Move(t, x)),
            _ => None,
        },
    }
}

fn unless_turned(other: Option<Op<u32>>, turn: Option<(u32, u32)>) -> Option<(u32, u32)>
    ensures { result ≡ unless_turned other turn }
{
    match other {
        None => turn,
        Some(_) => None,
    }
}

// ---- nodes

/// Puts in the place of an operation what stands for it, where its target goes to a temporary.
fn retarget_op(turn: Option<(u32, u32)>, to: Option<u32>, o: &mut Op<u32>)
    ensures { o.new ≡ or_else (turned_move turn o.old) (op_to to o.old) }
{
    match turned_move(turn, &*o) {
        Some(other) => *o = other,
        None => to_target(to, o),
    }
}

/// What has its cell elsewhere behind an operation whose target goes to a temporary.
fn op_turn(turn: Option<(u32, u32)>, to: Option<u32>, o: &Op<u32>) -> Option<(u32, u32)>
    ensures { result ≡ unless_turned (turned_move turn o.now) (turn_of (op_target o.now) to) }
{
    unless_turned(turned_move(turn, o), turn_of(o.target(), to))
}

fn next_turn(turn: Option<(u32, u32)>, to: Option<u32>, n: &Node<u32>) -> Option<(u32, u32)>
    ensures { result ≡ node_turn turn (node n.now) to }
{
    match n {
        Node::Do(o) => op_turn(turn, to, o),
        Node::Choose(_, _, _) => None,
        Node::Block(_) => None,
        Node::Loop(_) => None,
        Node::Leave(_) => None,
        Node::Again(_) => None,
        Node::Return(_) => None,
    }
}

/// Where the target of the node at a place goes.
fn lands_at(ns: &[Node<u32>], i: usize) -> Option<u32>
    requires there { i < length ns.now }
    ensures { (d : Node ℕ) → result ≡ list_lands (node_target (node (get_or ns.now i d))) (listed (map node (drop (i + 1) ns.now))) }
{
    lands(ns[i].target(), &ns[i + 1..])
}

/// Puts in the place of a node what stands for it, where its target goes to a temporary.
#[cycle(retargeting)]
fn retarget_node(alloc: Global, turn: Option<(u32, u32)>, to: Option<u32>, n: &mut Node<u32>)
    ensures { node n.new ≡ node_retargeted turn (node n.old) to }
{
    match n {
        Node::Do(o) => retarget_op(turn, to, o),
        Node::Choose(_, a, b) => {
            retarget_inside(alloc, a);
            retarget_inside(alloc, b);
        }
        Node::Block(b) => retarget_inside(alloc, b),
        Node::Loop(b) => retarget_inside(alloc, b),
        Node::Leave(_) => {}
        Node::Again(_) => {}
        Node::Return(_) => {}
    }
}

/// Puts in the place of nodes what stands for them.
#[cycle(retargeting)]
fn retarget_nodes(alloc: Global, ns: &mut [Node<u32>])
    ensures { map node ns.new ≡ list_retargeted None (listed (map node ns.old)) }
{
    let mut turn = None;
    for i in 0..ns.len() {
        let to = lands_at(&*ns, i);
        let next = next_turn(turn, to, &ns[i]);
        retarget_node(alloc, turn, to, &mut ns[i]);
        turn = next;
    }
}

/// The same of the nodes inside of a node, or of a function.
#[cycle(retargeting)]
fn retarget_inside(alloc: Global, b: &mut Seq<Node<u32>>)
    ensures { map node b.new ≡ list_retargeted None (listed (map node b.old)) }
{
    let mut ns = mem::replace(b, Seq::from_vec(Vec::new(alloc))).into_vec();
    retarget_nodes(alloc, &mut ns);
    *b = Seq::from_vec(ns);
}

fn retarget_function(alloc: Global, f: &mut Function<u32>)
    ensures { function f.new ≡ retargeted_function (function f.old) }
{
    retarget_inside(alloc, &mut f.body);
}

fn retarget_functions(alloc: Global, fs: &mut Vec<Function<u32>>)
    ensures { map function fs.new.items ≡ map retargeted_function (map function fs.old.items) }
{
    for f in fs.iter_mut() {
        retarget_function(alloc, f);
    }
}

/// The code in which an operation or a call whose target the next node moves to another temporary puts into that one; the move goes the other way, and is
/// dead where nothing reads its target.
pub(crate) fn retarget_moves(alloc: Global, m: Mid) -> Mid
    ensures retargeted { IsNoWorseFrom (mid m) (mid result) }
{
    mid_code_is_sound(&m);
    let of = m.into_code();
    let mut start = of.start;
    retarget_function(alloc, &mut start);
    let mut functions = of.functions.into_vec();
    retarget_functions(alloc, &mut functions);
    Mid::new(Code {
        start,
        functions: Seq::from_vec(functions),
        globals: of.globals,
        literals: of.literals,
        main: of.main,
    })
}
