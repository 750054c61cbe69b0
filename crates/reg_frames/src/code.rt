// Code over other places.
ghost use Rattle.std.specs.Prelude.{◌≡◌, IfOk, IfSome, map};
ghost use Rattle.mid_code.specs.Functions.{node, listed};
ghost use Rattle.reg_frames.specs.inner.Placing.{placed_maybe};
ghost use Rattle.reg_frames.specs.inner.Moved.{stands, op_moved, node_moved, list_moved};

use crate::places::Places;
use kit_base::{Memory, Seq};
use mid_code::{Node, Op, Where};
use std::alloc::Global;

pub(crate) fn place(p: &Places, x: u32) -> Where
    ensures { result ≡ stands p.now x }
{
    let i = x as usize;
    if i < p.at.len() { p.at[i] } else { p.other }
}

fn place_maybe(p: &Places, x: Option<u32>) -> Option<Where>
    ensures { result ≡ placed_maybe (stands p.now) x }
{
    match x {
        Some(x) => Some(place(p, x)),
        None => None,
    }
}

pub(crate) fn place_all(alloc: Global, p: &Places, xs: &[u32]) -> Result<Vec<Where>, Memory>
    ensures { IfOk result (λ r. r.items ≡ map (stands p.now) xs.now) }
{
    let mut placed = Vec::new(alloc);
    for x in xs {
        placed.push(place(p, *x))?;
    }
    Ok(placed)
}

fn place_call(
    alloc: Global,
    p: &Places,
    target: Option<u32>,
    function: u32,
    arguments: &[u32],
) -> Result<Op<Where>, Memory>
    ensures { IfOk result (λ r. r ≡ Op.Call (placed_maybe (stands p.now) target) function (map (stands p.now) arguments.now)) }
{
    let arguments = place_all(alloc, p, arguments)?;
    Ok(Op::Call(place_maybe(p, target), function, Seq::from_vec(arguments)))
}

fn place_op(alloc: Global, p: &Places, o: &Op<u32>) -> Result<Op<Where>, Memory>
    ensures { IfOk result (λ r. r ≡ op_moved (stands p.now) o.now) }
{
    Ok(match o {
        Op::Const(t, word) => Op::Const(place(p, *t), *word),
        Op::Null(t) => Op::Null(place(p, *t)),
        Op::Move(t, a) => Op::Move(place(p, *t), place(p, *a)),
        Op::One(o, t, a) => Op::One(*o, place(p, *t), place(p, *a)),
        Op::Two(o, t, a, b) => Op::Two(*o, place(p, *t), place(p, *a), place(p, *b)),
        Op::Global(t, number) => Op::Global(place(p, *t), *number),
        Op::Local(t, number) => Op::Local(place(p, *t), *number),
        Op::Literal(t, number) => Op::Literal(place(p, *t), *number),
        Op::Card(t) => Op::Card(place(p, *t)),
        Op::Step(t, q, n) => Op::Step(place(p, *t), place(p, *q), place(p, *n)),
        Op::Apart(t, q, r) => Op::Apart(place(p, *t), place(p, *q), place(p, *r)),
        Op::PtrTest(o, t, q, r) => Op::PtrTest(*o, place(p, *t), place(p, *q), place(p, *r)),
        Op::Load(t, q) => Op::Load(place(p, *t), place(p, *q)),
        Op::Store(q, a) => Op::Store(place(p, *q), place(p, *a)),
        Op::Fresh(local) => Op::Fresh(*local),
        Op::End(local) => Op::End(*local),
        Op::Call(t, f, arguments) => place_call(alloc, p, *t, *f, arguments.as_slice())?,
        Op::In(t, port) => Op::In(place(p, *t), *port),
        Op::Out(port, a) => Op::Out(*port, place(p, *a)),
        Op::Wait => Op::Wait,
        Op::Halt => Op::Halt,
    })
}

#[cycle(place)]
fn place_node(alloc: Global, p: &Places, n: &Node<u32>) -> Result<Node<Where>, Memory>
    ensures { IfOk result (λ r. node r ≡ node_moved (stands p.now) (node n.now)) }
{
    match n {
        Node::Do(o) => Ok(Node::Do(place_op(alloc, p, o)?)),
        Node::Choose(q, a, b) => {
            let first = place_nodes(alloc, p, a.as_slice())?;
            let second = place_nodes(alloc, p, b.as_slice())?;
            Ok(Node::Choose(place(p, *q), Seq::from_vec(first), Seq::from_vec(second)))
        }
        Node::Block(b) => Ok(Node::Block(Seq::from_vec(place_nodes(alloc, p, b.as_slice())?))),
        Node::Loop(b) => Ok(Node::Loop(Seq::from_vec(place_nodes(alloc, p, b.as_slice())?))),
        Node::Leave(k) => Ok(Node::Leave(*k)),
        Node::Again(k) => Ok(Node::Again(*k)),
        Node::Return(q) => Ok(Node::Return(place_maybe(p, *q))),
    }
}

#[cycle(place)]
#[tactic(auto, using(crate::proofs::Movedly::maps_move))]
pub(crate) fn place_nodes(
    alloc: Global,
    p: &Places,
    ns: &[Node<u32>],
) -> Result<Vec<Node<Where>>, Memory>
    ensures { IfOk result (λ r. listed (map node r.items) ≡ list_moved (stands p.now) (listed (map node ns.now))) }
{
    let mut placed = Vec::new(alloc);
    for n in ns {
        placed.push(place_node(alloc, p, n)?)?;
    }
    Ok(placed)
}
