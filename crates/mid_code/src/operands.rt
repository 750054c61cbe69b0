// What operations and calls read and write.
ghost use Rattle.std.specs.Prelude.{◌≡◌, IfOk, map};
ghost use Rattle.mid_code.specs.Code.{Stop, node_uses, node_target};
ghost use Rattle.mid_code.specs.Functions.{node, before};
ghost use Rattle.mid_code.specs.Operands.{op_uses, op_target, listed_uses, op_into, op_reading};

use crate::node::{Node, Op};
use kit_base::{Memory, Seq};
use std::alloc::Global;
use std::mem;

/// The places that an operation or a call reads, in its order. Only calls read more than two.
#[derive(Clone, Copy)]
pub enum Uses<'a, P> {
    Nothing,
    One(P),
    Two(P, P),
    All(&'a [P]),
}

/// What is read in the place of each place.
pub trait Stands<P> {
    ghost stands: { Self → P → P };

    fn stands(&self, p: P) -> P
        ensures { result ≡ stands self.now p };
}

fn replace_each<P: Copy, S: Stands<P>>(places: &mut Vec<P>, by: &S)
    ensures { places.new.items ≡ map (S.stands by.now) places.old.items }
{
    for i in 0..places.len() {
        places[i] = by.stands(places[i]);
    }
}

fn replace_all<P: Copy, S: Stands<P>>(alloc: Global, places: &mut Seq<P>, by: &S)
    ensures { places.new ≡ map (S.stands by.now) places.old }
{
    let mut replaced = mem::replace(places, Seq::from_vec(Vec::new(alloc))).into_vec();
    replace_each(&mut replaced, by);
    *places = Seq::from_vec(replaced);
}

fn copy_all<P: Copy>(alloc: Global, places: &[P]) -> Result<Vec<P>, Memory>
    ensures { IfOk result (λ v. v.items ≡ places.now) }
{
    let mut copies = Vec::with_capacity(alloc, places.len())?;
    for p in places {
        copies.push(*p)?;
    }
    Ok(copies)
}

fn copy_call<P: Copy>(
    alloc: Global,
    target: Option<P>,
    function: u32,
    arguments: &[P],
) -> Result<Op<P>, Memory>
    ensures { IfOk result (λ r. r ≡ Op.Call target function arguments.now) }
{
    let arguments = copy_all(alloc, arguments)?;
    Ok(Op::Call(target, function, Seq::from_vec(arguments)))
}

impl<P: Copy> Op<P> {
    /// The target, where the operation or the call has one.
    #[inline]
    pub fn target(&self) -> Option<P>
        ensures { result ≡ op_target self.now }
    {
        match self {
            Op::Const(t, _) => Some(*t),
            Op::Null(t) => Some(*t),
            Op::Move(t, _) => Some(*t),
            Op::One(_, t, _) => Some(*t),
            Op::Two(_, t, _, _) => Some(*t),
            Op::Global(t, _) => Some(*t),
            Op::Local(t, _) => Some(*t),
            Op::Literal(t, _) => Some(*t),
            Op::Card(t) => Some(*t),
            Op::Step(t, _, _) => Some(*t),
            Op::Apart(t, _, _) => Some(*t),
            Op::PtrTest(_, t, _, _) => Some(*t),
            Op::Load(t, _) => Some(*t),
            Op::Store(_, _) => None,
            Op::Fresh(_) => None,
            Op::End(_) => None,
            Op::Call(t, _, _) => *t,
            Op::In(t, _) => Some(*t),
            Op::Out(_, _) => None,
            Op::Wait => None,
            Op::Halt => None,
        }
    }

    /// The places that the operation or the call reads.
    #[inline]
    pub fn uses(&self) -> Uses<'_, P>
        ensures { listed_uses result ≡ op_uses self.now }
    {
        match self {
            Op::Const(_, _) => Uses::Nothing,
            Op::Null(_) => Uses::Nothing,
            Op::Move(_, a) => Uses::One(*a),
            Op::One(_, _, a) => Uses::One(*a),
            Op::Two(_, _, a, b) => Uses::Two(*a, *b),
            Op::Global(_, _) => Uses::Nothing,
            Op::Local(_, _) => Uses::Nothing,
            Op::Literal(_, _) => Uses::Nothing,
            Op::Card(_) => Uses::Nothing,
            Op::Step(_, p, n) => Uses::Two(*p, *n),
            Op::Apart(_, p, q) => Uses::Two(*p, *q),
            Op::PtrTest(_, _, p, q) => Uses::Two(*p, *q),
            Op::Load(_, p) => Uses::One(*p),
            Op::Store(p, a) => Uses::Two(*p, *a),
            Op::Fresh(_) => Uses::Nothing,
            Op::End(_) => Uses::Nothing,
            Op::Call(_, _, args) => Uses::All(args.as_slice()),
            Op::In(_, _) => Uses::Nothing,
            Op::Out(_, a) => Uses::One(*a),
            Op::Wait => Uses::Nothing,
            Op::Halt => Uses::Nothing,
        }
    }

    /// Gives the operation another target, where it has one. A call has one then.
    #[inline]
    pub fn set_target(&mut self, x: P)
        ensures { self.new ≡ op_into x self.old }
    {
        match self {
            Op::Const(t, _) => *t = x,
            Op::Null(t) => *t = x,
            Op::Move(t, _) => *t = x,
            Op::One(_, t, _) => *t = x,
            Op::Two(_, t, _, _) => *t = x,
            Op::Global(t, _) => *t = x,
            Op::Local(t, _) => *t = x,
            Op::Literal(t, _) => *t = x,
            Op::Card(t) => *t = x,
            Op::Step(t, _, _) => *t = x,
            Op::Apart(t, _, _) => *t = x,
            Op::PtrTest(_, t, _, _) => *t = x,
            Op::Load(t, _) => *t = x,
            Op::Store(_, _) => {}
            Op::Fresh(_) => {}
            Op::End(_) => {}
            Op::Call(t, _, _) => *t = Some(x),
            Op::In(t, _) => *t = x,
            Op::Out(_, _) => {}
            Op::Wait => {}
            Op::Halt => {}
        }
    }

    /// Puts in the place of each place that the operation or the call reads the one that stands for it.
    #[inline]
    pub fn replace_uses<S: Stands<P>>(&mut self, alloc: Global, by: &S)
        ensures { self.new ≡ op_reading (S.stands by.now) self.old }
    {
        match self {
            Op::Const(_, _) => {}
            Op::Null(_) => {}
            Op::Move(_, a) => *a = by.stands(*a),
            Op::One(_, _, a) => *a = by.stands(*a),
            Op::Two(_, _, a, b) => {
                *a = by.stands(*a);
                *b = by.stands(*b);
            }
            Op::Global(_, _) => {}
            Op::Local(_, _) => {}
            Op::Literal(_, _) => {}
            Op::Card(_) => {}
            Op::Step(_, p, n) => {
                *p = by.stands(*p);
                *n = by.stands(*n);
            }
            Op::Apart(_, p, q) => {
                *p = by.stands(*p);
                *q = by.stands(*q);
            }
            Op::PtrTest(_, _, p, q) => {
                *p = by.stands(*p);
                *q = by.stands(*q);
            }
            Op::Load(_, p) => *p = by.stands(*p),
            Op::Store(p, a) => {
                *p = by.stands(*p);
                *a = by.stands(*a);
            }
            Op::Fresh(_) => {}
            Op::End(_) => {}
            Op::Call(_, _, args) => replace_all(alloc, args, by),
            Op::In(_, _) => {}
            Op::Out(_, a) => *a = by.stands(*a),
            Op::Wait => {}
            Op::Halt => {}
        }
    }

    /// A copy of the operation. The error is want of memory, for the arguments of a call.
    pub fn copied(&self, alloc: Global) -> Result<Op<P>, Memory>
        ensures { IfOk result (λ r. r ≡ self.now) }
    {
        Ok(match self {
            Op::Const(t, word) => Op::Const(*t, *word),
            Op::Null(t) => Op::Null(*t),
            Op::Move(t, a) => Op::Move(*t, *a),
            Op::One(o, t, a) => Op::One(*o, *t, *a),
            Op::Two(o, t, a, b) => Op::Two(*o, *t, *a, *b),
            Op::Global(t, number) => Op::Global(*t, *number),
            Op::Local(t, number) => Op::Local(*t, *number),
            Op::Literal(t, number) => Op::Literal(*t, *number),
            Op::Card(t) => Op::Card(*t),
            Op::Step(t, p, n) => Op::Step(*t, *p, *n),
            Op::Apart(t, p, q) => Op::Apart(*t, *p, *q),
            Op::PtrTest(o, t, p, q) => Op::PtrTest(*o, *t, *p, *q),
            Op::Load(t, p) => Op::Load(*t, *p),
            Op::Store(p, a) => Op::Store(*p, *a),
            Op::Fresh(local) => Op::Fresh(*local),
            Op::End(local) => Op::End(*local),
            Op::Call(t, f, args) => copy_call(alloc, *t, *f, args.as_slice())?,
            Op::In(t, port) => Op::In(*t, *port),
            Op::Out(port, a) => Op::Out(*port, *a),
            Op::Wait => Op::Wait,
            Op::Halt => Op::Halt,
        })
    }
}

impl<P: Copy> Node<P> {
    /// The target, where the node is an operation or a call that has one.
    #[inline]
    pub fn target(&self) -> Option<P>
        ensures { result ≡ node_target (before (node self.now) Stop) }
    {
        match self {
            Node::Do(o) => o.target(),
            Node::Choose(_, _, _) => None,
            Node::Block(_) => None,
            Node::Loop(_) => None,
            Node::Leave(_) => None,
            Node::Again(_) => None,
            Node::Return(_) => None,
        }
    }

    /// The places that the node itself reads, and not the nodes inside of it.
    #[inline]
    pub fn uses(&self) -> Uses<'_, P>
        ensures { listed_uses result ≡ node_uses (before (node self.now) Stop) }
    {
        match self {
            Node::Do(o) => o.uses(),
            Node::Choose(p, _, _) => Uses::One(*p),
            Node::Block(_) => Uses::Nothing,
            Node::Loop(_) => Uses::Nothing,
            Node::Leave(_) => Uses::Nothing,
            Node::Again(_) => Uses::Nothing,
            Node::Return(p) => match p {
                Some(p) => Uses::One(*p),
                None => Uses::Nothing,
            },
        }
    }
}
