// Register 8, where a function spares it.
ghost use Rattle.std.specs.Prelude.{◌≡◌, map, IfOk};
ghost use Rattle.mid_code.specs.Code.{Stop, node_uses, maybe};
ghost use Rattle.mid_code.specs.Functions.{op_before, node, before, nodes, function};
ghost use Rattle.mid_code.specs.Operands.{listed_uses};
ghost use Rattle.asm_laws.specs.Pieces.{is_in};
ghost use Rattle.asm_laws.specs.Spare.{beside, operand, computed, loaded, in_slots, stored, at_address, at_sum, used_by};
ghost use Rattle.asm_laws.specs.Spare.{index, index_behind, indexed, offset_load, offset_sum, offset_step, offset_behind, offset};
ghost use Rattle.asm_laws.specs.Spare.{element_behind, adds, element, or_else};
ghost use Rattle.asm_laws.specs.Spare.{count, are_others, spares, held_registers};
ghost use Rattle.asm_emit.specs.inner.Spared.{first_puts, group_behind, spares_from, held_all};

use crate::ahead::{behind, is_call, loads_there, other_word};
use crate::hands::{is_in, register};
use crate::pieces::turned;
use asm_laws::Used;
use kit_base::Memory;
use mid_code::{Function, Node, Op, Uses, Where};
use std::alloc::Global;
use v32_isa::{Reg, Two};

/// Whether a place is the register that may be spare.
fn is_spare(p: Where) -> bool
    ensures { result ≡ is_in p 8 }
{
    is_in(p, Reg::at(8))
}

/// Of two places just one of which is register 8, the other.
fn beside(p: Where, q: Where) -> Option<Where>
    ensures { result ≡ beside p q }
{
    if is_spare(p) {
        if is_spare(q) { None } else { Some(q) }
    } else if is_spare(q) {
        Some(p)
    } else {
        None
    }
}

/// And the operator that works on the other's word and the known one.
pub(crate) fn operand(o: Two, p: Where, q: Where) -> Option<(Two, Where)>
    ensures { result ≡ operand o p q }
{
    if is_spare(p) {
        if is_spare(q) {
            None
        } else {
            match turned(o) {
                Some(u) => Some((u, q)),
                None => None,
            }
        }
    } else if is_spare(q) {
        Some((o, p))
    } else {
        None
    }
}

fn computed(t: Where, by: Option<(Two, Where)>) -> Option<(u32, Used)>
    ensures { result ≡ computed t by }
{
    let Where::Reg(t) = t else { return None };
    let (o, p) = by?;
    if register(t).number() == 8 {
        None
    } else {
        Some((1, Used::Computed(o, register(t), p)))
    }
}

/// A load from the address in register 8, with so many operations behind the first one.
fn loaded(k: u32, p: Option<Where>, t: Where, q: Where) -> Option<(u32, Used)>
    ensures { result ≡ loaded k p t q }
{
    let Where::Reg(t) = t else { return None };
    if is_spare(q) && register(t).number() != 8 {
        Some((k, Used::Loaded(register(t), p)))
    } else {
        None
    }
}

fn in_slots(p: Option<Where>, a: Where) -> bool
    ensures { result ≡ in_slots p a }
{
    match p {
        Some(Where::Slot(_)) => match a {
            Where::Slot(_) => true,
            Where::Reg(_) => false,
        },
        Some(Where::Reg(_)) => false,
        None => false,
    }
}

/// A store to that address.
fn stored(k: u32, p: Option<Where>, q: Where, a: Where) -> Option<(u32, Used)>
    ensures { result ≡ stored k p q a }
{
    if is_spare(q) && !is_spare(a) {
        if in_slots(p, a) {
            None
        } else {
            Some((k, Used::Stored(p, a)))
        }
    } else {
        None
    }
}

fn at_address(k: u32, p: Option<Where>, rest: &[Node<Where>]) -> Option<(u32, Used)>
    ensures { result ≡ at_address k p (nodes rest.now) }
{
    let (x, _) = rest.split_first()?;
    match x {
        Node::Do(Op::Load(t, q)) => loaded(k, p, *t, *q),
        Node::Do(Op::Store(q, a)) => stored(k, p, *q, *a),
        _ => None,
    }
}

fn at_sum(p: Option<Where>, rest: &[Node<Where>]) -> Option<(u32, Used)>
    ensures { result ≡ at_sum p (nodes rest.now) }
{
    match p {
        None => None,
        Some(p) => at_address(2, Some(p), rest),
    }
}

/// A sum with the word of a register other than 8, in register t, and a load from there into it.
fn index(t: Reg, q: Option<Reg>) -> Option<(u32, Used)>
    ensures { result ≡ index t q }
{
    let q = q?;
    if q.number() == 8 {
        None
    } else {
        Some((3, Used::Indexed(t, q)))
    }
}

fn index_behind(t: Reg, rest: &[Node<Where>]) -> Option<(u32, Used)>
    ensures { result ≡ index_behind t (nodes rest.now) }
{
    let (x, after) = rest.split_first()?;
    match x {
        Node::Do(Op::Step(u, p, q)) => {
            if loads_there(t, after) {
                index(t, other_word(t, *u, *p, *q))
            } else {
                None
            }
        }
        _ => None,
    }
}

/// The same behind a sum of a register's own word and the known one, which stands there too.
fn indexed(t: Where, other: Option<Where>, rest: &[Node<Where>]) -> Option<(u32, Used)>
    ensures { result ≡ indexed t other (nodes rest.now) }
{
    let Where::Reg(t) = t else { return None };
    match other {
        Some(Where::Reg(q)) => {
            if is_in(Where::Reg(q), register(t)) {
                index_behind(register(t), rest)
            } else {
                None
            }
        }
        Some(Where::Slot(_)) => None,
        None => None,
    }
}

/// A load into register t, at the sum of the word that stands there and one that is put into register 8 right before; and what is done in all.
fn offset_load(t: Reg, u: Used, rest: &[Node<Where>]) -> Option<(u32, Used)>
    ensures { result ≡ offset_load t u (nodes rest.now) }
{
    let (x, _) = rest.split_first()?;
    match x {
        Node::Do(Op::Load(d, q)) => {
            if is_in(*d, t) && is_spare(*q) {
                Some((4, u))
            } else {
                None
            }
        }
        _ => None,
    }
}

fn offset_sum(
    t: Reg,
    u: Used,
    s: Where,
    other: Option<Where>,
    rest: &[Node<Where>],
) -> Option<(u32, Used)>
    ensures { result ≡ offset_sum t u s other (nodes rest.now) }
{
    match other {
        Some(Where::Reg(q)) => {
            if is_in(Where::Reg(q), t) && is_spare(s) {
                offset_load(t, u, rest)
            } else {
                None
            }
        }
        Some(Where::Slot(_)) => None,
        None => None,
    }
}

fn offset_step(t: Reg, u: Used, rest: &[Node<Where>]) -> Option<(u32, Used)>
    ensures { result ≡ offset_step t u (nodes rest.now) }
{
    let (x, after) = rest.split_first()?;
    match x {
        Node::Do(Op::Step(s, a, b)) => offset_sum(t, u, *s, beside(*a, *b), after),
        _ => None,
    }
}

/// A number.
fn offset_behind(t: Reg, p: Where, rest: &[Node<Where>]) -> Option<(u32, Used)>
    ensures { result ≡ offset_behind t p (nodes rest.now) }
{
    let (x, after) = rest.split_first()?;
    match x {
        Node::Do(Op::Const(s, n)) => {
            if is_spare(*s) {
                offset_step(t, Used::Offset(t, p, *n), after)
            } else {
                None
            }
        }
        _ => None,
    }
}

/// The same behind a sum of the word of a place and the known one, in that register.
fn offset(t: Where, other: Option<Where>, rest: &[Node<Where>]) -> Option<(u32, Used)>
    ensures { result ≡ offset t other (nodes rest.now) }
{
    let Where::Reg(t) = t else { return None };
    match other {
        Some(p) => offset_behind(register(t), p, rest),
        None => None,
    }
}

/// The address of a global, behind what an operator makes in register t of the word of a place and the known one.
fn element_behind(o: Two, t: Reg, p: Where, rest: &[Node<Where>]) -> Option<(u32, Used)>
    ensures { result ≡ element_behind o t p (nodes rest.now) }
{
    let (x, after) = rest.split_first()?;
    match x {
        Node::Do(Op::Global(s, k)) => {
            if is_spare(*s) {
                offset_step(t, Used::Element(o, t, p, *k), after)
            } else {
                None
            }
        }
        _ => None,
    }
}

fn adds(o: Two) -> bool
    ensures { result ≡ adds o }
{
    match o {
        Two::IADD => true,
        Two::ISUB => true,
        _ => false,
    }
}

/// The same behind a sum or a difference of the word of a place and the known one.
fn element(t: Where, by: Option<(Two, Where)>, rest: &[Node<Where>]) -> Option<(u32, Used)>
    ensures { result ≡ element t by (nodes rest.now) }
{
    let Where::Reg(t) = t else { return None };
    let (o, p) = by?;
    if adds(o) && register(t).number() != 8 {
        element_behind(o, register(t), p, rest)
    } else {
        None
    }
}

fn or_else(first: Option<(u32, Used)>, other: Option<(u32, Used)>) -> Option<(u32, Used)>
    ensures { result ≡ or_else first other }
{
    match first {
        None => other,
        Some(x) => Some(x),
    }
}

/// What an operation does with a known word in register 8, and some of those behind it; how many they are.
pub(crate) fn used_by_op(o: &Op<Where>, rest: &[Node<Where>]) -> Option<(u32, Used)>
    ensures { result ≡ used_by (op_before o.now (nodes rest.now)) }
{
    match o {
        Op::Two(o, t, p, q) => {
            let by = operand(*o, *p, *q);
            or_else(element(*t, by, rest), computed(*t, by))
        }
        Op::Step(t, p, q) => {
            if is_spare(*t) {
                at_sum(beside(*p, *q), rest)
            } else {
                or_else(
                    indexed(*t, beside(*p, *q), rest),
                    or_else(
                        offset(*t, beside(*p, *q), rest),
                        computed(*t, operand(Two::IADD, *p, *q)),
                    ),
                )
            }
        }
        Op::Out(port, p) => {
            if is_spare(*p) {
                Some((1, Used::Sent(*port)))
            } else {
                None
            }
        }
        Op::Load(t, q) => loaded(1, None, *t, *q),
        Op::Store(q, a) => stored(1, None, *q, *a),
        _ => None,
    }
}

/// How many operations there are that use a known word in register 8.
fn count_used(rest: &[Node<Where>]) -> u32
    ensures { result ≡ count (used_by (nodes rest.now)) }
{
    let Some((x, after)) = rest.split_first() else {
        return 0;
    };
    match x {
        Node::Do(o) => match used_by_op(o, after) {
            Some((k, _)) => k,
            None => 0,
        },
        _ => 0,
    }
}

/// Whether an operation puts a known word into register 8.
fn puts(o: &Op<Where>) -> bool
    ensures { result ≡ first_puts (op_before o.now Stop) }
{
    match o {
        Op::Const(t, _) => is_spare(*t),
        Op::Global(t, _) => is_spare(*t),
        _ => false,
    }
}

/// How many operations behind one are done with it since it does.
fn group(o: &Op<Where>, rest: &[Node<Where>]) -> u32
    ensures { result ≡ group_behind (op_before o.now Stop) (nodes rest.now) }
{
    if puts(o) { count_used(rest) } else { 0 }
}

/// Whether none of some places is register 8.
fn are_others(ps: &[Where]) -> bool
    ensures { result ≡ are_others ps.now }
{
    for p in ps {
        if is_spare(*p) {
            return false;
        }
    }
    true
}

fn is_other(p: Option<Where>) -> bool
    ensures { result ≡ are_others (maybe p) }
{
    match p {
        Some(p) => !is_spare(p),
        None => true,
    }
}

fn are_other_uses(uses: &Uses<'_, Where>) -> bool
    ensures { result ≡ are_others (listed_uses uses.now) }
{
    match uses {
        Uses::Nothing => true,
        Uses::One(a) => !is_spare(*a),
        Uses::Two(a, b) => !is_spare(*a) && !is_spare(*b),
        Uses::All(args) => are_others(args),
    }
}

/// Whether none of the places that an operation or a call reads is register 8.
fn reads_others(o: &Op<Where>) -> bool
    ensures { result ≡ are_others (node_uses (op_before o.now Stop)) }
{
    are_other_uses(&o.uses())
}

/// Where an operation reads no register 8, or so many operations in front are done already: how many of those behind it are done.
#[tactic(auto, using(crate::proofs::Sparing::op_spares))]
fn op_spares(o: &Op<Where>, rest: &[Node<Where>], done: u32) -> Option<u32>
    ensures { spares (op_before o.now (nodes rest.now)) done ≡ spares_from result (nodes rest.now) }
{
    if is_call(o) {
        if reads_others(o) { Some(0) } else { None }
    } else if done == 0 {
        if reads_others(o) {
            Some(group(o, rest))
        } else {
            None
        }
    } else {
        Some(done - 1)
    }
}

/// The same of a node.
#[cycle(sparing)]
fn node_spares(x: &Node<Where>, rest: &[Node<Where>], done: u32) -> Option<u32>
    ensures { spares (before (node x.now) (nodes rest.now)) done ≡ spares_from result (nodes rest.now) }
{
    match x {
        Node::Do(o) => op_spares(o, rest, done),
        Node::Choose(p, a, b) => {
            if !is_spare(*p) && spares(a.as_slice()) && spares(b.as_slice()) {
                Some(0)
            } else {
                None
            }
        }
        Node::Block(b) => { if spares(b.as_slice()) { Some(0) } else { None } }
        Node::Loop(b) => { if spares(b.as_slice()) { Some(0) } else { None } }
        Node::Leave(_) => Some(0),
        Node::Again(_) => Some(0),
        Node::Return(p) => { if is_other(*p) { Some(0) } else { None } }
    }
}

/// Whether nodes read register 8 only where a known word was just put there.
#[cycle(sparing)]
fn spares(xs: &[Node<Where>]) -> bool
    ensures { result ≡ spares (nodes xs.now) 0 }
{
    let mut done: u32 = 0;
    let mut rest = xs;
    for x in xs {
        rest = behind(rest);
        match node_spares(x, rest, done) {
            Some(more) => done = more,
            None => return false,
        }
    }
    true
}

/// How many registers, from the first one on, hold places between the operations of a body.
#[tactic(auto, unfolding(asm_laws::specs::Spare::held_registers))]
fn held_registers(body: &[Node<Where>]) -> u32
    ensures { result ≡ held_registers (nodes body.now) }
{
    if spares(body) { 8 } else { 9 }
}

/// The same of each function.
pub(crate) fn held_by_each(alloc: Global, functions: &[Function<Where>]) -> Result<Vec<u32>, Memory>
    ensures { IfOk result (λ v. v.items ≡ held_all (map function functions.now)) }
{
    let mut each = Vec::new(alloc);
    for f in functions {
        each.push(held_registers(f.body.as_slice()))?;
    }
    Ok(each)
}
