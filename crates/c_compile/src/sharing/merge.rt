// Operands moved to the places of targets and parameters, from the last node of each list to the first.
use crate::sharing::arguments::{Callees, merge_arguments};
use crate::sharing::operands::{can_turn, names_of, takes_place};
use crate::sharing::places::{maybe_stands, place};
use crate::sharing::upwards::{may_stand, op_at};
use mid_code::{Node, Op, Where};

pub(crate) fn is_single(single: &[bool], t: u32) -> bool {
    let i = t as usize;
    if i < single.len() { single[i] } else { false }
}

/// Whether both are registers or both slots, and not the same one.
pub(crate) fn can_go(from: Where, to: Where) -> bool {
    match (from, to) {
        (Where::Reg(k), Where::Reg(n)) => k != n,
        (Where::Slot(k), Where::Slot(n)) => k != n,
        (Where::Reg(_), Where::Slot(_)) => false,
        (Where::Slot(_), Where::Reg(_)) => false,
    }
}

pub(crate) fn put(at: &mut [Where], t: u32, r: Where) {
    let i = t as usize;
    if i < at.len() {
        at[i] = r;
    }
}

/// The place of the target, where the operand, whose other one is given, may stand there too.
fn place_for(
    at: &[Where],
    ns: &[Node<u32>],
    i: usize,
    target: Option<u32>,
    operand: u32,
    other: Option<u32>,
) -> Option<Where> {
    let to = place(at, target?)?;
    let from = place(at, operand)?;
    if can_go(from, to) && !maybe_stands(at, other, to) && may_stand(at, ns, i, operand, to) {
        Some(to)
    } else {
        None
    }
}

/// An operand that is single, and the place of the target, which it takes.
fn operand_to_move(
    single: &[bool],
    at: &[Where],
    ns: &[Node<u32>],
    i: usize,
    target: Option<u32>,
    operand: Option<u32>,
    other: Option<u32>,
) -> Option<(u32, Where)> {
    let a = operand?;
    if is_single(single, a) {
        Some((a, place_for(at, ns, i, target, a, other)?))
    } else {
        None
    }
}

fn is_in_register(at: &[Where], a: u32) -> bool {
    match place(at, a) {
        Some(Where::Reg(_)) => true,
        Some(Where::Slot(_)) => false,
        None => false,
    }
}

/// Whether the node before i puts a number into b.
fn is_number(ns: &[Node<u32>], i: usize, b: u32) -> bool {
    if i == 0 {
        return false;
    }
    match op_at(ns, i - 1) {
        Some(Op::Const(t, _)) => *t == b,
        _ => false,
    }
}

/// Whether the emitter works with the second operand as a number, where that is put into the target's register right before, and the first one stands
/// in another.
fn takes_number(at: &[Where], ns: &[Node<u32>], i: usize, o: &Op<u32>) -> bool {
    match o {
        Op::Two(_, _, a, b) => is_in_register(at, *a) && is_number(ns, i, *b),
        _ => false,
    }
}

fn is_in_spare(at: &[Where], t: u32) -> bool {
    match place(at, t) {
        Some(Where::Reg(r)) => r == 8,
        Some(Where::Slot(_)) => false,
        None => false,
    }
}

fn makes_spare(at: &[Where], t: Option<u32>) -> bool {
    match t {
        Some(t) => is_in_spare(at, t),
        None => false,
    }
}

/// Where the address of a load, in register 8, is the sum right before of a pointer and a word there: the pointer, and the place of the load's target, which
/// it takes.
fn pointer_to_move(
    single: &[bool],
    at: &[Where],
    ns: &[Node<u32>],
    i: usize,
    y: u32,
    p: u32,
) -> Option<(u32, Where)> {
    if i == 0 {
        return None;
    }
    let Some(Op::Step(t, a, b)) = op_at(ns, i - 1) else {
        return None;
    };
    if *t != p {
        return None;
    }
    let x = if is_in_spare(at, *b) { *a } else { *b };
    operand_to_move(single, at, ns, i - 1, Some(y), Some(x), None)
}

/// The operand of an operation that takes the target's place: the first one, also of a load, or the second one where the operation works as well on
/// its operands the
/// other way round, or with that one as a number. None takes register 8 where that is spare, and the pointer inside a load's address takes the place of
/// the load's target.
fn move_of(
    single: &[bool],
    at: &[Where],
    ns: &[Node<u32>],
    i: usize,
    o: &Op<u32>,
    spares: bool,
) -> Option<(u32, Where)> {
    let of = names_of(o);
    if !takes_place(o) || (spares && makes_spare(at, of.target)) {
        return None;
    }
    if let Op::Load(y, p) = o {
        if spares && is_in_spare(at, *p) {
            return pointer_to_move(single, at, ns, i, *y, *p);
        }
    }
    match operand_to_move(single, at, ns, i, of.target, of.first, of.second) {
        Some(found) => Some(found),
        None => {
            if can_turn(o) || takes_number(at, ns, i, o) {
                operand_to_move(single, at, ns, i, of.target, of.second, of.first)
            } else {
                None
            }
        }
    }
}

fn merge_at(single: &[bool], at: &mut [Where], ns: &[Node<u32>], i: usize, callees: Callees) {
    if let Some(o) = op_at(ns, i) {
        if let Some((a, to)) = move_of(single, at, ns, i, o, callees.spares) {
            put(at, a, to);
        }
        merge_arguments(single, at, ns, i, o, callees);
    }
}

#[cycle(merge)]
fn merge_inside(single: &[bool], at: &mut [Where], n: &Node<u32>, callees: Callees) {
    match n {
        Node::Do(_) => {}
        Node::Choose(_, a, b) => {
            merge_nodes(single, at, a.as_slice(), callees);
            merge_nodes(single, at, b.as_slice(), callees);
        }
        Node::Block(b) => merge_nodes(single, at, b.as_slice(), callees),
        Node::Loop(b) => merge_nodes(single, at, b.as_slice(), callees),
        Node::Leave(_) => {}
        Node::Again(_) => {}
        Node::Return(_) => {}
    }
}

/// Moves first operands to the places of targets, and arguments to those of parameters, in the nodes and in those inside them.
#[cycle(merge)]
pub(crate) fn merge_nodes(single: &[bool], at: &mut [Where], ns: &[Node<u32>], callees: Callees) {
    let mut i = ns.len();
    while i > 0 {
        i -= 1;
        merge_at(single, at, ns, i, callees);
        merge_inside(single, at, &ns[i], callees);
    }
}
