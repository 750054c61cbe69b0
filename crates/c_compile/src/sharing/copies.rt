// Copies between registers that a choice spares, where a target stands in the register of what it copies, or an argument in that of its parameter.
use crate::sharing::arguments::{Callees, place_of};
use crate::sharing::merge::{is_single, put};
use crate::sharing::operands::{names_of, works_in_place};
use crate::sharing::places::place;
use crate::sharing::singles::Count;
use kit_base::Memory;
use mid_code::{Function, Node, Op, Where};
use std::alloc::Global;

/// At most so many are looked at in a function.
const MOST_COPIES: usize = 24;

/// What should stand at one place: the target of an operation with the first operand that it works on; or an argument at a register.
#[derive(Clone, Copy)]
pub(crate) enum Wish {
    Together(u32, u32),
    In(u32, u32),
}

/// Whether a function has a local of two to four words, whose words may be held in temporaries.
pub(crate) fn has_pair(f: &Function<u32>) -> bool {
    for size in f.locals.as_slice() {
        if *size >= 2 && *size <= 4 {
            return true;
        }
    }
    false
}

fn add(wishes: &mut Vec<Wish>, w: Wish) -> Result<(), Memory> {
    if wishes.len() < MOST_COPIES {
        wishes.push(w)?;
    }
    Ok(())
}

fn add_arguments(
    wishes: &mut Vec<Wish>,
    at: &[Where],
    g: u32,
    arguments: &[u32],
    callees: Callees<'_>,
) -> Result<(), Memory> {
    let mut k = 0;
    for a in arguments {
        if let Some(Where::Reg(r)) = place_of(callees, at, g, k) {
            add(wishes, Wish::In(*a, r))?;
        }
        k = k.saturating_add(1);
    }
    Ok(())
}

fn add_op(
    wishes: &mut Vec<Wish>,
    at: &[Where],
    o: &Op<u32>,
    callees: Callees<'_>,
) -> Result<(), Memory> {
    if let Op::Call(_, g, arguments) = o {
        return add_arguments(wishes, at, *g, arguments.as_slice(), callees);
    }
    if !works_in_place(o) {
        return Ok(());
    }
    let of = names_of(o);
    if let (Some(t), Some(a)) = (of.target, of.first) {
        add(wishes, Wish::Together(t, a))?;
    }
    Ok(())
}

#[cycle(wishing)]
fn add_node(
    wishes: &mut Vec<Wish>,
    at: &[Where],
    n: &Node<u32>,
    callees: Callees<'_>,
) -> Result<(), Memory> {
    match n {
        Node::Do(o) => add_op(wishes, at, o, callees),
        Node::Choose(_, a, b) => {
            add_nodes(wishes, at, a.as_slice(), callees)?;
            add_nodes(wishes, at, b.as_slice(), callees)
        }
        Node::Block(b) => add_nodes(wishes, at, b.as_slice(), callees),
        Node::Loop(b) => add_nodes(wishes, at, b.as_slice(), callees),
        Node::Leave(_) => Ok(()),
        Node::Again(_) => Ok(()),
        Node::Return(_) => Ok(()),
    }
}

#[cycle(wishing)]
fn add_nodes(
    wishes: &mut Vec<Wish>,
    at: &[Where],
    ns: &[Node<u32>],
    callees: Callees<'_>,
) -> Result<(), Memory> {
    for n in ns {
        add_node(wishes, at, n, callees)?;
    }
    Ok(())
}

/// What should stand together in a function, in the order of its operations.
pub(crate) fn wishes_of(
    alloc: Global,
    f: &Function<u32>,
    at: &[Where],
    callees: Callees<'_>,
) -> Result<Vec<Wish>, Memory> {
    let mut wishes = Vec::new(alloc);
    add_nodes(&mut wishes, at, f.body.as_slice(), callees)?;
    Ok(wishes)
}

/// The register of a place, but not register 8, which may be spare.
fn register_of(at: &[Where], t: u32) -> Option<u32> {
    match place(at, t)? {
        Where::Reg(r) => { if r < 8 { Some(r) } else { None } }
        Where::Slot(_) => None,
    }
}

/// Whether a wish stands open: both are registers, and differ.
pub(crate) fn is_open(at: &[Where], w: Wish) -> bool {
    match w {
        Wish::Together(t, a) => match (register_of(at, t), register_of(at, a)) {
            (Some(q), Some(r)) => q != r,
            _ => false,
        },
        Wish::In(a, r) => match register_of(at, a) {
            Some(q) => q != r && r < 8,
            None => false,
        },
    }
}

/// Whether a temporary that is named stands in a register.
fn is_taken(counts: &[Count], at: &[Where], r: u32) -> bool {
    for i in 0..at.len() {
        if i < counts.len() && counts[i].weight > 0 && at[i] == Where::Reg(r) {
            return true;
        }
    }
    false
}

/// A register below 8 in which no temporary stands that is named.
fn unused(counts: &[Count], at: &[Where]) -> Option<u32> {
    for r in 0..8 {
        if !is_taken(counts, at, r) {
            return Some(r);
        }
    }
    None
}

/// All that stands at one register goes to another.
fn rename(at: &mut [Where], from: u32, to: u32) {
    for w in at {
        if *w == Where::Reg(from) {
            *w = Where::Reg(to);
        }
    }
}

/// The places in which a wish is met in the first way: the target goes to the register of its operand, the argument to its register.
pub(crate) fn first_way(
    alloc: Global,
    single: &[bool],
    given: &[Where],
    w: Wish,
) -> Result<Option<Vec<Where>>, Memory> {
    let mut at = given.to_vec(alloc)?;
    match w {
        Wish::Together(t, a) => {
            let Some(r) = register_of(given, a) else {
                return Ok(None);
            };
            if !is_single(single, t) {
                return Ok(None);
            }
            put(at.as_mut_slice(), t, Where::Reg(r));
        }
        Wish::In(a, r) => put(at.as_mut_slice(), a, Where::Reg(r)),
    }
    Ok(Some(at))
}

/// The same in the second way: the operand goes to the register of the target; what stands at the argument's register goes to an unused one before.
pub(crate) fn second_way(
    alloc: Global,
    counts: &[Count],
    single: &[bool],
    given: &[Where],
    w: Wish,
) -> Result<Option<Vec<Where>>, Memory> {
    let mut at = given.to_vec(alloc)?;
    match w {
        Wish::Together(t, a) => {
            let Some(r) = register_of(given, t) else {
                return Ok(None);
            };
            if !is_single(single, a) {
                return Ok(None);
            }
            put(at.as_mut_slice(), a, Where::Reg(r));
        }
        Wish::In(a, r) => {
            let Some(free) = unused(counts, given) else {
                return Ok(None);
            };
            rename(at.as_mut_slice(), r, free);
            put(at.as_mut_slice(), a, Where::Reg(r));
        }
    }
    Ok(Some(at))
}

/// How many wishes are open.
pub(crate) fn open_wishes(at: &[Where], wishes: &[Wish]) -> usize {
    let mut count: usize = 0;
    for w in wishes {
        if is_open(at, *w) {
            count = count.saturating_add(1);
        }
    }
    count
}
