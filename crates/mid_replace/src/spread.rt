// Which temporaries may hold addresses of candidates.
use crate::masks::{add_mask, bit, mask};
use kit_base::Memory;
use mid_code::{Function, Node, Op};
use std::alloc::Global;

fn is_candidate(held: &[bool], local: u32) -> bool {
    let i = local as usize;
    i < held.len() && held[i]
}

fn spread_op(masks: &mut [u32], held: &[bool], o: &Op<u32>) -> bool {
    match o {
        Op::Local(t, k) => is_candidate(held, *k) && add_mask(masks, *t, bit(*k)),
        Op::Move(t, a) => {
            let more = mask(masks, *a);
            add_mask(masks, *t, more)
        }
        Op::Step(t, p, _) => {
            let more = mask(masks, *p);
            add_mask(masks, *t, more)
        }
        _ => false,
    }
}

#[cycle(spread)]
fn spread_node(masks: &mut [u32], held: &[bool], n: &Node<u32>) -> bool {
    match n {
        Node::Do(o) => spread_op(masks, held, o),
        Node::Choose(_, a, b) => {
            let first = spread_nodes(masks, held, a.as_slice());
            let second = spread_nodes(masks, held, b.as_slice());
            first || second
        }
        Node::Block(b) => spread_nodes(masks, held, b.as_slice()),
        Node::Loop(b) => spread_nodes(masks, held, b.as_slice()),
        Node::Leave(_) => false,
        Node::Again(_) => false,
        Node::Return(_) => false,
    }
}

/// Whether something was new.
#[cycle(spread)]
fn spread_nodes(masks: &mut [u32], held: &[bool], ns: &[Node<u32>]) -> bool {
    let mut more = false;
    for n in ns {
        if spread_node(masks, held, n) {
            more = true;
        }
    }
    more
}

/// For each temporary the candidates whose address it may hold.
pub(crate) fn masks_of(
    alloc: Global,
    f: &Function<u32>,
    held: &[bool],
) -> Result<Vec<u32>, Memory> {
    let mut masks = Vec::new(alloc);
    masks.resize(f.temps as usize, 0)?;
    for _ in 0..8u32 {
        if !spread_nodes(masks.as_mut_slice(), held, f.body.as_slice()) {
            break;
        }
    }
    Ok(masks)
}

/// Whether each set has members.
pub(crate) fn are_some(alloc: Global, masks: &[u32]) -> Result<Vec<bool>, Memory> {
    let mut found = Vec::with_capacity(alloc, masks.len())?;
    for mask in masks {
        found.push(*mask != 0)?;
    }
    Ok(found)
}
