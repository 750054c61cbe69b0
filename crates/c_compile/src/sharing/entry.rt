// Parameters moved to the places of the locals that take them, at the front of a body.
use crate::sharing::merge::{can_go, is_single, put};
use crate::sharing::places::{mentions, place};
use crate::sharing::upwards::op_at;
use mid_code::{Node, Op, Where};

/// Whether a parameter but a stands at the place.
fn other_stands(at: &[Where], params: &[u32], a: u32, r: Where) -> bool {
    for p in params {
        if *p != a && place(at, *p) == Some(r) {
            return true;
        }
    }
    false
}

fn is_among(params: &[u32], a: u32) -> bool {
    for p in params {
        if *p == a {
            return true;
        }
    }
    false
}

/// Whether one of the first count nodes names what stands at the place.
fn named_before(at: &[Where], ns: &[Node<u32>], count: usize, r: Where) -> bool {
    for i in 0..count {
        match op_at(ns, i) {
            Some(o) => {
                if mentions(at, o, r) {
                    return true;
                }
            }
            None => return true,
        }
    }
    false
}

/// The place of the target of a move of a parameter, which the parameter takes.
fn place_of_param(
    single: &[bool],
    at: &[Where],
    params: &[u32],
    ns: &[Node<u32>],
    i: usize,
    o: &Op<u32>,
) -> Option<(u32, Where)> {
    let Op::Move(t, a) = o else { return None };
    let to = place(at, *t)?;
    let from = place(at, *a)?;
    if is_single(single, *a)
        && is_among(params, *a)
        && can_go(from, to)
        && !other_stands(at, params, *a, to)
        && !named_before(at, ns, i, to)
    {
        Some((*a, to))
    } else {
        None
    }
}

/// Moves parameters to the places of the locals that take them, in at most 64 operations at the front of the nodes. The answer is whether any was moved.
pub(crate) fn merge_params(
    single: &[bool],
    at: &mut [Where],
    params: &[u32],
    ns: &[Node<u32>],
) -> bool {
    let mut merged = false;
    for i in 0..64 {
        let Some(o) = op_at(ns, i) else { break };
        if let Some((a, to)) = place_of_param(single, at, params, ns, i, o) {
            put(at, a, to);
            merged = true;
        }
    }
    merged
}
