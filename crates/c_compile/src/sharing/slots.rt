// Which temporaries in slots are tried in registers.
use crate::sharing::singles::Count;
use mid_code::{Node, Op, Where};

#[cycle(calling)]
fn calls(n: &Node<u32>) -> bool {
    match n {
        Node::Do(Op::Call(_, _, _)) => true,
        Node::Do(_) => false,
        Node::Choose(_, a, b) => have_call(a.as_slice()) || have_call(b.as_slice()),
        Node::Block(b) => have_call(b.as_slice()),
        Node::Loop(b) => have_call(b.as_slice()),
        Node::Leave(_) => false,
        Node::Again(_) => false,
        Node::Return(_) => false,
    }
}

/// Whether a function is called in the nodes.
#[cycle(calling)]
pub(crate) fn have_call(ns: &[Node<u32>]) -> bool {
    for n in ns {
        if calls(n) {
            return true;
        }
    }
    false
}

fn is_slot(w: Where) -> bool {
    match w {
        Where::Slot(_) => true,
        Where::Reg(_) => false,
    }
}

pub(crate) fn has_slot(at: &[Where]) -> bool {
    for w in at {
        if is_slot(*w) {
            return true;
        }
    }
    false
}

/// Of the temporaries in slots, but for the given one, that of which most is named.
pub(crate) fn most_named(at: &[Where], counts: &[Count], other: Option<u32>) -> Option<u32> {
    let mut found = None;
    let mut most: u32 = 0;
    let mut t: u32 = 0;
    for count in counts {
        let i = t as usize;
        if i < at.len() && is_slot(at[i]) && other != Some(t) && count.weight > most {
            found = Some(t);
            most = count.weight;
        }
        t = t.saturating_add(1);
    }
    found
}
