// Where a temporary is made, and whether it may be made at another place.
use crate::sharing::operands::{can_turn, names_of, works_in_place};
use crate::sharing::places::{maybe_stands, mentions};
use mid_code::{Node, Op, Where};

/// The operation that the node is, where it is one.
pub(crate) fn op_at(ns: &[Node<u32>], i: usize) -> Option<&Op<u32>> {
    match ns.get(i)? {
        Node::Do(o) => Some(o),
        Node::Choose(_, _, _) => None,
        Node::Block(_) => None,
        Node::Loop(_) => None,
        Node::Leave(_) => None,
        Node::Again(_) => None,
        Node::Return(_) => None,
    }
}

fn makes(o: &Op<u32>, a: u32) -> bool {
    match names_of(o).target {
        Some(t) => t == a,
        None => false,
    }
}

/// Whether the operation can make its target at the place: where it works on its target, its second operand must not stand there, unless it works as well
/// on its operands the other way round; then the first one must not.
fn can_make_at(at: &[Where], o: &Op<u32>, r: Where) -> bool {
    let of = names_of(o);
    !works_in_place(o)
        || !maybe_stands(at, of.second, r)
        || (can_turn(o) && !maybe_stands(at, of.first, r))
}

/// Whether a may stand at the place r from where it is made to the node i: it is made in the same list, at most 64 nodes before, only operations
/// stand between, and none of them names what stands at r.
pub(crate) fn may_stand(at: &[Where], ns: &[Node<u32>], i: usize, a: u32, r: Where) -> bool {
    let mut j = i;
    let mut left = 64;
    while j > 0 && left > 0 {
        j -= 1;
        left -= 1;
        let Some(o) = op_at(ns, j) else {
            return false;
        };
        if makes(o, a) {
            return can_make_at(at, o, r);
        }
        if mentions(at, o, r) {
            return false;
        }
    }
    false
}
