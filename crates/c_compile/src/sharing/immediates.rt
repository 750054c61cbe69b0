// Temporaries whose word can stand in the instruction that uses it (immediate operands), and addresses that are the sum of such a word and of another one.
use crate::sharing::operands::can_turn;
use crate::sharing::places::place;
use crate::sharing::singles::Count;
use crate::sharing::upwards::op_at;
use kit_base::Memory;
use mid_code::{Node, Op, Where};
use std::alloc::Global;

/// What is known of a function's temporaries before a look at its nodes: where each stands, and which were found to be immediate operands.
#[derive(Clone, Copy)]
struct Known<'a> {
    at: &'a [Where],
    words: &'a [bool],
}

fn is_in_register(at: &[Where], t: u32) -> bool {
    match place(at, t) {
        Some(Where::Reg(_)) => true,
        Some(Where::Slot(_)) => false,
        None => false,
    }
}

fn is_marked(flags: &[bool], t: u32) -> bool {
    let i = t as usize;
    i < flags.len() && flags[i]
}

fn count(found: &mut [u32], t: u32) {
    let i = t as usize;
    if i < found.len() {
        found[i] = found[i].saturating_add(1);
    }
}

/// The temporary into which an operation puts a word that is known.
fn word_put(o: &Op<u32>) -> Option<u32> {
    match o {
        Op::Const(t, _) => Some(*t),
        Op::Global(t, _) => Some(*t),
        _ => None,
    }
}

/// The other one of two operands, where just one of them is t.
fn other_than(t: u32, a: u32, b: u32) -> Option<u32> {
    if a == t && b != t {
        Some(b)
    } else if b == t && a != t {
        Some(a)
    } else {
        None
    }
}

/// Whether an operator with these operands can have the word in t inside it: as the second one, or as the first one of an operator that can be turned
/// round.
fn works_with(o: &Op<u32>, t: u32, a: u32, b: u32) -> bool {
    (b == t && a != t) || (a == t && b != t && can_turn(o))
}

/// Whether the operation can have the known word in t inside it.
fn takes_word(at: &[Where], o: &Op<u32>, t: u32) -> bool {
    match o {
        Op::Two(_, x, a, b) => is_in_register(at, *x) && works_with(o, t, *a, *b),
        Op::Step(x, p, n) => is_in_register(at, *x) && other_than(t, *p, *n).is_some(),
        Op::Load(x, p) => *p == t && is_in_register(at, *x),
        Op::Store(p, a) => *p == t && *a != t,
        Op::Out(_, a) => *a == t,
        _ => false,
    }
}

/// Counts the known word that is put at i and stands inside what comes next.
fn count_word(at: &[Where], ns: &[Node<u32>], i: usize, found: &mut [u32]) {
    let Some(o) = op_at(ns, i) else { return };
    let Some(t) = word_put(o) else { return };
    let Some(next) = op_at(ns, i.saturating_add(1)) else {
        return;
    };
    if is_in_register(at, t) && takes_word(at, next, t) {
        count(found, t);
    }
}

/// Whether a load or a store through x can have the address inside it, where q is what is added to a known word.
fn reaches(at: &[Where], o: &Op<u32>, x: u32, q: u32) -> bool {
    match o {
        Op::Load(y, p) => *p == x && *y != x && is_in_register(at, *y),
        Op::Store(p, a) => {
            *p == x && *a != x && (is_in_register(at, *a) || is_in_register(at, q))
        }
        _ => false,
    }
}

/// Counts the address that is made at i of a word that was put right before, in the same temporary or in one that is always such a word, and stands inside
/// what comes next.
fn count_address(known: Known, ns: &[Node<u32>], i: usize, found: &mut [u32]) {
    let Some(o) = op_at(ns, i) else { return };
    let Some(t) = word_put(o) else { return };
    let Some(Op::Step(x, p, n)) = op_at(ns, i.saturating_add(1)) else {
        return;
    };
    let Some(q) = other_than(t, *p, *n) else {
        return
    };
    let Some(next) = op_at(ns, i.saturating_add(2)) else {
        return;
    };
    if (is_marked(known.words, t) || *x == t) && *x != q && reaches(known.at, next, *x, q) {
        count(found, *x);
    }
}

fn count_at(known: Known, addresses: bool, ns: &[Node<u32>], i: usize, found: &mut [u32]) {
    if addresses {
        count_address(known, ns, i, found);
    } else {
        count_word(known.at, ns, i, found);
    }
}

#[cycle(counting)]
fn count_inside(known: Known, addresses: bool, n: &Node<u32>, found: &mut [u32]) {
    match n {
        Node::Do(_) => {}
        Node::Choose(_, a, b) => {
            count_nodes(known, addresses, a.as_slice(), found);
            count_nodes(known, addresses, b.as_slice(), found);
        }
        Node::Block(b) => count_nodes(known, addresses, b.as_slice(), found),
        Node::Loop(b) => count_nodes(known, addresses, b.as_slice(), found),
        Node::Leave(_) => {}
        Node::Again(_) => {}
        Node::Return(_) => {}
    }
}

#[cycle(counting)]
fn count_nodes(known: Known, addresses: bool, ns: &[Node<u32>], found: &mut [u32]) {
    let mut i = ns.len();
    while i > 0 {
        i -= 1;
        count_at(known, addresses, ns, i, found);
        count_inside(known, addresses, &ns[i], found);
    }
}

fn often(found: &[u32], i: usize) -> u32 {
    if i < found.len() { found[i] } else { 0 }
}

/// Those that were found, as words or as addresses, as often as they are made, and as often as they are used.
fn always(
    alloc: Global,
    counts: &[Count],
    words: &[u32],
    addresses: &[u32],
) -> Result<Vec<bool>, Memory> {
    let mut flags = Vec::new(alloc);
    let mut i: usize = 0;
    for count in counts {
        let found = often(words, i).saturating_add(often(addresses, i));
        flags.push(found > 0 && count.made == found && count.used == found)?;
        i = i.saturating_add(1);
    }
    Ok(flags)
}

/// The temporaries of nodes that are put, each time, right before the one operation that uses them and can stand inside it: known words, and addresses of
/// loads and stores that are the sum of such a word and of another one. One temporary may be both, where the sum goes where the word was.
pub(crate) fn immediates(
    alloc: Global,
    counts: &[Count],
    at: &[Where],
    ns: &[Node<u32>],
) -> Result<Vec<bool>, Memory> {
    let mut found = Vec::from_elem(alloc, 0, counts.len())?;
    let none = Known { at, words: &[] };
    count_nodes(none, false, ns, found.as_mut_slice());
    let words = always(alloc, counts, found.as_slice(), &[])?;
    let known = Known {
        at,
        words: words.as_slice(),
    };
    let mut sums = Vec::from_elem(alloc, 0, counts.len())?;
    count_nodes(known, true, ns, sums.as_mut_slice());
    always(alloc, counts, found.as_slice(), sums.as_slice())
}
