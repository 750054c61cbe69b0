// How often temporaries are targets and how often they are used.
use crate::sharing::operands::names_of;
use kit_base::Memory;
use mid_code::{Function, Node, Op};
use std::alloc::Global;

/// How often a temporary is a target or a parameter, and how often it is used; and how often it is named, where eight times as much counts what stands in one
/// loop more. A count stands still at its type's end.
#[derive(Clone, Copy)]
pub(crate) struct Count {
    pub(crate) made: u32,
    pub(crate) used: u32,
    pub(crate) weight: u32,
}

/// The counts, and how much counts what stands here.
#[derive(Drop)]
struct Counter<'a> {
    counts: &'a mut [Count],
    weight: u32,
}

fn make(counter: &mut Counter<'_>, t: u32) {
    let i = t as usize;
    if i < counter.counts.len() {
        let count = counter.counts[i];
        counter.counts[i] = Count {
            made: count.made.saturating_add(1),
            used: count.used,
            weight: count.weight.saturating_add(counter.weight),
        };
    }
}

fn make_all(counter: &mut Counter<'_>, ts: &[u32]) {
    for t in ts {
        make(counter, *t);
    }
}

fn make_maybe(counter: &mut Counter<'_>, t: Option<u32>) {
    if let Some(t) = t {
        make(counter, t);
    }
}

fn take(counter: &mut Counter<'_>, t: u32) {
    let i = t as usize;
    if i < counter.counts.len() {
        let count = counter.counts[i];
        counter.counts[i] = Count {
            made: count.made,
            used: count.used.saturating_add(1),
            weight: count.weight.saturating_add(counter.weight),
        };
    }
}

fn take_all(counter: &mut Counter<'_>, ts: &[u32]) {
    for t in ts {
        take(counter, *t);
    }
}

fn take_maybe(counter: &mut Counter<'_>, t: Option<u32>) {
    if let Some(t) = t {
        take(counter, t);
    }
}

fn count_op(counter: &mut Counter<'_>, o: &Op<u32>) {
    let of = names_of(o);
    make_maybe(counter, of.target);
    take_maybe(counter, of.first);
    take_maybe(counter, of.second);
    if let Op::Call(_, _, arguments) = o {
        take_all(counter, arguments.as_slice());
    }
}

#[cycle(counting)]
fn count_node(counter: &mut Counter<'_>, n: &Node<u32>) {
    match n {
        Node::Do(o) => count_op(counter, o),
        Node::Choose(p, a, b) => {
            take(counter, *p);
            count_nodes(counter, a.as_slice());
            count_nodes(counter, b.as_slice());
        }
        Node::Block(b) => count_nodes(counter, b.as_slice()),
        Node::Loop(b) => {
            let around = counter.weight;
            counter.weight = around.saturating_mul(8);
            count_nodes(counter, b.as_slice());
            counter.weight = around;
        }
        Node::Leave(_) => {}
        Node::Again(_) => {}
        Node::Return(p) => take_maybe(counter, *p),
    }
}

#[cycle(counting)]
fn count_nodes(counter: &mut Counter<'_>, ns: &[Node<u32>]) {
    for n in ns {
        count_node(counter, n);
    }
}

/// Of each temporary how often it is a target or a parameter, and how often it is used.
pub(crate) fn counts(alloc: Global, f: &Function<u32>) -> Result<Vec<Count>, Memory> {
    let none = Count {
        made: 0,
        used: 0,
        weight: 0,
    };
    let mut counts = Vec::from_elem(alloc, none, f.temps as usize)?;
    let mut counter = Counter {
        counts: counts.as_mut_slice(),
        weight: 1,
    };
    make_all(&mut counter, f.params.as_slice());
    count_nodes(&mut counter, f.body.as_slice());
    Ok(counts)
}

/// Of each temporary whether it is single: a target once and used once, and no parameter.
pub(crate) fn singles(alloc: Global, counts: &[Count]) -> Result<Vec<bool>, Memory> {
    let mut found = Vec::new(alloc);
    for count in counts {
        found.push(count.made == 1 && count.used == 1)?;
    }
    Ok(found)
}
