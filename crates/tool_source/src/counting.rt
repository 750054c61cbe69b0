// How large code is.
use mid_code::{Code, Function, Node, Op};

/// What code weighs, and how deep its nodes nest. Sums stop at the greatest number there is.
#[derive(Clone, Copy, Drop)]
pub struct Size {
    pub weight: u64,
    pub depth: u64,
}

fn both(a: Size, b: Size) -> Size {
    Size {
        weight: a.weight.saturating_add(b.weight),
        depth: std::cmp::max(a.depth, b.depth),
    }
}

/// A node over others.
fn over(inner: Size) -> Size {
    Size {
        weight: inner.weight.saturating_add(8),
        depth: inner.depth.saturating_add(1),
    }
}

fn op_size(o: &Op<u32>) -> Size {
    let weight = match o {
        Op::Fresh(_) => 0,
        Op::End(_) => 0,
        Op::Call(_, _, args) => (args.as_slice().len() as u64)
            .saturating_mul(4)
            .saturating_add(8),
        _ => 8,
    };
    Size { weight, depth: 0 }
}

#[cycle(sizes)]
fn node_size(x: &Node<u32>) -> Size {
    let leaf = Size {
        weight: 8,
        depth: 0,
    };
    match x {
        Node::Do(o) => op_size(o),
        Node::Choose(_, a, b) => over(both(nodes_size(a.as_slice()), nodes_size(b.as_slice()))),
        Node::Block(b) => over(nodes_size(b.as_slice())),
        Node::Loop(b) => over(nodes_size(b.as_slice())),
        Node::Leave(_) => leaf,
        Node::Again(_) => leaf,
        Node::Return(_) => leaf,
    }
}

#[cycle(sizes)]
fn nodes_size(xs: &[Node<u32>]) -> Size {
    let mut size = Size {
        weight: 0,
        depth: 0,
    };
    for x in xs {
        size = both(size, node_size(x));
    }
    size
}

fn function_size(f: &Function<u32>) -> Size {
    let inner = nodes_size(f.body.as_slice());
    Size {
        weight: inner.weight.saturating_add(16),
        depth: inner.depth,
    }
}

/// What a program weighs, as the definition of weight counts it, and the deepest nesting of nodes in a function.
pub fn size_of(code: &Code<u32>) -> Size {
    let mut size = nodes_size(code.start.body.as_slice());
    for f in code.functions.as_slice() {
        size = both(size, function_size(f));
    }
    size
}
