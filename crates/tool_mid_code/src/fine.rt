// Whether nodes are those of mid code.
ghost use Rattle.std.specs.Prelude.{◌≡◌, ℕ, ◌<◌, ◌^◌, length, map, Some};
ghost use Rattle.std.specs.Bool.{OnTrue};
ghost use Rattle.mid_code.specs.Code.{NodesT, maybe};
ghost use Rattle.mid_code.specs.Functions.{op_before, node, nodes, before};
ghost use Rattle.mid_code.specs.Invariants.{AllOf, IsCall};
ghost use Rattle.mid_code.specs.View.{code};
ghost use Rattle.tool_mid_code.specs.Fine.{Fine};

use mid_code::{Code, Node, Op};

fn all_below(xs: &[u32], temps: u32) -> bool
    ensures { OnTrue result (AllOf (λ t. t < temps) xs.now) }
{
    for x in xs {
        if *x >= temps {
            return false;
        }
    }
    true
}

fn maybe_below(x: &Option<u32>, temps: u32) -> bool
    ensures { OnTrue result (AllOf (λ t. t < temps) (maybe x.now)) }
{
    match x {
        Some(x) => *x < temps,
        None => true,
    }
}

fn is_word(w: u32) -> bool
    ensures { OnTrue result (w < 2 ^ 32) }
{
    w <= u32::MAX
}

fn call_fits(of: &Code<u32>, function: u32, args: &[u32]) -> bool
    ensures { OnTrue result (IsCall (code of.now) function args.now) }
{
    match of.functions.as_slice().get(function as usize) {
        Some(g) => g.params.as_slice().len() == args.len(),
        None => false,
    }
}

fn op_fine(o: &Op<u32>, of: &Code<u32>, temps: u32, locals: u32) -> bool
    ensures { OnTrue result ((c : NodesT ℕ) → Fine (code of.now) temps locals c → Fine (code of.now) temps locals (op_before o.now c)) }
{
    match o {
        Op::Const(t, w) => *t < temps && is_word(*w),
        Op::Null(t) => *t < temps,
        Op::Move(t, a) => *t < temps && *a < temps,
        Op::One(_, _, _) => false,
        Op::Two(_, t, a, b) => *t < temps && *a < temps && *b < temps,
        Op::Global(_, _) => false,
        Op::Local(t, k) => *t < temps && *k < locals,
        Op::Literal(_, _) => false,
        Op::Card(t) => *t < temps,
        Op::Step(t, p, n) => *t < temps && *p < temps && *n < temps,
        Op::Apart(t, p, q) => *t < temps && *p < temps && *q < temps,
        Op::PtrTest(_, _, _, _) => false,
        Op::Load(t, p) => *t < temps && *p < temps,
        Op::Store(p, a) => *p < temps && *a < temps,
        Op::Fresh(k) => *k < locals,
        Op::End(k) => *k < locals,
        Op::Call(t, function, args) => maybe_below(t, temps)
            && all_below(args.as_slice(), temps)
            && call_fits(of, *function, args.as_slice()),
        Op::In(_, _) => false,
        Op::Out(_, _) => false,
        Op::Wait => true,
        Op::Halt => true,
    }
}

#[cycle(fine)]
fn node_fine(n: &Node<u32>, of: &Code<u32>, temps: u32, locals: u32) -> bool
    ensures { OnTrue result ((c : NodesT ℕ) → Fine (code of.now) temps locals c → Fine (code of.now) temps locals (before (node n.now) c)) }
{
    match n {
        Node::Do(o) => op_fine(o, of, temps, locals),
        Node::Choose(p, a, b) => *p < temps
            && is_fine(a.as_slice(), of, temps, locals)
            && is_fine(b.as_slice(), of, temps, locals),
        Node::Block(_) => false,
        Node::Loop(_) => false,
        Node::Leave(_) => false,
        Node::Again(_) => false,
        Node::Return(p) => maybe_below(p, temps),
    }
}

/// Whether these are nodes without blocks and loops of a function with `temps` temporaries and `locals` locals of this code.
#[cycle(fine)]
pub fn is_fine(ns: &[Node<u32>], of: &Code<u32>, temps: u32, locals: u32) -> bool
    ensures { OnTrue result (Fine (code of.now) temps locals (nodes ns.now)) }
{
    let mut i = ns.len();
    while i > 0 {
        i -= 1;
        if !node_fine(&ns[i], of, temps, locals) {
            return false;
        }
    }
    true
}
