// Addresses and known words where they are used: an operation that puts one into a temporary is held back, past operations that neither touch the
// temporary nor put anything into those that the address is made of.
ghost use Rattle.std.specs.Prelude.{◌≡◌, ℕ, ◌<◌, ◌-◌, ◌&&◌, ◌||◌, not, cond, None, Some, IfSome, map, length, get_or};
ghost use Rattle.std.specs.List.{list_all, swap};
ghost use Rattle.mid_code.specs.declared.node.Node.{Node};
ghost use Rattle.mid_code.specs.Code.{GlobalO, StepO, maybe};
ghost use Rattle.mid_code.specs.Functions.{function, listed, node};
ghost use Rattle.mid_code.specs.Operands.{op_uses, op_target, listed_uses};
ghost use Rattle.mid_code.specs.Whole.{mid};
ghost use Rattle.mid_improve.specs.ImprovedFrom.{IsNoWorseFrom};
ghost use Rattle.mid_improve.specs.declared.sinking.Walk.TheVariants as walk;
ghost use Rattle.mid_improve.specs.inner.Sinking.{hides, fixes, stops, sunk_function};
ghost use Rattle.mid_improve.specs.inner.SinkListed.{free_op, held_of, free_in, apart_in, goes_in, stops_in, node_op, plain_op};
ghost use Rattle.mid_improve.specs.inner.SinkListed.{passes, held_at, node_sunk, list_sunk};

use kit_base::Seq;
use mid_code::laws::mid_code_is_sound;
use mid_code::{Code, Function, Mid, Node, Op, Uses};
use std::alloc::Global;
use std::mem;
use v32_isa::Two;

/// What a walk over the code holds back: addresses of globals and then those that are made of them; known words and addresses of globals; or these alone.
#[derive(Clone, Copy)]
pub(crate) enum Walk {
    Addresses,
    Words,
    Globals,
}

/// An operation that may be done later: it puts a word into a temporary, or the address of a global, or the second temporary moved on by the third.
#[derive(Clone, Copy)]
pub(crate) enum Free {
    Const(u32, u32),
    Global(u32, u32),
    Step(u32, u32, u32),
}

/// Whether it is the temporary that has not taken its cell yet.
fn hides(f: Free, q: u32) -> bool
    ensures { result ≡ hides (Some (free_op f)) q }
{
    match f {
        Free::Const(t, _) => q == t,
        Free::Global(t, _) => q == t,
        Free::Step(t, _, _) => q == t,
    }
}

/// Whether the temporary keeps its cell as long as the operation is held back.
fn fixes(f: Free, q: u32) -> bool
    ensures { result ≡ fixes (Some (free_op f)) q }
{
    match f {
        Free::Const(t, _) => q == t,
        Free::Global(t, _) => q == t,
        Free::Step(t, p, n) => q == t || (q == p || q == n),
    }
}

fn all_show(f: Free, qs: &[u32]) -> bool
    ensures { result ≡ list_all (λ q. not (hides (Some (free_op f)) q)) qs.now }
{
    qs.iter().all(|q| !hides(f, *q))
}

fn uses_show(f: Free, uses: &Uses<'_, u32>) -> bool
    ensures { result ≡ list_all (λ q. not (hides (Some (free_op f)) q)) (listed_uses uses.now) }
{
    match uses {
        Uses::Nothing => true,
        Uses::One(a) => all_show(f, &[*a]),
        Uses::Two(a, b) => all_show(f, &[*a, *b]),
        Uses::All(arguments) => all_show(f, arguments),
    }
}

fn none_fixed(f: Free, qs: &[u32]) -> bool
    ensures { result ≡ list_all (λ q. not (fixes (Some (free_op f)) q)) qs.now }
{
    qs.iter().all(|q| !fixes(f, *q))
}

fn target_is_open(f: Free, t: Option<u32>) -> bool
    ensures { result ≡ list_all (λ q. not (fixes (Some (free_op f)) q)) (maybe t) }
{
    match t {
        None => true,
        Some(t) => none_fixed(f, &[t]),
    }
}

/// Whether what an operation reads has its cell, and its target need not keep one.
fn apart(f: Free, o: &Op<u32>) -> bool
    ensures { result ≡ (list_all (λ q. not (hides (Some (free_op f)) q)) (op_uses o.now)
        && list_all (λ q. not (fixes (Some (free_op f)) q)) (maybe (op_target o.now))) }
{
    uses_show(f, &o.uses()) && target_is_open(f, o.target())
}

fn is_op_apart(f: Free, o: &Op<u32>) -> bool
    ensures { result ≡ apart_in (free_op f) (plain_op o.now) }
{
    match o {
        Op::Call(_, _, _) => false,
        _ => apart(f, o),
    }
}

/// Whether the node is an operation, but no call, that is apart from the one held back.
fn is_apart(f: Free, n: &Node<u32>) -> bool
    ensures { result ≡ apart_in (free_op f) (node_op (node n.now)) }
{
    match n {
        Node::Do(o) => is_op_apart(f, o),
        Node::Choose(_, _, _) => false,
        Node::Block(_) => false,
        Node::Loop(_) => false,
        Node::Leave(_) => false,
        Node::Again(_) => false,
        Node::Return(_) => false,
    }
}

fn known_word(h: Option<Free>, o: &Op<u32>) -> Option<Free>
    ensures { held_of result ≡ free_in walk.Words (held_of h) (plain_op o.now) }
{
    match o {
        Op::Const(t, word) => Some(Free::Const(*t, *word)),
        Op::Global(t, number) => Some(Free::Global(*t, *number)),
        _ => None,
    }
}

fn known_address(h: Option<Free>, o: &Op<u32>) -> Option<Free>
    ensures { held_of result ≡ free_in walk.Globals (held_of h) (plain_op o.now) }
{
    match o {
        Op::Global(t, number) => Some(Free::Global(*t, *number)),
        _ => None,
    }
}

fn first_address(o: &Op<u32>) -> Option<Free>
    ensures { held_of result ≡ free_in walk.Addresses None (plain_op o.now) }
{
    match o {
        Op::Global(t, number) => Some(Free::Global(*t, *number)),
        _ => None,
    }
}

/// A step from the address of a global is held back unless it goes onto one of its own operands.
fn step(g: u32, number: u32, t: u32, p: u32, n: u32) -> Option<Free>
    ensures { held_of result ≡ free_in walk.Addresses (Some (GlobalO g number)) (Some (StepO t p n)) }
{
    if p == g && (p != t && n != t) {
        Some(Free::Step(t, p, n))
    } else {
        None
    }
}

fn next_address(g: u32, number: u32, o: &Op<u32>) -> Option<Free>
    ensures { held_of result ≡ free_in walk.Addresses (Some (GlobalO g number)) (plain_op o.now) }
{
    match o {
        Op::Step(t, p, n) => step(g, number, *t, *p, *n),
        _ => None,
    }
}

fn address(h: Option<Free>, o: &Op<u32>) -> Option<Free>
    ensures { held_of result ≡ free_in walk.Addresses (held_of h) (plain_op o.now) }
{
    match h {
        None => first_address(o),
        Some(Free::Const(_, _)) => None,
        Some(Free::Global(g, number)) => next_address(g, number, o),
        Some(Free::Step(_, _, _)) => None,
    }
}

fn free_of_op(w: Walk, h: Option<Free>, o: &Op<u32>) -> Option<Free>
    ensures { held_of result ≡ free_in w (held_of h) (plain_op o.now) }
{
    match w {
        Walk::Addresses => address(h, o),
        Walk::Words => known_word(h, o),
        Walk::Globals => known_address(h, o),
    }
}

/// The node as an operation that the walk holds back, where it is one, by what was held up to there.
fn free_of(w: Walk, h: Option<Free>, n: &Node<u32>) -> Option<Free>
    ensures { held_of result ≡ free_in w (held_of h) (node_op (node n.now)) }
{
    match n {
        Node::Do(o) => free_of_op(w, h, o),
        Node::Choose(_, _, _) => None,
        Node::Block(_) => None,
        Node::Loop(_) => None,
        Node::Leave(_) => None,
        Node::Again(_) => None,
        Node::Return(_) => None,
    }
}

/// Whether the address of a global is held no more before an operation: before a product, which may be an index that is worked out for an address alone.
fn stops_at(w: Walk, f: Free, o: &Op<u32>) -> bool
    ensures { result ≡ stops_in w (free_op f) (plain_op o.now) }
{
    match (w, f, o) {
        (Walk::Addresses, Free::Global(_, _), Op::Two(Two::IMUL, _, _, _)) => true,
        _ => false,
    }
}

fn stops(w: Walk, f: Free, n: &Node<u32>) -> bool
    ensures { result ≡ stops_in w (free_op f) (node_op (node n.now)) }
{
    match n {
        Node::Do(o) => stops_at(w, f, o),
        Node::Choose(_, _, _) => false,
        Node::Block(_) => false,
        Node::Loop(_) => false,
        Node::Leave(_) => false,
        Node::Again(_) => false,
        Node::Return(_) => false,
    }
}

/// Whether the operation is held behind the node still.
fn goes_on(w: Walk, f: Free, n: &Node<u32>) -> bool
    ensures { result ≡ goes_in w (free_op f) (node_op (node n.now)) }
{
    is_apart(f, n) && !stops(w, f, n)
}

/// What is held back behind the node at a place. Where one is held before it, that one stands before it; now it stands behind it, if it is still held.
/// A node before which the one that was held is done may be held back itself.
fn pass(w: Walk, ns: &mut [Node<u32>], i: usize, held: Option<Free>) -> Option<Free>
    requires there { i < length ns.old }
    requires behind { IfSome held (λ f. 0 < i) }
    ensures nodes { (d : Node ℕ) → ns.new ≡ cond (passes w (held_of held) (node_op (node (get_or ns.old i d)))) (swap ns.old (i - 1) i) ns.old }
    ensures held { (d : Node ℕ) → held_of result ≡ held_at w (held_of held) (node_op (node (get_or ns.old i d))) }
{
    match held {
        None => free_of(w, None, &ns[i]),
        Some(f) => {
            if goes_on(w, f, &ns[i]) {
                ns.swap(i - 1, i);
                Some(f)
            } else {
                free_of(w, Some(f), &ns[i])
            }
        }
    }
}

/// Walks through the nodes inside of the node.
#[cycle(sink)]
fn sink_inside(alloc: Global, w: Walk, n: &mut Node<u32>)
    ensures node { node n.new ≡ node_sunk w (node n.old) }
    ensures op { node_op (node n.new) ≡ node_op (node n.old) }
{
    match n {
        Node::Do(_) => {}
        Node::Choose(_, a, b) => {
            sink_list(alloc, w, a);
            sink_list(alloc, w, b);
        }
        Node::Block(b) => sink_list(alloc, w, b),
        Node::Loop(b) => sink_list(alloc, w, b),
        Node::Leave(_) => {}
        Node::Again(_) => {}
        Node::Return(_) => {}
    }
}

/// Puts what the walk holds back where it is used, among the nodes and inside of them.
#[cycle(sink)]
fn sink_nodes(alloc: Global, w: Walk, ns: &mut [Node<u32>])
    ensures { map node ns.new ≡ list_sunk w None (listed (map node ns.old)) }
{
    let mut held = None;
    for i in 0..ns.len() {
        sink_inside(alloc, w, &mut ns[i]);
        held = pass(w, ns, i, held);
    }
}

#[cycle(sink)]
fn sink_list(alloc: Global, w: Walk, b: &mut Seq<Node<u32>>)
    ensures { map node b.new ≡ list_sunk w None (listed (map node b.old)) }
{
    let mut ns = mem::replace(b, Seq::from_vec(Vec::new(alloc))).into_vec();
    sink_nodes(alloc, w, &mut ns);
    *b = Seq::from_vec(ns);
}

fn sink_function(alloc: Global, w: Walk, f: &mut Function<u32>)
    ensures { function f.new ≡ sunk_function w (function f.old) }
{
    sink_list(alloc, w, &mut f.body);
}

fn sink_functions(alloc: Global, w: Walk, fs: &mut Vec<Function<u32>>)
    ensures { map function fs.new.items ≡ map (sunk_function w) (map function fs.old.items) }
{
    for f in fs.iter_mut() {
        sink_function(alloc, w, f);
    }
}

/// The code in which each operation that the walk holds back stands behind those that are apart from it, at its first use.
fn sink_by(alloc: Global, w: Walk, m: Mid) -> Mid
    ensures sunk { IsNoWorseFrom (mid m) (mid result) }
{
    mid_code_is_sound(&m);
    let of = m.into_code();
    let mut start = of.start;
    sink_function(alloc, w, &mut start);
    let mut functions = of.functions.into_vec();
    sink_functions(alloc, w, &mut functions);
    Mid::new(Code {
        start,
        functions: Seq::from_vec(functions),
        globals: of.globals,
        literals: of.literals,
        main: of.main,
    })
}

#[cycle(addresses)]
fn has_address(n: &Node<u32>) -> bool {
    match n {
        Node::Do(Op::Global(_, _)) => true,
        Node::Do(_) => false,
        Node::Choose(_, a, b) => have_address(a.as_slice()) || have_address(b.as_slice()),
        Node::Block(b) => have_address(b.as_slice()),
        Node::Loop(b) => have_address(b.as_slice()),
        Node::Leave(_) => false,
        Node::Again(_) => false,
        Node::Return(_) => false,
    }
}

/// Whether the address of a global is taken in the nodes.
#[cycle(addresses)]
fn have_address(ns: &[Node<u32>]) -> bool {
    for n in ns {
        if has_address(n) {
            return true;
        }
    }
    false
}

fn takes_addresses(of: &Code<u32>) -> bool {
    for f in of.functions.as_slice() {
        if have_address(f.body.as_slice()) {
            return true;
        }
    }
    have_address(of.start.body.as_slice())
}

/// The code in which addresses and known words stand where they are used. Addresses come first, so that the address of a global goes to the address that is
/// made of it then; the last walk takes those addresses of globals further that stood before another word that was held back. Where no address of a global is
/// taken, these two walks would hold nothing back.
pub(crate) fn sink_words(alloc: Global, m: Mid) -> Mid
    ensures sunk { IsNoWorseFrom (mid m) (mid result) }
{
    if !takes_addresses(m.code()) {
        return sink_by(alloc, Walk::Words, m);
    }
    let addresses = sink_by(alloc, Walk::Addresses, m);
    let words = sink_by(alloc, Walk::Words, addresses);
    sink_by(alloc, Walk::Globals, words)
}
