// Forward propagation: copies are used as what they are copies of, and known words are worked out.
ghost use Rattle.std.specs.Prelude.{◌≡◌, ◌++◌, ◌∷◌, [], map, option_map, IfOk, OnOk};
ghost use Rattle.mid_code.specs.Functions.{function, listed, node};
ghost use Rattle.mid_code.specs.Whole.{mid};
ghost use Rattle.mid_improve.specs.inner.ForwardedFrom.{IsForwardedFrom};
ghost use Rattle.mid_improve.specs.inner.Forward.{serves, forwarded_function};
ghost use Rattle.mid_improve.specs.inner.ForwardListed.{or_word, or_known, op_word, op_forwarded, node_forwarded, list_forwarded};
ghost use Rattle.mid_improve.specs.inner.Facts.{none_known};
ghost use Rattle.mid_improve.specs.inner.Listed.{node_known};
ghost use Rattle.mid_improve.specs.inner.Tables.{facts};

use crate::runs::know_node;
use crate::table::Table;
use kit_base::{Memory, Seq};
use mid_code::laws::mid_code_is_sound;
use mid_code::{Code, Function, Mid, Node, Op, Stands};
use mid_fold::{one_known, two_known};
use std::alloc::Global;
use std::mem;

// ---- operands

fn serves(table: &Table, q: u32) -> u32
    ensures { result ≡ serves (facts table.now) q }
{
    match table.source(q) {
        None => q,
        Some(a) => a,
    }
}

fn serves_maybe(table: &Table, q: Option<u32>) -> Option<u32>
    ensures { result ≡ option_map (serves (facts table.now)) q }
{
    match q {
        None => None,
        Some(q) => Some(serves(table, q)),
    }
}

impl Stands<u32> for Table {
    ghost stands = { λ table q. serves (facts table) q };

    fn stands(&self, p: u32) -> u32 {
        serves(self, p)
    }
}

// ---- operations

/// Puts a constant in the place of an operation, where there is a word for it.
fn put_word(t: u32, o: &mut Op<u32>, word: Option<u32>)
    ensures { o.new ≡ or_word t o.old word }
{
    if let Some(word) = word {
        *o = Op::Const(t, word);
    }
}

/// The same where an operation has a target and may have a word.
fn put_known(known: Option<(u32, Option<u32>)>, o: &mut Op<u32>)
    ensures { o.new ≡ or_known known o.old }
{
    match known {
        None => {}
        Some((t, word)) => put_word(t, o, word),
    }
}

/// The target of an operation that can be worked out from words, and its word where those are known.
fn word_of(table: &Table, o: &Op<u32>) -> Option<(u32, Option<u32>)>
    ensures { result ≡ op_word (facts table.now) o.now }
{
    match o {
        Op::Move(t, a) => Some((*t, table.word(*a))),
        Op::One(by, t, a) => Some((*t, one_known(*by, table.word(*a)))),
        Op::Two(by, t, a, b) => Some((*t, two_known(*by, table.word(*a), table.word(*b)))),
        _ => None,
    }
}

/// Puts in the place of an operation the one that stands for it.
fn forward_op(alloc: Global, table: &Table, o: &mut Op<u32>)
    ensures { o.new ≡ op_forwarded (facts table.now) o.old }
{
    let known = word_of(table, &*o);
    o.replace_uses(alloc, table);
    put_known(known, o);
}

// ---- nodes

/// Puts in the place of a node the one that stands for it.
#[cycle(forward)]
fn forward_node(alloc: Global, table: &mut Table, n: &mut Node<u32>) -> Result<(), Memory>
    ensures node { OnOk result (node n.new ≡ node_forwarded (facts table.old) (node n.old)) }
    ensures known { OnOk result (node_known (facts table.new) (node n.new) ≡ node_known (facts table.old) (node n.new)) }
{
    match n {
        Node::Do(o) => {
            forward_op(alloc, &*table, o);
            Ok(())
        }
        Node::Choose(p, a, b) => {
            *p = serves(&*table, *p);
            forward_inside(alloc, table, a)?;
            forward_inside(alloc, table, b)
        }
        Node::Block(b) => forward_inside(alloc, table, b),
        Node::Loop(b) => forward_inside(alloc, table, b),
        Node::Leave(_) => Ok(()),
        Node::Again(_) => Ok(()),
        Node::Return(p) => {
            *p = serves_maybe(&*table, *p);
            Ok(())
        }
    }
}

/// Puts in the place of nodes those that stand for them. What the table had is gone.
#[cycle(forward)]
fn forward_nodes(alloc: Global, table: &mut Table, ns: &mut [Node<u32>]) -> Result<(), Memory>
    ensures { OnOk result (map node ns.new ≡ list_forwarded none_known (listed (map node ns.old))) }
{
    table.clear()?;
    for i in 0..ns.len() {
        forward_node(alloc, table, &mut ns[i])?;
        know_node(table, &ns[i])?;
    }
    Ok(())
}

/// The same of the nodes inside of a node, or of a function.
#[cycle(forward)]
fn forward_inside(alloc: Global, table: &mut Table, b: &mut Seq<Node<u32>>) -> Result<(), Memory>
    ensures { OnOk result (map node b.new ≡ list_forwarded none_known (listed (map node b.old))) }
{
    let mut ns = mem::replace(b, Seq::from_vec(Vec::new(alloc))).into_vec();
    forward_nodes(alloc, table, &mut ns)?;
    *b = Seq::from_vec(ns);
    Ok(())
}

/// Makes the function one in which no operator is left whose words are known, and no operand that is a copy. What the table had is gone. The error is want
/// of memory.
fn forward_function(alloc: Global, table: &mut Table, f: &mut Function<u32>) -> Result<(), Memory>
    ensures { OnOk result (function f.new ≡ forwarded_function (function f.old)) }
{
    forward_inside(alloc, table, &mut f.body)?;
    Ok(())
}

fn forward_functions(
    alloc: Global,
    table: &mut Table,
    fs: &mut Vec<Function<u32>>,
) -> Result<(), Memory>
    ensures { OnOk result (map function fs.new.items ≡ map forwarded_function (map function fs.old.items)) }
{
    for f in fs.iter_mut() {
        forward_function(alloc, table, f)?;
    }
    Ok(())
}

/// The code in which no operator is left whose words are known, and no operand that is a copy; each run is the same. The error is want of memory, and then
/// the code given is dropped.
pub(crate) fn forward_words(alloc: Global, m: Mid) -> Result<Mid, Memory>
    ensures forwarded { IfOk result (λ r. IsForwardedFrom (mid m) (mid r)) }
{
    mid_code_is_sound(&m);
    let of = m.into_code();
    let mut table = Table::none(alloc);
    let mut start = of.start;
    forward_function(alloc, &mut table, &mut start)?;
    let mut functions = of.functions.into_vec();
    forward_functions(alloc, &mut table, &mut functions)?;
    Ok(Mid::new(Code {
        start,
        functions: Seq::from_vec(functions),
        globals: of.globals,
        literals: of.literals,
        main: of.main,
    }))
}
