// Whether the runs of a function are settled.
ghost use Rattle.std.specs.Prelude.{◌≡◌, [], map, IfOk, OnOk};
ghost use Rattle.std.specs.List.{list_all};
ghost use Rattle.mid_code.specs.Functions.{function, node, listed};
ghost use Rattle.mid_code.specs.Operands.{listed_uses};
ghost use Rattle.mid_fold.specs.Lasting.{divides};
ghost use Rattle.mid_improve.specs.Settled.{is_zero, nodes_settled};
ghost use Rattle.mid_improve.specs.inner.Facts.{none_known, behind_maybe, is_no_copy};
ghost use Rattle.mid_improve.specs.inner.Listed.{one_settled, two_folds, op_known, op_settled, node_known, node_settled, list_settled};
ghost use Rattle.mid_improve.specs.inner.Tables.{facts};

use crate::table::Table;
use kit_base::Memory;
use mid_code::{Function, Node, Op, Uses};
use v32_isa::Two;

// ---- what is known behind a node

fn know_move(table: &mut Table, t: u32, a: u32) -> Result<(), Memory>
    ensures { OnOk result (facts table.new ≡ op_known (facts table.old) (Op.Move t a)) }
{
    table.change(t)?;
    if a == t {
        Ok(())
    } else {
        table.hold_copy(t, a)
    }
}

fn know_const(table: &mut Table, t: u32, word: u32) -> Result<(), Memory>
    ensures { OnOk result (facts table.new ≡ op_known (facts table.old) (Op.Const t word)) }
{
    table.change(t)?;
    table.hold_word(t, word)
}

fn know_target(table: &mut Table, t: Option<u32>) -> Result<(), Memory>
    ensures { OnOk result (facts table.new ≡ behind_maybe (facts table.old) t) }
{
    match t {
        Some(t) => table.change(t),
        None => Ok(()),
    }
}

fn know_op(table: &mut Table, o: &Op<u32>) -> Result<(), Memory>
    ensures { OnOk result (facts table.new ≡ op_known (facts table.old) o.now) }
{
    match o {
        Op::Const(t, word) => know_const(table, *t, *word),
        Op::Move(t, a) => know_move(table, *t, *a),
        _ => know_target(table, o.target()),
    }
}

/// Now the table has what is known behind a node.
pub(crate) fn know_node(table: &mut Table, n: &Node<u32>) -> Result<(), Memory>
    ensures { OnOk result (facts table.new ≡ node_known (facts table.old) (node n.now)) }
{
    match n {
        Node::Do(o) => know_op(table, o),
        Node::Choose(_, _, _) => table.clear(),
        Node::Block(_) => table.clear(),
        Node::Loop(_) => table.clear(),
        Node::Leave(_) => table.clear(),
        Node::Again(_) => table.clear(),
        Node::Return(_) => table.clear(),
    }
}

// ---- whether a node is settled

fn is_no_copy(table: &Table, q: u32) -> bool
    ensures { result ≡ is_no_copy (facts table.now) q }
{
    !table.source(q).is_some()
}

fn are_no_copies(table: &Table, qs: &[u32]) -> bool
    ensures { result ≡ list_all (is_no_copy (facts table.now)) qs.now }
{
    qs.iter().all(|q| is_no_copy(table, *q))
}

pub(crate) fn divides(o: Two) -> bool
    ensures { result ≡ divides o }
{
    match o {
        Two::IEQ => false,
        Two::INE => false,
        Two::IGT => false,
        Two::IGE => false,
        Two::ILT => false,
        Two::ILE => false,
        Two::AND => false,
        Two::OR => false,
        Two::XOR => false,
        Two::SHL => false,
        Two::IADD => false,
        Two::ISUB => false,
        Two::IMUL => false,
        Two::IDIV => true,
        Two::IMOD => true,
        Two::IMIN => false,
        Two::IMAX => false,
    }
}

fn is_zero(word: Option<u32>) -> bool
    ensures { result ≡ is_zero word }
{
    match word {
        None => false,
        Some(word) => word == 0,
    }
}

/// Whether an operator can be worked out, from the words that are known.
fn two_folds(division: bool, x: Option<u32>, y: Option<u32>) -> bool
    ensures { result ≡ two_folds division x y }
{
    x.is_some() && (y.is_some() && !(division && is_zero(y)))
}

fn is_one_settled(table: &Table, a: u32) -> bool
    ensures { result ≡ one_settled (facts table.now) a }
{
    !table.word(a).is_some() && are_no_copies(table, &[a])
}

fn is_two_settled(table: &Table, o: Two, t: u32, a: u32, b: u32) -> bool
    ensures { result ≡ op_settled (facts table.now) (Op.Two o t a b) }
{
    let _ = t;
    !two_folds(divides(o), table.word(a), table.word(b)) && are_no_copies(table, &[a, b])
}

fn reads_no_copies(table: &Table, uses: &Uses<'_, u32>) -> bool
    ensures { result ≡ list_all (is_no_copy (facts table.now)) (listed_uses uses.now) }
{
    match uses {
        Uses::Nothing => true,
        Uses::One(a) => are_no_copies(table, &[*a]),
        Uses::Two(a, b) => are_no_copies(table, &[*a, *b]),
        Uses::All(arguments) => are_no_copies(table, arguments),
    }
}

fn is_op_settled(table: &Table, o: &Op<u32>) -> bool
    ensures { result ≡ op_settled (facts table.now) o.now }
{
    match o {
        Op::One(_, _, a) => is_one_settled(table, *a),
        Op::Two(o, t, a, b) => is_two_settled(table, *o, *t, *a, *b),
        _ => reads_no_copies(table, &o.uses()),
    }
}

#[cycle(settled)]
fn is_node_settled(table: &mut Table, n: &Node<u32>) -> Result<bool, Memory>
    ensures settled { IfOk result (λ b. b ≡ node_settled (facts table.old) (node n.now)) }
    ensures known { node_known (facts table.new) (node n.now) ≡ node_known (facts table.old) (node n.now) }
{
    match n {
        Node::Do(o) => Ok(is_op_settled(table, o)),
        Node::Choose(_, a, b) => {
            if !are_nodes_settled(table, a.as_slice())? {
                return Ok(false);
            }
            are_nodes_settled(table, b.as_slice())
        }
        Node::Block(b) => are_nodes_settled(table, b.as_slice()),
        Node::Loop(b) => are_nodes_settled(table, b.as_slice()),
        Node::Leave(_) => Ok(true),
        Node::Again(_) => Ok(true),
        Node::Return(_) => Ok(true),
    }
}

/// Whether the runs of nodes are settled. What the table had is gone.
#[cycle(settled)]
fn are_nodes_settled(table: &mut Table, ns: &[Node<u32>]) -> Result<bool, Memory>
    ensures { IfOk result (λ b. b ≡ list_settled none_known (listed (map node ns.now))) }
{
    table.clear()?;
    for n in ns {
        if !is_node_settled(table, n)? {
            return Ok(false);
        }
        know_node(table, n)?;
    }
    Ok(true)
}

/// Whether in the runs of a function's nodes no operator is left whose words are known, and no operand that is a copy. What the table had is gone. The
/// error is want of memory.
pub(crate) fn are_runs_settled(table: &mut Table, f: &Function<u32>) -> Result<bool, Memory>
    ensures { IfOk result (λ b. b ≡ nodes_settled [] (function f.now).body) }
{
    let settled = are_nodes_settled(table, f.body.as_slice())?;
    Ok(settled)
}
