// Code with its plain locals in temporaries.
ghost use Rattle.std.specs.Prelude.{◌≡◌, ◌≤◌, ◌++◌, None, Some, IfOk, OnOk, map, length, get_or, false};
ghost use Rattle.mid_code.specs.Functions.{node, listed};
ghost use Rattle.mid_scalars.specs.inner.Purposes.{kind_by, role_at};
ghost use Rattle.mid_scalars.specs.inner.Rewriting.{addressed, op_by, some_node, node_by, list_by, number_in, plan_by};

use crate::plain::role;
use crate::roles::Role;
use crate::table::Table;
use kit_base::{Memory, Seq};
use mid_code::{Node, Op};
use std::alloc::Global;

fn is_plain(table: &Table, local: u32) -> bool
    ensures { result ≡ get_or table.now.plain.items local false }
{
    let i = local as usize;
    if i < table.plain.len() {
        table.plain[i]
    } else {
        false
    }
}

fn number(table: &Table, local: u32) -> u32
    requires fits { table.now.kept ≤ length table.now.numbers.items }
    ensures { result ≡ number_in table.now.numbers.items table.now.kept local }
{
    let i = local as usize;
    if i < table.numbers.len() {
        table.numbers[i]
    } else {
        table.kept + (local - table.numbers.len() as u32)
    }
}

/// The plain local whose address the temporary is.
fn address(table: &Table, p: u32) -> Option<u32>
    ensures { result ≡ addressed (kind_by table.now.plain.items (role_at table.now.roles.items p)) }
{
    match role(table.roles.as_slice(), p) {
        Role::Open => None,
        Role::AddressOf(local) => {
            if is_plain(table, local) {
                Some(local)
            } else {
                None
            }
        }
        Role::Spoilt => None,
    }
}

fn load(table: &Table, t: u32, p: u32) -> Op<u32>
    requires fits { table.now.kept ≤ length table.now.numbers.items }
    ensures { Some result ≡ op_by (plan_by table.now) None (Op.Load t p) }
{
    match address(table, p) {
        Some(local) => Op::Move(t, number(table, local)),
        None => Op::Load(t, p),
    }
}

fn store(table: &Table, p: u32, a: u32) -> Op<u32>
    requires fits { table.now.kept ≤ length table.now.numbers.items }
    ensures { Some result ≡ op_by (plan_by table.now) None (Op.Store p a) }
{
    match address(table, p) {
        Some(local) => Op::Move(number(table, local), a),
        None => Op::Store(p, a),
    }
}

/// The operation that stands for one, where one does.
fn promote_op(alloc: Global, table: &Table, o: &Op<u32>) -> Result<Option<Op<u32>>, Memory>
    requires fits { table.now.kept ≤ length table.now.numbers.items }
    ensures { IfOk result (λ r. r ≡ op_by (plan_by table.now) None o.now) }
{
    Ok(match o {
        Op::Local(t, k) => {
            if is_plain(table, *k) {
                None
            } else {
                Some(Op::Local(*t, number(table, *k)))
            }
        }
        Op::Load(t, p) => Some(load(table, *t, *p)),
        Op::Store(p, a) => Some(store(table, *p, *a)),
        Op::Fresh(k) => {
            if is_plain(table, *k) {
                None
            } else {
                Some(Op::Fresh(number(table, *k)))
            }
        }
        Op::End(k) => {
            if is_plain(table, *k) {
                None
            } else {
                Some(Op::End(number(table, *k)))
            }
        }
        _ => Some(o.copied(alloc)?),
    })
}

fn push_op(out: &mut Vec<Node<u32>>, o: Option<Op<u32>>) -> Result<(), Memory>
    ensures { OnOk result (map node out.new.items ≡ map node out.old.items ++ some_node o) }
{
    if let Some(o) = o {
        out.push(Node::Do(o))?;
    }
    Ok(())
}

#[cycle(promote)]
fn promote_node(
    alloc: Global,
    table: &Table,
    out: &mut Vec<Node<u32>>,
    n: &Node<u32>,
) -> Result<(), Memory>
    requires fits { table.now.kept ≤ length table.now.numbers.items }
    ensures { OnOk result (map node out.new.items ≡ map node out.old.items ++ node_by (plan_by table.now) None (node n.now)) }
{
    match n {
        Node::Do(o) => push_op(out, promote_op(alloc, table, o)?)?,
        Node::Choose(p, a, b) => {
            let first = promote_nodes(alloc, table, a.as_slice())?;
            let second = promote_nodes(alloc, table, b.as_slice())?;
            out.push(Node::Choose(*p, Seq::from_vec(first), Seq::from_vec(second)))?;
        }
        Node::Block(b) => {
            let inside = promote_nodes(alloc, table, b.as_slice())?;
            out.push(Node::Block(Seq::from_vec(inside)))?;
        }
        Node::Loop(b) => {
            let inside = promote_nodes(alloc, table, b.as_slice())?;
            out.push(Node::Loop(Seq::from_vec(inside)))?;
        }
        Node::Leave(k) => out.push(Node::Leave(*k))?,
        Node::Again(k) => out.push(Node::Again(*k))?,
        Node::Return(p) => out.push(Node::Return(*p))?,
    }
    Ok(())
}

/// The nodes that stand for these.
#[cycle(promote)]
pub(crate) fn promote_nodes(
    alloc: Global,
    table: &Table,
    ns: &[Node<u32>],
) -> Result<Vec<Node<u32>>, Memory>
    requires fits { table.now.kept ≤ length table.now.numbers.items }
    ensures { IfOk result (λ r. map node r.items ≡ list_by (plan_by table.now) None (listed (map node ns.now))) }
{
    let mut found = Vec::new(alloc);
    for n in ns {
        promote_node(alloc, table, &mut found, n)?;
    }
    Ok(found)
}
