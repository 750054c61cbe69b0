// Nodes with the words of some locals in temporaries.
ghost use Rattle.std.specs.Prelude.{◌≡◌, IfOk, OnOk, Some, None, map, cond, [], ◌++◌};
ghost use Rattle.std.specs.Option.{option_map};
ghost use Rattle.mid_code.specs.Functions.{node, listed};
ghost use Rattle.mid_replace.specs.inner.Replaced.{replaced, some_node};
ghost use Rattle.mid_replace.specs.inner.Tables.{plan_in, HasRoom};
ghost use Rattle.mid_replace.specs.inner.Loops.{asking};
ghost use Rattle.mid_replace.specs.inner.Onto.{onto, op_onto, asking_onto, node_onto};

use crate::asking::{asking_loop, asks};
use crate::fact::{Fact, is_plain};
use crate::notes::{Note, add_note, fact, is_maybe_plain, may_be_made, note_maybe};
use crate::table::Table;
use crate::turn::{fine, made, stands};
use kit_base::{Memory, Seq};
use mid_code::{Node, Op};
use std::alloc::Global;

fn push_op(out: &mut Vec<Node<u32>>, o: Option<Op<u32>>) -> Result<(), Memory>
    ensures { OnOk result (map node out.new.items ≡ map node out.old.items ++ some_node o) }
{
    if let Some(o) = o {
        out.push(Node::Do(o))?;
    }
    Ok(())
}

/// Puts what stands for an operation behind those that stand already, where the operation may stand there.
fn replace_op(
    alloc: Global,
    table: &Table,
    notes: &mut Vec<Note>,
    out: &mut Vec<Node<u32>>,
    o: &Op<u32>,
) -> Result<bool, Memory>
    requires room { HasRoom table.now }
    ensures { IfOk result (λ b. cond b (Some (onto (map node out.new.items) notes.new.items)) None
        ≡ op_onto (plan_in table.now) (map node out.old.items) notes.old.items o.now) }
{
    if !fine(table, notes.as_slice(), o) {
        return Ok(false);
    }
    let made = made(table, notes.as_slice(), o);
    if !may_be_made(table, made) {
        return Ok(false);
    }
    let stands = stands(alloc, table, notes.as_slice(), o)?;
    push_op(out, stands)?;
    note_maybe(notes, made)?;
    Ok(true)
}

/// The same for a loop that only asks.
fn replace_asking(
    alloc: Global,
    table: &Table,
    notes: &mut Vec<Note>,
    out: &mut Vec<Node<u32>>,
    t: u32,
) -> Result<bool, Memory>
    ensures { IfOk result (λ b. cond b (Some (onto (map node out.new.items) notes.new.items)) None
        ≡ asking_onto (plan_in table.now) (map node out.old.items) notes.old.items (asking t) t) }
{
    if !is_plain(fact(table, notes.as_slice(), t)) {
        return Ok(false);
    }
    let turns = asking_loop(alloc, t)?;
    out.push(turns)?;
    add_note(notes, t, Fact::Plain)?;
    Ok(true)
}

#[cycle(replace)]
#[tactic(auto, using(crate::proofs::Walking::asks_done))]
fn replace_node(
    alloc: Global,
    table: &Table,
    notes: &mut Vec<Note>,
    out: &mut Vec<Node<u32>>,
    n: &Node<u32>,
) -> Result<bool, Memory>
    requires room { HasRoom table.now }
    ensures { IfOk result (λ b. cond b (Some (onto (map node out.new.items) notes.new.items)) None
        ≡ node_onto (plan_in table.now) (map node out.old.items) notes.old.items (node n.now)) }
{
    match n {
        Node::Do(o) => return replace_op(alloc, table, notes, out, o),
        Node::Choose(p, a, b) => {
            if !is_plain(fact(table, notes.as_slice(), *p)) {
                return Ok(false);
            }
            let Some(first) = replace_nodes(alloc, table, a.as_slice())? else {
                return Ok(false);
            };
            let Some(second) = replace_nodes(alloc, table, b.as_slice())? else {
                return Ok(false);
            };
            out.push(Node::Choose(*p, Seq::from_vec(first), Seq::from_vec(second)))?;
        }
        Node::Block(b) => {
            let Some(inside) = replace_nodes(alloc, table, b.as_slice())? else {
                return Ok(false);
            };
            out.push(Node::Block(Seq::from_vec(inside)))?;
        }
        Node::Loop(b) => {
            if let Some(t) = asks(b.as_slice()) {
                return replace_asking(alloc, table, notes, out, t);
            }
            let Some(inside) = replace_nodes(alloc, table, b.as_slice())? else {
                return Ok(false);
            };
            out.push(Node::Loop(Seq::from_vec(inside)))?;
        }
        Node::Leave(k) => out.push(Node::Leave(*k))?,
        Node::Again(k) => out.push(Node::Again(*k))?,
        Node::Return(p) => {
            if !is_maybe_plain(table, notes.as_slice(), *p) {
                return Ok(false);
            }
            out.push(Node::Return(*p))?;
        }
    }
    notes.clear();
    Ok(true)
}

/// The nodes that stand for these, where they may stand there.
#[cycle(replace)]
pub(crate) fn replace_nodes(
    alloc: Global,
    table: &Table,
    ns: &[Node<u32>],
) -> Result<Option<Vec<Node<u32>>>, Memory>
    requires room { HasRoom table.now }
    ensures { IfOk result (λ r. option_map (λ v. map node v.items) r ≡ replaced (plan_in table.now) [] (listed (map node ns.now))) }
{
    let mut found = Vec::new(alloc);
    let mut notes = Vec::new(alloc);
    for n in ns {
        if !replace_node(alloc, table, &mut notes, &mut found, n)? {
            return Ok(None);
        }
    }
    Ok(Some(found))
}
