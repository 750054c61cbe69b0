// Which candidates cannot be held.
use crate::asking::asks;
use crate::fact::{Fact, is_step};
use crate::masks::known_mask;
use crate::notes::{Note, add_note, fact, note_maybe};
use crate::table::{Table, is_access};
use crate::turn::made;
use kit_base::Memory;
use mid_code::{Function, Node, Op, Uses};
use std::alloc::Global;

/// A table and the candidates whose address each temporary may hold.
#[derive(Clone, Copy)]
pub(crate) struct Guess<'a> {
    pub(crate) table: &'a Table,
    pub(crate) masks: &'a [u32],
}

/// Those that are lost where an operand has to be plain.
fn plain_lost(by: Guess<'_>, notes: &[Note], a: u32) -> u32 {
    known_mask(by.masks, fact(by.table, notes, a), a)
}

/// Those that are lost at an access.
fn access_lost(by: Guess<'_>, notes: &[Note], p: u32) -> u32 {
    let pointer = fact(by.table, notes, p);
    if is_access(by.table, pointer) {
        0
    } else {
        known_mask(by.masks, pointer, p)
    }
}

/// Those that are lost where a plain pointer is stepped.
fn step_lost(by: Guess<'_>, notes: &[Note], p: u32, n: u32) -> u32 {
    let known = fact(by.table, notes, n);
    if is_step(fact(by.table, notes, p), known) {
        0
    } else {
        known_mask(by.masks, known, n)
    }
}

fn all_lost(by: Guess<'_>, notes: &[Note], temporaries: &[u32]) -> u32 {
    let mut lost = 0;
    for t in temporaries {
        lost = lost | plain_lost(by, notes, *t);
    }
    lost
}

fn uses_lost(by: Guess<'_>, notes: &[Note], uses: &Uses<'_, u32>) -> u32 {
    match uses {
        Uses::Nothing => 0,
        Uses::One(a) => plain_lost(by, notes, *a),
        Uses::Two(a, b) => plain_lost(by, notes, *a) | plain_lost(by, notes, *b),
        Uses::All(args) => all_lost(by, notes, args),
    }
}

fn op_lost(by: Guess<'_>, notes: &[Note], o: &Op<u32>) -> u32 {
    match o {
        Op::Move(_, _) => 0,
        Op::Step(_, p, n) => step_lost(by, notes, *p, *n),
        Op::Load(_, p) => access_lost(by, notes, *p),
        Op::Store(p, a) => access_lost(by, notes, *p) | plain_lost(by, notes, *a),
        _ => uses_lost(by, notes, &o.uses()),
    }
}

#[cycle(lost)]
fn node_lost(
    alloc: Global,
    by: Guess<'_>,
    notes: &mut Vec<Note>,
    n: &Node<u32>,
) -> Result<u32, Memory> {
    let lost = match n {
        Node::Do(o) => {
            let lost = op_lost(by, notes.as_slice(), o);
            let made = made(by.table, notes.as_slice(), o);
            note_maybe(notes, made)?;
            return Ok(lost);
        }
        Node::Choose(p, a, b) => {
            let first = nodes_lost(alloc, by, a.as_slice())?;
            let second = nodes_lost(alloc, by, b.as_slice())?;
            plain_lost(by, notes.as_slice(), *p) | first | second
        }
        Node::Block(b) => nodes_lost(alloc, by, b.as_slice())?,
        Node::Loop(b) => {
            if let Some(t) = asks(b.as_slice()) {
                let lost = plain_lost(by, notes.as_slice(), t);
                add_note(notes, t, Fact::Plain)?;
                return Ok(lost);
            }
            nodes_lost(alloc, by, b.as_slice())?
        }
        Node::Leave(_) => 0,
        Node::Again(_) => 0,
        Node::Return(p) => match p {
            Some(p) => plain_lost(by, notes.as_slice(), *p),
            None => 0,
        },
    };
    notes.clear();
    Ok(lost)
}

#[cycle(lost)]
fn nodes_lost(alloc: Global, by: Guess<'_>, ns: &[Node<u32>]) -> Result<u32, Memory> {
    let mut notes = Vec::new(alloc);
    let mut lost = 0;
    for n in ns {
        let more = node_lost(alloc, by, &mut notes, n)?;
        lost = lost | more;
    }
    Ok(lost)
}

/// The candidates that some node of the function does not let be held.
pub(crate) fn lost_in(alloc: Global, by: Guess<'_>, f: &Function<u32>) -> Result<u32, Memory> {
    nodes_lost(alloc, by, f.body.as_slice())
}
