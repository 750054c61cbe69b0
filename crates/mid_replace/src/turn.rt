// What becomes of an operation or a call.
ghost use Rattle.std.specs.Prelude.{◌≡◌, IfOk, OnOk, Some, true, map, ◌++◌};
ghost use Rattle.std.specs.Option.{option_map};
ghost use Rattle.mid_code.specs.Functions.{node};
ghost use Rattle.mid_replace.specs.inner.Facts.{fact_at, Plain, note};
ghost use Rattle.mid_replace.specs.inner.Replaced.{is_access, turn_of, or_move, unless_hidden, some_node};
ghost use Rattle.mid_replace.specs.inner.Tables.{plan_in, HasRoom};

use crate::fact::{Fact, is_plain, is_step, step_fact};
use crate::notes::{Note, are_plain, fact};
use crate::table::{Table, is_access, is_held, variable};
use kit_base::Memory;
use mid_code::Op;
use std::alloc::Global;

/// Whether the operands are what they have to be.
#[tactic(auto, using(crate::proofs::Turning::call_fine))]
pub(crate) fn fine(table: &Table, notes: &[Note], o: &Op<u32>) -> bool
    ensures { result ≡ (turn_of (plan_in table.now) (fact_at (plan_in table.now).base notes.now) o.now).fine }
{
    match o {
        Op::One(_, _, a) => is_plain(fact(table, notes, *a)),
        Op::Two(_, _, a, b) => is_plain(fact(table, notes, *a)) && is_plain(fact(table, notes, *b)),
        Op::Step(_, p, n) => is_step(fact(table, notes, *p), fact(table, notes, *n)),
        Op::Apart(_, p, q) => is_plain(fact(table, notes, *p)) && is_plain(fact(table, notes, *q)),
        Op::PtrTest(_, _, p, q) => is_plain(fact(table, notes, *p))
            && is_plain(fact(table, notes, *q)),
        Op::Load(_, p) => is_access(table, fact(table, notes, *p)),
        Op::Store(p, a) => is_access(table, fact(table, notes, *p))
            && is_plain(fact(table, notes, *a)),
        Op::Out(_, a) => is_plain(fact(table, notes, *a)),
        Op::Call(_, _, args) => are_plain(table, notes, args.as_slice()),
        _ => true,
    }
}

fn plain_note(target: Option<u32>) -> Option<Note>
    ensures { result ≡ option_map (λ t. note t Plain) target }
{
    match target {
        Some(temp) => Some(Note {
            temp,
            fact: Fact::Plain,
        }),
        None => None,
    }
}

/// What is known of the target behind it.
#[tactic(auto, using(crate::proofs::Turning::call_made))]
pub(crate) fn made(table: &Table, notes: &[Note], o: &Op<u32>) -> Option<Note>
    ensures { result ≡ (turn_of (plan_in table.now) (fact_at (plan_in table.now).base notes.now) o.now).made }
{
    match o {
        Op::Const(t, n) => Some(Note {
            temp: *t,
            fact: Fact::Word(*n),
        }),
        Op::Move(t, a) => Some(Note {
            temp: *t,
            fact: fact(table, notes, *a),
        }),
        Op::Local(t, k) => {
            let held = is_held(table, *k);
            Some(Note {
                temp: *t,
                fact: if held {
                    Fact::Place(*k, 0)
                } else {
                    Fact::Plain
                },
            })
        }
        Op::Step(t, p, n) => {
            let stepped = step_fact(fact(table, notes, *p), fact(table, notes, *n));
            Some(Note {
                temp: *t,
                fact: stepped,
            })
        }
        _ => plain_note(o.target()),
    }
}

/// The operation, unless what it makes is known to be such an address, or is not known.
fn unless_hidden(made: Fact, o: Op<u32>) -> Option<Op<u32>>
    ensures { result ≡ unless_hidden made o }
{
    match made {
        Fact::Plain => Some(o),
        Fact::Word(_) => Some(o),
        Fact::Place(_, _) => None,
        Fact::Any => None,
    }
}

fn load(table: &Table, pointer: Fact, t: u32, p: u32) -> Op<u32>
    requires room { HasRoom table.now }
    requires access { is_access (plan_in table.now) pointer ≡ true }
    ensures { result ≡ or_move pointer (Op.Load t p) (λ k w. Op.Move t ((plan_in table.now).variable k w)) }
{
    match pointer {
        Fact::Plain => Op::Load(t, p),
        Fact::Word(_) => Op::Load(t, p),
        Fact::Place(local, offset) => Op::Move(t, variable(table, local, offset)),
        Fact::Any => Op::Load(t, p),
    }
}

fn store(table: &Table, pointer: Fact, p: u32, a: u32) -> Op<u32>
    requires room { HasRoom table.now }
    requires access { is_access (plan_in table.now) pointer ≡ true }
    ensures { result ≡ or_move pointer (Op.Store p a) (λ k w. Op.Move ((plan_in table.now).variable k w) a) }
{
    match pointer {
        Fact::Plain => Op::Store(p, a),
        Fact::Word(_) => Op::Store(p, a),
        Fact::Place(local, offset) => Op::Move(variable(table, local, offset), a),
        Fact::Any => Op::Store(p, a),
    }
}

/// The operation that stands for one that may stand there, where one does.
#[tactic(auto, using(crate::proofs::Turning::call_stands, crate::proofs::Turning::store_access))]
pub(crate) fn stands(
    alloc: Global,
    table: &Table,
    notes: &[Note],
    o: &Op<u32>,
) -> Result<Option<Op<u32>>, Memory>
    requires room { HasRoom table.now }
    requires fine { (turn_of (plan_in table.now) (fact_at (plan_in table.now).base notes.now) o.now).fine ≡ true }
    ensures { IfOk result (λ r. r ≡ (turn_of (plan_in table.now) (fact_at (plan_in table.now).base notes.now) o.now).stands) }
{
    Ok(match o {
        Op::Move(t, a) => unless_hidden(fact(table, notes, *a), Op::Move(*t, *a)),
        Op::Local(t, k) => {
            if is_held(table, *k) {
                None
            } else {
                Some(Op::Local(*t, *k))
            }
        }
        Op::Step(t, p, n) => {
            let made = step_fact(fact(table, notes, *p), fact(table, notes, *n));
            unless_hidden(made, Op::Step(*t, *p, *n))
        }
        Op::Load(t, p) => Some(load(table, fact(table, notes, *p), *t, *p)),
        Op::Store(p, a) => Some(store(table, fact(table, notes, *p), *p, *a)),
        _ => Some(o.copied(alloc)?),
    })
}
