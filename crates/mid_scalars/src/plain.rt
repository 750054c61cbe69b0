// Which locals are plain.
ghost use Rattle.std.specs.Prelude.{◌≡◌, ◌<◌, ◌&&◌, ◌||◌, not, ℕ, false, cond, eqb, length, map, IfOk};
ghost use Rattle.mid_code.specs.Code.{Stop};
ghost use Rattle.mid_code.specs.Functions.{op_before, node, before, nodes, function};
ghost use Rattle.mid_code.specs.Invariants.{Names, IsTemporary};
ghost use Rattle.mid_scalars.specs.inner.Table.{all_nodes, flags};
ghost use Rattle.mid_scalars.specs.inner.Purposes.{fits, takes_by, role_at, role_of};
ghost use Rattle.mid_scalars.specs.inner.Flags.{flag_at};

use crate::roles::Role;
use kit_base::Memory;
use mid_code::{Function, Node, Op};
use std::alloc::Global;

/// Whether each size is one word.
fn of_one_word(alloc: Global, sizes: &[u32]) -> Result<Vec<bool>, Memory>
    ensures { IfOk result (λ r. r.items ≡ map (λ n. eqb n 1) sizes.now) }
{
    let mut found = Vec::new(alloc);
    for size in sizes {
        found.push(*size == 1)?;
    }
    Ok(found)
}

fn fits(local: u32, role: Role) -> bool
    ensures { result ≡ fits local role }
{
    match role {
        Role::Open => true,
        Role::AddressOf(other) => other == local,
        Role::Spoilt => false,
    }
}

pub(crate) fn role(roles: &[Role], t: u32) -> Role
    ensures { result ≡ role_at roles.now t }
{
    let i = t as usize;
    if i < roles.len() {
        roles[i]
    } else {
        Role::Open
    }
}

fn unflag(plain: &mut [bool], local: u32)
    ensures len { length plain.new ≡ length plain.old }
    ensures is { (k : ℕ) → k < length plain.old → flag_at plain.new k ≡ cond (eqb local k) false (flag_at plain.old k) }
{
    let i = local as usize;
    if i < plain.len() {
        plain[i] = false;
    }
}

/// A local is plain no more where its address goes to a temporary that is something else, too.
#[tactic(auto, using(crate::proofs::Flagging::unflagged, crate::proofs::Flagging::still_flagged))]
fn local_flags(plain: &mut [bool], roles: &[Role], t: u32, local: u32)
    ensures len { length plain.new ≡ length plain.old }
    ensures is { (k : ℕ) → k < length plain.old → flag_at plain.new k ≡ (flag_at plain.old k && (not (eqb local k) || fits k (role_at roles.now t))) }
{
    if !fits(local, role(roles, t)) {
        unflag(plain, local);
    }
}

#[tactic(auto, using(crate::proofs::Flagging::and_unit, crate::proofs::Flagging::and_units))]
fn op_flags(plain: &mut [bool], roles: &[Role], o: &Op<u32>)
    ensures len { length plain.new ≡ length plain.old }
    ensures is { (k : ℕ) → k < length plain.old
        → flag_at plain.new k ≡ (flag_at plain.old k && all_nodes (takes_by (role_at roles.now) k) (op_before o.now Stop)) }
{
    if let Op::Local(t, local) = o {
        local_flags(plain, roles, *t, *local);
    }
}

#[cycle(flags)]
#[tactic(auto, using(crate::proofs::Flagging::and_unit, crate::proofs::Flagging::and_two))]
fn node_flags(plain: &mut [bool], roles: &[Role], n: &Node<u32>)
    ensures len { length plain.new ≡ length plain.old }
    ensures is { (k : ℕ) → k < length plain.old
        → flag_at plain.new k ≡ (flag_at plain.old k && all_nodes (takes_by (role_at roles.now) k) (before (node n.now) Stop)) }
{
    match n {
        Node::Do(o) => op_flags(plain, roles, o),
        Node::Choose(_, a, b) => {
            nodes_flags(plain, roles, a.as_slice());
            nodes_flags(plain, roles, b.as_slice());
        }
        Node::Block(b) => nodes_flags(plain, roles, b.as_slice()),
        Node::Loop(b) => nodes_flags(plain, roles, b.as_slice()),
        Node::Leave(_) => {}
        Node::Again(_) => {}
        Node::Return(_) => {}
    }
}

#[cycle(flags)]
#[tactic(auto, using(crate::proofs::Flagging::flag_turn))]
fn nodes_flags(plain: &mut [bool], roles: &[Role], ns: &[Node<u32>])
    ensures len { length plain.new ≡ length plain.old }
    ensures is { (k : ℕ) → k < length plain.old → flag_at plain.new k ≡ (flag_at plain.old k && all_nodes (takes_by (role_at roles.now) k) (nodes ns.now)) }
{
    for n in ns {
        node_flags(plain, roles, n);
    }
}

/// Which locals of a function are plain, by the roles of its temporaries.
#[tactic(auto, using(crate::proofs::Flagging::flags_are))]
pub(crate) fn plain_of(
    alloc: Global,
    f: &Function<u32>,
    roles: &[Role],
) -> Result<Vec<bool>, Memory>
    requires names { Names (IsTemporary (function f.now)) (function f.now).body }
    requires roles { (y : ℕ) → y < (function f.now).temps → role_at roles.now y ≡ role_of (function f.now) y }
    ensures plain { IfOk result (λ r. r.items ≡ flags (function f.now)) }
{
    let mut plain = of_one_word(alloc, f.locals.as_slice())?;
    nodes_flags(plain.as_mut_slice(), roles, f.body.as_slice());
    Ok(plain)
}
