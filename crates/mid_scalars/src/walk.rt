// The roles of temporaries, found in one walk over the code.
ghost use Rattle.std.specs.Prelude.{◌≡◌, ◌<◌, ℕ, cond, eqb, length, IfOk};
ghost use Rattle.mid_code.specs.Code.{Stop, maybe};
ghost use Rattle.mid_code.specs.Functions.{op_before, node, before, nodes, function};
ghost use Rattle.mid_code.specs.Operands.{listed_uses};
ghost use Rattle.mid_scalars.specs.declared.roles.Role.TheVariants.{Open, Spoilt};
ghost use Rattle.mid_scalars.specs.inner.Purposes.{met, spoilt, role_in, role_of, role_at};

use crate::roles::Role;
use kit_base::Memory;
use mid_code::{Function, Node, Op, Uses};
use std::alloc::Global;

fn spoil(roles: &mut [Role], x: u32)
    ensures len { length roles.new ≡ length roles.old }
    ensures is { (y : ℕ) → y < length roles.old → role_at roles.new y ≡ cond (eqb x y) Spoilt (role_at roles.old y) }
{
    let i = x as usize;
    if i < roles.len() {
        roles[i] = Role::Spoilt;
    }
}

fn spoil_all(roles: &mut [Role], xs: &[u32])
    ensures len { length roles.new ≡ length roles.old }
    ensures is { (y : ℕ) → y < length roles.old → role_at roles.new y ≡ spoilt xs.now y (role_at roles.old y) }
{
    for x in xs {
        spoil(roles, *x);
    }
}

fn spoil_maybe(roles: &mut [Role], x: Option<u32>)
    ensures len { length roles.new ≡ length roles.old }
    ensures is { (y : ℕ) → y < length roles.old → role_at roles.new y ≡ spoilt (maybe x) y (role_at roles.old y) }
{
    if let Some(x) = x {
        spoil(roles, x);
    }
}

/// The role of what takes the address of a local.
fn meet(role: Role, local: u32) -> Role
    ensures { result ≡ met role local }
{
    match role {
        Role::Open => Role::AddressOf(local),
        Role::AddressOf(other) => { if other == local { role } else { Role::Spoilt } }
        Role::Spoilt => Role::Spoilt,
    }
}

fn take(roles: &mut [Role], t: u32, local: u32)
    ensures len { length roles.new ≡ length roles.old }
    ensures is { (y : ℕ) → y < length roles.old → role_at roles.new y ≡ cond (eqb t y) (met (role_at roles.old y) local) (role_at roles.old y) }
{
    let i = t as usize;
    if i < roles.len() {
        roles[i] = meet(roles[i], local);
    }
}

fn spoil_uses(roles: &mut [Role], uses: &Uses<'_, u32>)
    ensures len { length roles.new ≡ length roles.old }
    ensures is { (y : ℕ) → y < length roles.old → role_at roles.new y ≡ spoilt (listed_uses uses.now) y (role_at roles.old y) }
{
    match uses {
        Uses::Nothing => {}
        Uses::One(a) => spoil(roles, *a),
        Uses::Two(a, b) => {
            spoil(roles, *a);
            spoil(roles, *b);
        }
        Uses::All(args) => spoil_all(roles, args),
    }
}

fn op_roles(roles: &mut [Role], o: &Op<u32>)
    ensures len { length roles.new ≡ length roles.old }
    ensures is { (y : ℕ) → y < length roles.old → role_at roles.new y ≡ role_in y (op_before o.now Stop) (role_at roles.old y) }
{
    match o {
        Op::Local(t, local) => take(roles, *t, *local),
        Op::Load(t, _) => spoil(roles, *t),
        Op::Store(_, a) => spoil(roles, *a),
        Op::Call(t, _, arguments) => {
            spoil_all(roles, arguments.as_slice());
            spoil_maybe(roles, *t);
        }
        _ => {
            spoil_maybe(roles, o.target());
            spoil_uses(roles, &o.uses());
        }
    }
}

#[cycle(roles)]
fn node_roles(roles: &mut [Role], n: &Node<u32>)
    ensures len { length roles.new ≡ length roles.old }
    ensures is { (y : ℕ) → y < length roles.old → role_at roles.new y ≡ role_in y (before (node n.now) Stop) (role_at roles.old y) }
{
    match n {
        Node::Do(o) => op_roles(roles, o),
        Node::Choose(p, a, b) => {
            spoil(roles, *p);
            nodes_roles(roles, a.as_slice());
            nodes_roles(roles, b.as_slice());
        }
        Node::Block(b) => nodes_roles(roles, b.as_slice()),
        Node::Loop(b) => nodes_roles(roles, b.as_slice()),
        Node::Leave(_) => {}
        Node::Again(_) => {}
        Node::Return(p) => spoil_maybe(roles, *p),
    }
}

#[cycle(roles)]
#[tactic(auto, using(crate::proofs::Turns::role_turn))]
fn nodes_roles(roles: &mut [Role], ns: &[Node<u32>])
    ensures len { length roles.new ≡ length roles.old }
    ensures is { (y : ℕ) → y < length roles.old → role_at roles.new y ≡ role_in y (nodes ns.now) (role_at roles.old y) }
{
    for n in ns {
        node_roles(roles, n);
    }
}

/// The roles of a function's temporaries.
pub(crate) fn roles_of(alloc: Global, f: &Function<u32>) -> Result<Vec<Role>, Memory>
    ensures len { IfOk result (λ r. length r.items ≡ (function f.now).temps) }
    ensures is { IfOk result (λ r. (y : ℕ) → y < (function f.now).temps → role_at r.items y ≡ role_of (function f.now) y) }
{
    let mut roles = Vec::new(alloc);
    roles.resize(f.temps as usize, Role::Open)?;
    spoil_all(roles.as_mut_slice(), f.params.as_slice());
    nodes_roles(roles.as_mut_slice(), f.body.as_slice());
    Ok(roles)
}
