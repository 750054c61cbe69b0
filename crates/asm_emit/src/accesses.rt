// Loads and stores that are done together with the operations that work out their addresses.
ghost use Rattle.std.specs.Prelude.{◌≡◌};
ghost use Rattle.mid_code.specs.Code.{Stop};
ghost use Rattle.mid_code.specs.Functions.{op_before, nodes};
ghost use Rattle.asm_laws.specs.Accesses.{is_left, left_or_none, are_left, load_there, store_there, takes_two, reached_by, reached};
ghost use Rattle.asm_laws.specs.Accesses.{place_sum, place_behind, local_sum, local_step, local_number, local_behind};
ghost use Rattle.asm_laws.specs.Accesses.{first_access, at_local, at_place};
ghost use Rattle.asm_emit.specs.inner.Listed.{front_accessed};
ghost use Rattle.asm_emit.specs.inner.View.{frame};

use crate::live::{is_free, is_place};
use crate::scope::Scope;
use asm_laws::{Address, Base, Transfer};
use mid_code::{Node, Op, Where};

/// How many operations behind a first one are done together with it, the address that they work out, and what is done there.
type Reached = (u32, Address, Transfer);

/// Whether no word need be put into a register: it takes the word that is loaded, or is not asked for behind the access.
fn is_left(lasting: &[bool], x: Transfer, rest: &[Node<Where>], r: u32) -> bool
    ensures { result ≡ is_left lasting.now x (nodes rest.now) r }
{
    match x {
        Transfer::Load(v) => r == v || is_free(lasting, rest, r),
        Transfer::Store(a) => !is_place(a, r) && is_free(lasting, rest, r),
    }
}

fn left_or_none(lasting: &[bool], x: Transfer, rest: &[Node<Where>], r: Option<u32>) -> bool
    ensures { result ≡ left_or_none lasting.now x (nodes rest.now) r }
{
    match r {
        None => true,
        Some(r) => is_left(lasting, x, rest, r),
    }
}

/// The same of all registers that an address is worked out in.
fn are_left(lasting: &[bool], x: Transfer, rest: &[Node<Where>], y: Address) -> bool
    ensures { result ≡ are_left lasting.now x (nodes rest.now) y }
{
    is_left(lasting, x, rest, y.into)
        && left_or_none(lasting, x, rest, y.number)
        && left_or_none(lasting, x, rest, y.local)
}

/// A load into a register from the address in register `into`.
fn load_there(into: u32, t: Where, q: Where) -> Option<Transfer>
    ensures { result ≡ load_there into t q }
{
    let Where::Reg(v) = t else { return None };
    let Where::Reg(q) = q else { return None };
    if q == into {
        Some(Transfer::Load(v))
    } else {
        None
    }
}

/// A store to that address.
fn store_there(into: u32, q: Where, a: Where) -> Option<Transfer>
    ensures { result ≡ store_there into q a }
{
    let Where::Reg(q) = q else { return None };
    if q == into {
        Some(Transfer::Store(a))
    } else {
        None
    }
}

/// Whether two words would have to be brought out of slots.
fn takes_two(b: Base, x: Transfer) -> bool
    ensures { result ≡ takes_two b x }
{
    match b {
        Base::Local(_) => false,
        Base::Place(Where::Reg(_)) => false,
        Base::Place(Where::Slot(_)) => match x {
            Transfer::Load(_) => false,
            Transfer::Store(Where::Reg(_)) => false,
            Transfer::Store(Where::Slot(_)) => true,
        },
    }
}

/// An access with these nodes behind it, where the registers of its address are left as they are.
fn reached_by(
    lasting: &[bool],
    more: u32,
    y: Address,
    rest: &[Node<Where>],
    x: Option<Transfer>,
) -> Option<Reached>
    ensures { result ≡ reached_by lasting.now more y (nodes rest.now) x }
{
    let x = x?;
    if !takes_two(y.base, x) && are_left(lasting, x, rest, y) {
        Some((more, y, x))
    } else {
        None
    }
}

/// An access at an address that comes first, behind so many operations less one.
fn reached(lasting: &[bool], more: u32, y: Address, xs: &[Node<Where>]) -> Option<Reached>
    ensures { result ≡ reached lasting.now more y (nodes xs.now) }
{
    let (x, rest) = xs.split_first()?;
    match x {
        Node::Do(Op::Load(t, q)) => reached_by(lasting, more, y, rest, load_there(y.into, *t, *q)),
        Node::Do(Op::Store(q, a)) => reached_by(
            lasting,
            more,
            y,
            rest,
            store_there(y.into, *q, *a),
        ),
        _ => None,
    }
}

/// The sum of an address and of a number that was put into register r, and an access there.
fn place_sum(
    lasting: &[bool],
    r: u32,
    n: u32,
    u: Where,
    p: Where,
    s: Where,
    rest: &[Node<Where>],
) -> Option<Reached>
    ensures { result ≡ place_sum lasting.now r n u p s (nodes rest.now) }
{
    let Where::Reg(into) = u else { return None };
    let Where::Reg(s) = s else { return None };
    let y = Address {
        base: Base::Place(p),
        offset: n,
        into,
        number: Some(r),
        local: None,
    };
    if s == r && !is_place(p, r) {
        reached(lasting, 2, y, rest)
    } else {
        None
    }
}

fn place_behind(lasting: &[bool], r: u32, n: u32, xs: &[Node<Where>]) -> Option<Reached>
    ensures { result ≡ place_behind lasting.now r n (nodes xs.now) }
{
    let (x, rest) = xs.split_first()?;
    match x {
        Node::Do(Op::Step(u, p, s)) => place_sum(lasting, r, n, *u, *p, *s, rest),
        _ => None,
    }
}

/// The first word of a local, whose address was put into a register, and a number that was put into another one.
#[derive(Clone, Copy)]
struct Member {
    local: u32,
    into: u32,
    number: u32,
    offset: u32,
}

/// The sum of the two, and an access there.
fn local_sum(
    lasting: &[bool],
    m: Member,
    u: Where,
    q: Where,
    s: Where,
    rest: &[Node<Where>],
) -> Option<Reached>
    ensures { result ≡ local_sum lasting.now m.into m.local m.number m.offset u q s (nodes rest.now) }
{
    let Where::Reg(into) = u else { return None };
    let Where::Reg(q) = q else { return None };
    let Where::Reg(s) = s else { return None };
    let y = Address {
        base: Base::Local(m.local),
        offset: m.offset,
        into,
        number: Some(m.number),
        local: Some(m.into),
    };
    if s == m.number && q == m.into && m.into != m.number {
        reached(lasting, 3, y, rest)
    } else {
        None
    }
}

fn local_step(lasting: &[bool], m: Member, xs: &[Node<Where>]) -> Option<Reached>
    ensures { result ≡ local_step lasting.now m.into m.local m.number m.offset (nodes xs.now) }
{
    let (x, rest) = xs.split_first()?;
    match x {
        Node::Do(Op::Step(u, q, s)) => local_sum(lasting, m, *u, *q, *s, rest),
        _ => None,
    }
}

/// The same behind an operation that puts a number somewhere, where that is a register that holds a place between operations.
fn local_number(
    s: &Scope<'_>,
    t: u32,
    k: u32,
    r: Where,
    n: u32,
    rest: &[Node<Where>],
) -> Option<Reached>
    ensures { result ≡ local_number (frame s.now).lasting s.now.registers t k r n (nodes rest.now) }
{
    let Where::Reg(r) = r else { return None };
    let m = Member {
        local: k,
        into: t,
        number: r,
        offset: n,
    };
    if r < s.registers {
        local_step(s.lasting, m, rest)
    } else {
        None
    }
}

fn local_behind(s: &Scope<'_>, t: u32, k: u32, xs: &[Node<Where>]) -> Option<Reached>
    ensures { result ≡ local_behind (frame s.now).lasting s.now.registers t k (nodes xs.now) }
{
    let (x, rest) = xs.split_first()?;
    match x {
        Node::Do(Op::Const(r, n)) => local_number(s, t, k, *r, *n, rest),
        _ => None,
    }
}

fn first_access(one: Option<Reached>, other: Option<Reached>) -> Option<Reached>
    ensures { result ≡ first_access one other }
{
    match one {
        None => other,
        Some(x) => Some(x),
    }
}

/// An access behind an operation that puts the address of a local somewhere, where that is a register.
fn at_local(s: &Scope<'_>, t: Where, k: u32, rest: &[Node<Where>]) -> Option<Reached>
    ensures { result ≡ at_local (frame s.now).lasting s.now.registers t k (nodes rest.now) }
{
    let Where::Reg(t) = t else { return None };
    let y = Address {
        base: Base::Local(k),
        offset: 0,
        into: t,
        number: None,
        local: None,
    };
    first_access(reached(s.lasting, 1, y, rest), local_behind(s, t, k, rest))
}

/// An access behind an operation that puts a number somewhere, where that is a register that holds a place between operations.
fn at_place(s: &Scope<'_>, r: Where, n: u32, rest: &[Node<Where>]) -> Option<Reached>
    ensures { result ≡ at_place (frame s.now).lasting s.now.registers r n (nodes rest.now) }
{
    let Where::Reg(r) = r else { return None };
    if r < s.registers {
        place_behind(s.lasting, r, n, rest)
    } else {
        None
    }
}

/// An access at an address that an operation and those behind it work out, and nothing else asks for.
#[tactic(auto, unfolding(asm_laws::specs::Accesses::accessed))]
pub(crate) fn accessed(s: &Scope<'_>, o: &Op<Where>, rest: &[Node<Where>]) -> Option<Reached>
    ensures { result ≡ front_accessed (frame s.now) (op_before o.now Stop) (nodes rest.now) }
{
    match o {
        Op::Local(t, k) => at_local(s, *t, *k, rest),
        Op::Const(t, n) => at_place(s, *t, *n, rest),
        _ => None,
    }
}
