// Registers that are live behind block moves, and those that last from one stretch of nodes to the next.
ghost use Rattle.std.specs.Prelude.{◌≡◌, cond, map, IfOk, Some, None, true};
ghost use Rattle.mid_code.specs.Code.{Stop, maybe};
ghost use Rattle.mid_code.specs.Functions.{op_before, node, nodes, before, listed, function};
ghost use Rattle.mid_code.specs.Operands.{op_uses, op_target, listed_uses};
ghost use Rattle.asm_laws.specs.Copies.{copy_of, lead};
ghost use Rattle.asm_laws.specs.Asks.{ask_of};
ghost use Rattle.asm_laws.specs.Live.{is_place, is_among, reads_cell, copy_reads, live_soon};
ghost use Rattle.asm_laws.specs.Live.{leads_by, copied_reads, exposed, copies, addresses, lasts, lasting_registers};
ghost use Rattle.asm_laws.specs.Accesses.{is_free};
ghost use Rattle.asm_emit.specs.inner.Listed.{asked, led_asked};
ghost use Rattle.asm_emit.specs.inner.Lasting.{told_by_copy, told_by_loop, told_by_op, told, inward, exposed_from, anew_unless, loop_exposed, lasting_all};

use crate::ahead::{behind, is_call};
use crate::asks::ask_of;
use crate::copies::{copy_at, copy_of, is_from, lead};
use asm_laws::Copying;
use kit_base::Memory;
use mid_code::{Function, Node, Op, Uses, Where};
use std::alloc::Global;

/// How many nodes are asked behind a block move or an access.
const AHEAD: u32 = 64;

/// Whether a place is a register.
pub(crate) fn is_place(p: Where, r: u32) -> bool
    ensures { result ≡ is_place p r }
{
    match p {
        Where::Reg(q) => q == r,
        Where::Slot(_) => false,
    }
}

/// Whether one of some places is.
fn is_among(ps: &[Where], r: u32) -> bool
    ensures { result ≡ is_among ps.now r }
{
    for p in ps {
        if is_place(*p, r) {
            return true;
        }
    }
    false
}

/// Whether a place is, where there is one.
fn is_given(p: Option<Where>, r: u32) -> bool
    ensures { result ≡ is_among (maybe p) r }
{
    match p {
        Some(p) => is_place(p, r),
        None => false,
    }
}

/// Whether one of the places that are read is.
fn is_among_uses(uses: &Uses<'_, Where>, r: u32) -> bool
    ensures { result ≡ is_among (listed_uses uses.now) r }
{
    match uses {
        Uses::Nothing => false,
        Uses::One(a) => is_place(*a, r),
        Uses::Two(a, b) => is_place(*a, r) || is_place(*b, r),
        Uses::All(args) => is_among(args, r),
    }
}

/// Whether an operation or a call reads a register.
fn is_read(o: &Op<Where>, r: u32) -> bool
    ensures { result ≡ is_among (op_uses o.now) r }
{
    is_among_uses(&o.uses(), r)
}

/// Whether it puts a word there.
fn is_put(o: &Op<Where>, r: u32) -> bool
    ensures { result ≡ is_among (maybe (op_target o.now)) r }
{
    is_given(o.target(), r)
}

/// Whether a loop reads the register of its words before it puts one there: one that fills words does.
fn reads_cell(from: Option<u32>) -> bool
    ensures { result ≡ reads_cell from }
{
    match from {
        None => true,
        Some(_) => false,
    }
}

/// Whether a loop that copies words or fills them reads a register before it puts a word there.
fn copy_reads(y: Copying, r: u32) -> bool
    ensures { result ≡ copy_reads y r }
{
    r == y.to
        || is_from(y.from, r)
        || r == y.count
        || r == y.one
        || (reads_cell(y.from) && r == y.cell)
}

// ---- live registers

/// Whether a register lasts.
fn lasts(lasting: &[bool], r: u32) -> bool
    ensures { result ≡ lasts lasting.now r }
{
    match lasting.get(r as usize) {
        Some(is) => *is,
        None => true,
    }
}

/// What a loop tells of a register, where it reads it or puts a word there, or where the nodes behind it are not asked.
fn told_by_copy(y: Option<Copying>, r: u32) -> Option<bool>
    ensures { result ≡ told_by_copy y r }
{
    let Some(y) = y else {
        return Some(false);
    };
    if copy_reads(y, r) {
        Some(true)
    } else if r == y.cell {
        Some(false)
    } else {
        None
    }
}

/// What a loop tells that copies words, fills them, or turns.
fn told_by_turns(b: &[Node<Where>], lasting: &[bool], r: u32) -> Option<bool>
    ensures { result ≡ cond (lasts lasting.now r) (Some true) (told_by_copy (copy_of (nodes b.now)) r) }
{
    if lasts(lasting, r) {
        Some(true)
    } else {
        told_by_copy(copy_of(b), r)
    }
}

/// What any loop tells: one that only asks for a turn puts a word into its register.
fn told_by_loop(b: &[Node<Where>], lasting: &[bool], r: u32) -> Option<bool>
    ensures { result ≡ told_by_loop (ask_of (nodes b.now)) r
        (cond (lasts lasting.now r) (Some true) (told_by_copy (copy_of (nodes b.now)) r)) }
{
    match ask_of(b) {
        Some(f) => if r == f { Some(false) } else { None },
        None => told_by_turns(b, lasting, r),
    }
}

/// What an operation or a call tells, where it reads the register or puts a word there, or leaves the function.
fn told_by_op(o: &Op<Where>, r: u32) -> Option<bool>
    ensures { result ≡ told_by_op o.now r }
{
    if is_read(o, r) {
        Some(true)
    } else if is_call(o) || is_put(o, r) {
        Some(false)
    } else {
        None
    }
}

/// Whether a register is live before a node, where the node tells.
fn told(x: &Node<Where>, lasting: &[bool], r: u32) -> Option<bool>
    ensures { result ≡ told lasting.now (node x.now) r }
{
    match x {
        Node::Do(o) => told_by_op(o, r),
        Node::Choose(_, _, _) => Some(true),
        Node::Block(_) => None,
        Node::Loop(b) => told_by_loop(b.as_slice(), lasting, r),
        Node::Leave(_) => Some(lasts(lasting, r)),
        Node::Again(_) => Some(lasts(lasting, r)),
        Node::Return(p) => Some(is_given(*p, r)),
    }
}

/// The nodes that come next behind one that does not: those inside of a block, or those behind it.
fn inward<'a>(x: &'a Node<Where>, rest: &'a [Node<Where>]) -> &'a [Node<Where>]
    ensures { nodes result.now ≡ inward (node x.now) (nodes rest.now) }
{
    match x {
        Node::Block(b) => b.as_slice(),
        _ => rest,
    }
}

/// Whether a register is live where nodes come next, as so many of them tell.
#[tactic(auto, using(crate::proofs::Exposing::soon_on, crate::proofs::Exposing::soon_told, crate::proofs::Exposing::soon_over))]
fn live_soon(count: u32, lasting: &[bool], xs: &[Node<Where>], r: u32) -> bool
    ensures { result ≡ live_soon count lasting.now (nodes xs.now) r }
{
    let end = lasts(lasting, r);
    let mut left = count;
    let mut rest = xs;
    'nodes: while left > 0 {
        let Some((x, after)) = rest.split_first() else {
            return end;
        };
        if let Some(is) = told(x, lasting, r) {
            return is;
        }
        rest = inward(x, after);
        left -= 1;
    }
    true
}

/// Whether a block move puts a register back before nodes.
#[tactic(auto, unfolding(crate::specs::inner::Listed::asked))]
pub(crate) fn is_asked(lasting: &[bool], rest: &[Node<Where>], r: u32) -> bool
    ensures { result ≡ asked lasting.now (nodes rest.now) r }
{
    live_soon(AHEAD, lasting, rest, r)
}

/// Whether a register is not asked for where nodes come next.
#[tactic(auto, unfolding(asm_laws::specs::Accesses::is_free))]
pub(crate) fn is_free(lasting: &[bool], rest: &[Node<Where>], r: u32) -> bool
    ensures { result ≡ is_free lasting.now (nodes rest.now) r }
{
    !live_soon(AHEAD, lasting, rest, r)
}

/// Whether it puts one back behind a loop that comes behind operations.
#[tactic(auto, using(crate::proofs::Exposing::led_op), unfolding(crate::specs::inner::Listed::led_asked))]
pub(crate) fn led_asked(lasting: &[bool], xs: &[Node<Where>], r: u32) -> bool
    ensures { result ≡ led_asked lasting.now (nodes xs.now) r }
{
    let mut rest = xs;
    for x in xs {
        rest = behind(rest);
        match x {
            Node::Do(o) => {
                if is_call(o) {
                    return true;
                }
            }
            Node::Loop(_) => return is_asked(lasting, rest, r),
            _ => return true,
        }
    }
    true
}

// ---- registers that last

/// How many operations behind one are done with it since a loop that is done by a block move comes behind them.
fn leads_by(o: &Op<Where>, rest: &[Node<Where>]) -> u32
    ensures { result ≡ leads_by (lead (op_before o.now (nodes rest.now))) }
{
    match lead(o, rest) {
        None => 0,
        Some((k, _)) => k,
    }
}

/// Whether such a loop does, where there is one.
fn copied_reads(y: Option<Copying>, r: u32) -> bool
    ensures { result ≡ copied_reads y r }
{
    match y {
        None => false,
        Some(y) => copy_reads(y, r),
    }
}

/// A stretch of nodes that goes on: whether nothing was put into the register yet, and how many operations in front are done.
#[derive(Clone, Copy)]
struct Stretch {
    unset: bool,
    done: u32,
}

/// A stretch that begins, where the register is not exposed already.
fn anew_unless(is: bool) -> Option<Stretch>
    ensures { result ≡ anew_unless is }
{
    if is {
        None
    } else {
        Some(Stretch {
            unset: true,
            done: 0,
        })
    }
}

/// How a stretch goes on behind an operation or a call, where it does not read the register.
#[tactic(auto, using(crate::proofs::Exposing::op_exposed))]
fn op_exposed(s: Stretch, o: &Op<Where>, rest: &[Node<Where>], r: u32) -> Option<Stretch>
    ensures { exposed s.unset (op_before o.now (nodes rest.now)) s.done r ≡ exposed_from result (nodes rest.now) r }
{
    if s.unset && is_read(o, r) {
        None
    } else if is_call(o) {
        Some(Stretch {
            unset: false,
            done: 0,
        })
    } else {
        Some(Stretch {
            unset: s.unset && !is_put(o, r),
            done: if s.done == 0 {
                leads_by(o, rest)
            } else {
                s.done - 1
            },
        })
    }
}

/// How a stretch goes on behind a loop that copies words, fills them, or turns.
#[cycle(exposing)]
fn loop_exposed(s: Stretch, b: &[Node<Where>], r: u32) -> Option<Stretch>
    ensures { result ≡ loop_exposed s (nodes b.now) r }
{
    let reads = copied_reads(copy_of(b), r);
    match copy_at(s.done, b) {
        Some(_) => if s.unset && reads {
            None
        } else {
            Some(Stretch {
                unset: s.unset,
                done: 0,
            })
        },
        None => anew_unless(reads || exposed(true, b, r)),
    }
}

/// How a stretch goes on behind a node, where the register is not exposed in it.
#[cycle(exposing)]
fn node_exposed(s: Stretch, x: &Node<Where>, rest: &[Node<Where>], r: u32) -> Option<Stretch>
    ensures { exposed s.unset (before (node x.now) (nodes rest.now)) s.done r ≡ exposed_from result (nodes rest.now) r }
{
    match x {
        Node::Do(o) => op_exposed(s, o, rest, r),
        Node::Choose(p, a, b) => anew_unless(
            s.unset && is_place(*p, r)
                || exposed(s.unset, a.as_slice(), r)
                || exposed(s.unset, b.as_slice(), r),
        ),
        Node::Block(b) => anew_unless(exposed(s.unset, b.as_slice(), r)),
        Node::Loop(b) => match ask_of(b.as_slice()) {
            Some(f) => Some(Stretch {
                unset: s.unset && r != f,
                done: 0,
            }),
            None => loop_exposed(s, b.as_slice(), r),
        },
        Node::Leave(_) => anew_unless(false),
        Node::Again(_) => anew_unless(false),
        Node::Return(p) => anew_unless(s.unset && is_given(*p, r)),
    }
}

/// Whether a register is upward exposed in nodes.
#[cycle(exposing)]
fn exposed(unset: bool, xs: &[Node<Where>], r: u32) -> bool
    ensures { result ≡ exposed unset (nodes xs.now) 0 r }
{
    let mut stretch = Stretch { unset, done: 0 };
    let mut rest = xs;
    for x in xs {
        rest = behind(rest);
        match node_exposed(stretch, x, rest, r) {
            Some(s) => stretch = s,
            None => return true,
        }
    }
    false
}

/// Whether there is a loop in a node that copies words or fills them, or only asks for a turn.
#[cycle(copying)]
fn node_copies(x: &Node<Where>) -> bool
    ensures { result ≡ copies (before (node x.now) Stop) }
{
    match x {
        Node::Choose(_, a, b) => copies(a.as_slice()) || copies(b.as_slice()),
        Node::Block(b) => copies(b.as_slice()),
        Node::Loop(b) => {
            ask_of(b.as_slice()).is_some()
                || copy_of(b.as_slice()).is_some()
                || copies(b.as_slice())
        }
        _ => false,
    }
}

/// The same of nodes.
#[cycle(copying)]
fn copies(xs: &[Node<Where>]) -> bool
    ensures { result ≡ copies (nodes xs.now) }
{
    for x in xs {
        if node_copies(x) {
            return true;
        }
    }
    false
}

/// Whether an operation takes the address of a local, or adds to an address.
fn takes_address(o: &Op<Where>) -> bool
    ensures { result ≡ addresses (op_before o.now Stop) }
{
    match o {
        Op::Local(_, _) => true,
        Op::Step(_, _, _) => true,
        _ => false,
    }
}

/// Whether there is such an operation in a node.
#[cycle(addressing)]
fn node_addresses(x: &Node<Where>) -> bool
    ensures { result ≡ addresses (before (node x.now) Stop) }
{
    match x {
        Node::Do(o) => takes_address(o),
        Node::Choose(_, a, b) => addresses(a.as_slice()) || addresses(b.as_slice()),
        Node::Block(b) => addresses(b.as_slice()),
        Node::Loop(b) => addresses(b.as_slice()),
        _ => false,
    }
}

/// The same of nodes.
#[cycle(addressing)]
#[tactic(auto, using(crate::proofs::Addressing::addressed, crate::proofs::Addressing::unaddressed))]
fn addresses(xs: &[Node<Where>]) -> bool
    ensures { result ≡ addresses (nodes xs.now) }
{
    for x in xs {
        if node_addresses(x) {
            return true;
        }
    }
    false
}

/// Which registers of places last from one stretch of a body to the next.
#[tactic(auto, unfolding(asm_laws::specs::Live::lasting_registers))]
fn lasting_registers(alloc: Global, body: &[Node<Where>]) -> Result<Vec<bool>, Memory>
    ensures { IfOk result (λ v. v.items ≡ lasting_registers (nodes body.now)) }
{
    let all = !(copies(body) || addresses(body));
    let mut each = Vec::new(alloc);
    each.push(all || exposed(false, body, 0))?;
    each.push(all || exposed(false, body, 1))?;
    each.push(all || exposed(false, body, 2))?;
    each.push(all || exposed(false, body, 3))?;
    each.push(all || exposed(false, body, 4))?;
    each.push(all || exposed(false, body, 5))?;
    each.push(all || exposed(false, body, 6))?;
    each.push(all || exposed(false, body, 7))?;
    each.push(all || exposed(false, body, 8))?;
    Ok(each)
}

/// The same of each function.
pub(crate) fn lasting_by_each(
    alloc: Global,
    functions: &[Function<Where>],
) -> Result<Vec<Vec<bool>>, Memory>
    ensures { IfOk result (λ v. map (λ w. w.items) v.items ≡ lasting_all (map function functions.now)) }
{
    let mut each = Vec::new(alloc);
    for f in functions {
        each.push(lasting_registers(alloc, f.body.as_slice())?)?;
    }
    Ok(each)
}
