// Operations that are done together.
ghost use Rattle.std.specs.Prelude.{◌≡◌, ◌<◌, ◌++◌, OnOk, IfOk, Some, map, drop};
ghost use Rattle.mid_code.specs.Code.{Stop};
ghost use Rattle.mid_code.specs.Functions.{op_before, node, before, nodes, listed};
ghost use Rattle.asm_laws.specs.Operations.{first_word, sum_of, first_place, in_slot, unturned, copied, copied_address};
ghost use Rattle.asm_laws.specs.Pieces.{turned, other_word, loads_there};
ghost use Rattle.asm_laws.specs.Operations.{with_sum};
ghost use Rattle.asm_laws.specs.Operations.{taken, brought, either, added, known, addend, using_it, with_known, access_item, before_it};
ghost use Rattle.asm_emit.specs.inner.Listed.{front_put, front_word, front_summed, front_one, ahead_items, ahead_more, is_call};
ghost use Rattle.asm_emit.specs.inner.Listed.{front_items, front_more, labels_due, node_labels};
ghost use Rattle.asm_emit.specs.inner.View.{frame, whole};

use crate::accesses::accessed;
use crate::asks::is_unread;
use crate::copies::lead;
use crate::hands::{fetch, hand, is_in, op, register};
use crate::leading::put_group;
use crate::pieces::{port, turned};
use crate::results::{made_of, put_giving, put_made};
use crate::scope::{Around, Scope, at_or, local_word};
use crate::spare::used_by_op;
use asm_items::{AsmItem, Imm};
use asm_laws::{Base, Transfer, Used};
use either::Either;
use kit_base::Memory;
use mid_code::{Node, Op, Where};
use v32_isa::{Instr, Mov, Reg, Src, Two};

/// How many operations behind a first one are done together with it, an instruction that comes first, and the one that does them.
type Together = (u32, Option<Instr<Imm>>, Instr<Imm>);

/// The nodes behind the first one.
pub(crate) fn behind(xs: &[Node<Where>]) -> &[Node<Where>]
    ensures { result.now ≡ drop 1 xs.now }
{
    match xs.split_first() {
        Some((_, rest)) => rest,
        None => xs,
    }
}

/// The register of the other word, where a target and just one of two words stand in register r.
pub(crate) fn other_word(r: Reg, t: Where, a: Where, b: Where) -> Option<Reg>
    ensures { result ≡ other_word r t a b }
{
    let Where::Reg(_) = t else { return None };
    let Where::Reg(x) = a else { return None };
    let Where::Reg(y) = b else { return None };
    if !is_in(t, r) {
        None
    } else if is_in(a, r) {
        if is_in(b, r) { None } else { Some(register(y)) }
    } else if is_in(b, r) {
        Some(register(x))
    } else {
        None
    }
}

/// The register of the first word, where a target and the second word stand in register r, and the first one does not.
fn first_word(r: Reg, t: Where, a: Where, b: Where) -> Option<Reg>
    ensures { result ≡ first_word r t a b }
{
    let Where::Reg(_) = t else { return None };
    let Where::Reg(x) = a else { return None };
    let Where::Reg(_) = b else { return None };
    if is_in(t, r) && is_in(b, r) && !is_in(a, r) {
        Some(register(x))
    } else {
        None
    }
}

/// A register and a word whose sum an operator makes in register r, which holds a known word before.
fn sum_of(o: Two, r: Reg, word: u32, t: Where, a: Where, b: Where) -> Option<(Reg, u32)>
    ensures { result ≡ sum_of o r word t a b }
{
    match o {
        Two::IADD => match other_word(r, t, a, b) {
            Some(q) => Some((q, word)),
            None => None,
        },
        Two::ISUB => match first_word(r, t, a, b) {
            Some(q) => Some((q, 0u32.wrapping_sub(word))),
            None => None,
        },
        _ => None,
    }
}

/// Whether a load comes first that takes its address from register r and puts the word there.
pub(crate) fn loads_there(r: Reg, rest: &[Node<Where>]) -> bool
    ensures { result ≡ loads_there r (nodes rest.now) }
{
    let Some((x, _)) = rest.split_first() else {
        return false;
    };
    match x {
        Node::Do(Op::Load(t, p)) => is_in(*t, r) && is_in(*p, r),
        _ => false,
    }
}

/// The place of the first word, where a target and the second word stand in register r, and the first one does not.
fn first_place(r: Reg, t: Where, a: Where, b: Where) -> Option<Where>
    ensures { result ≡ first_place r t a b }
{
    if is_in(t, r) && is_in(b, r) && !is_in(a, r) {
        Some(a)
    } else {
        None
    }
}

fn in_slot(p: Where) -> Option<Where>
    ensures { result ≡ in_slot p }
{
    match p {
        Where::Reg(_) => None,
        Where::Slot(_) => Some(p),
    }
}

/// The same, where it is worth a copy: not where a register has the word, and an operator can be turned round.
fn unturned(turned: Option<Two>, first: Option<Where>) -> Option<Where>
    ensures { result ≡ unturned turned first }
{
    let p = first?;
    match turned {
        None => Some(p),
        Some(_) => in_slot(p),
    }
}

/// The copy of the first word to register r, and the operator on it and a known word; both are one operation.
fn copied(s: &Scope<'_>, r: Reg, word: u32, o: Two, first: Option<Where>) -> Option<Together>
    ensures { result ≡ copied (frame s.now) r word o first }
{
    match first {
        None => None,
        Some(p) => Some((
            1,
            Some(fetch(s, p, r)),
            Instr::Two(o, r, Src::Imm(Either::Left(word))),
        )),
    }
}

/// The same of an address and what is added to it, and of a load from there where that comes next.
fn copied_address(
    s: &Scope<'_>,
    r: Reg,
    word: u32,
    first: Option<Where>,
    rest: &[Node<Where>],
) -> Option<Together>
    ensures { result ≡ copied_address (frame s.now) r word first (nodes rest.now) }
{
    match first {
        None => None,
        Some(p) => {
            if loads_there(r, rest) {
                Some((
                    2,
                    Some(fetch(s, p, r)),
                    Instr::Mov(Mov::RegAtOff(r, r, Either::Left(word))),
                ))
            } else {
                Some((
                    1,
                    Some(fetch(s, p, r)),
                    Instr::Two(Two::IADD, r, Src::Imm(Either::Left(word))),
                ))
            }
        }
    }
}

/// The instruction that makes a sum in register r, and loads the word there where that comes next; how many operations these are. Where there is no sum, what
/// else is done.
fn with_sum(
    r: Reg,
    sum: Option<(Reg, u32)>,
    other: Option<Together>,
    rest: &[Node<Where>],
) -> Option<Together>
    ensures { result ≡ with_sum r sum other (nodes rest.now) }
{
    match sum {
        None => other,
        Some((q, word)) => {
            if loads_there(r, rest) {
                Some((2, None, Instr::Mov(Mov::RegAtOff(r, q, Either::Left(word)))))
            } else {
                Some((1, None, Instr::Lea(r, q, Some(Either::Left(word)))))
            }
        }
    }
}

/// The same for an operation, where a known word was put into register r, which holds a place.
fn with_word(
    s: &Scope<'_>,
    r: Reg,
    word: u32,
    o: &Op<Where>,
    rest: &[Node<Where>],
) -> Option<Together>
    ensures { result ≡ front_word (frame s.now) (Some (r, word)) (op_before o.now (nodes rest.now)) }
{
    match o {
        Op::Two(o, t, a, b) => {
            let sum = sum_of(*o, r, word, *t, *a, *b);
            let first = unturned(turned(*o), first_place(r, *t, *a, *b));
            with_sum(r, sum, copied(s, r, word, *o, first), rest)
        }
        Op::Step(t, p, n) => {
            let sum = sum_of(Two::IADD, r, word, *t, *p, *n);
            let first = unturned(Some(Two::IADD), first_place(r, *t, *p, *n));
            with_sum(r, sum, copied_address(s, r, word, first, rest), rest)
        }
        _ => None,
    }
}

/// The instruction by which a register takes the word of a place, where it does not stand there.
fn taken(s: &Scope<'_>, p: Where, r: Reg) -> Option<Instr<Imm>>
    ensures { result ≡ taken (frame s.now) p r }
{
    if is_in(p, r) {
        None
    } else {
        Some(fetch(s, p, r))
    }
}

/// The instruction that brings the word of a place to register r, where it stands in a slot.
fn brought(s: &Scope<'_>, p: Where, r: u32) -> Option<Instr<Imm>>
    requires { r < 16 }
    ensures { result ≡ brought (frame s.now) p r }
{
    match p {
        Where::Reg(_) => None,
        Where::Slot(_) => Some(fetch(s, p, Reg::at(r))),
    }
}

fn either(one: Option<Instr<Imm>>, other: Option<Instr<Imm>>) -> Option<Instr<Imm>>
    ensures { result ≡ either one other }
{
    match one {
        Some(i) => Some(i),
        None => other,
    }
}

/// What is added where an operator works on a word and a known one.
pub(crate) fn added(o: Two, word: u32) -> Option<u32>
    ensures { result ≡ added o word }
{
    match o {
        Two::IADD => Some(word),
        Two::ISUB => Some(0u32.wrapping_sub(word)),
        _ => None,
    }
}

/// What an operator adds that adds a word or takes it away.
fn addend(o: Two, word: u32) -> u32
    ensures { result ≡ addend o word }
{
    match o {
        Two::ISUB => 0u32.wrapping_sub(word),
        _ => word,
    }
}

/// An operator on the word of a place and a known one, with what it adds where it does.
pub(crate) fn known(
    s: &Scope<'_>,
    o: Two,
    t: Reg,
    p: Where,
    word: u32,
    added: Option<u32>,
) -> (Option<Instr<Imm>>, Instr<Imm>)
    ensures { result ≡ known (frame s.now) o t p word added }
{
    let number = Instr::Two(o, t, Src::Imm(Either::Left(word)));
    match p {
        Where::Reg(q) => match added {
            Some(v) => (None, Instr::Lea(t, register(q), Some(Either::Left(v)))),
            None => (taken(s, p, t), number),
        },
        Where::Slot(_) => (taken(s, p, t), number),
    }
}

/// The instruction that uses a known word, behind one where there is one.
fn using_it(w: &Around<'_>, s: &Scope<'_>, word: u32, u: &Used) -> (Option<Instr<Imm>>, Instr<Imm>)
    ensures { result ≡ using_it w.now.globals.now (frame s.now) word u.now }
{
    let number = Either::Left(word);
    match u {
        Used::Computed(o, t, p) => known(s, *o, *t, *p, word, added(*o, word)),
        Used::Loaded(t, None) => (None, Instr::Mov(Mov::RegAt(*t, number))),
        Used::Loaded(t, Some(p)) => (
            brought(s, *p, 9),
            Instr::Mov(Mov::RegAtOff(*t, hand(*p, 9), number)),
        ),
        Used::Indexed(t, q) => (
            Some(Instr::Two(Two::IADD, *t, Src::Reg(*q))),
            Instr::Mov(Mov::RegAtOff(*t, *t, number)),
        ),
        Used::Offset(t, p, n) => (
            brought(s, *p, 9),
            Instr::Mov(Mov::RegAtOff(*t, hand(*p, 9), Either::Left(word.wrapping_add(*n)))),
        ),
        Used::Element(o, t, p, k) => {
            let offset = addend(*o, word).wrapping_add(at_or(w.globals, *k, 0));
            (
                brought(s, *p, 9),
                Instr::Mov(Mov::RegAtOff(*t, hand(*p, 9), Either::Left(offset))),
            )
        }
        Used::Stored(None, a) => (
            brought(s, *a, 10),
            Instr::Mov(Mov::AtReg(number, hand(*a, 10))),
        ),
        Used::Stored(Some(p), a) => (
            either(brought(s, *p, 9), brought(s, *a, 10)),
            Instr::Mov(Mov::AtOffReg(hand(*p, 9), number, hand(*a, 10))),
        ),
        Used::Sent(p) => (None, Instr::Out(port(*p), Src::Imm(number))),
    }
}

/// What is done with a word that was put into register r, which is spare.
fn with_known(
    w: &Around<'_>,
    s: &Scope<'_>,
    r: Reg,
    word: u32,
    used: Option<(u32, Used)>,
) -> Option<Together>
    ensures { result ≡ with_known w.now.globals.now (frame s.now) (Some (r, word)) used }
{
    let (more, u) = used?;
    let (first, i) = using_it(w, s, word, &u);
    Some((more, first, i))
}

/// What is done with an operation, where a known word was put into register r.
fn with_op(
    w: &Around<'_>,
    s: &Scope<'_>,
    r: Reg,
    word: u32,
    o: &Op<Where>,
    rest: &[Node<Where>],
) -> Option<Together>
    ensures { result ≡ front_summed w.now.globals.now (frame s.now) (Some (r, word)) (op_before o.now (nodes rest.now)) }
{
    if s.registers == 8 && r.number() == 8 {
        with_known(w, s, r, word, used_by_op(o, rest))
    } else {
        with_word(s, r, word, o, rest)
    }
}

/// The register into which an operation puts a word that is known, and the word.
pub(crate) fn word_put(w: &Around<'_>, o: &Op<Where>) -> Option<(Reg, u32)>
    ensures { result ≡ front_put (whole w.now) (op_before o.now Stop) }
{
    match o {
        Op::Const(Where::Reg(r), n) => Some((register(*r), *n)),
        Op::Global(Where::Reg(r), k) => Some((register(*r), at_or(w.globals, *k, 0))),
        _ => None,
    }
}

/// What uses a word that an operation puts into a register, where the ones behind it do.
#[tactic(auto, using(crate::proofs::Fronts::none_summed))]
fn with_next(w: &Around<'_>, s: &Scope<'_>, o: &Op<Where>, rest: &[Node<Where>]) -> Option<Together>
    ensures { result ≡ front_summed w.now.globals.now (frame s.now) (front_put (whole w.now) (op_before o.now Stop)) (nodes rest.now) }
{
    let (r, word) = word_put(w, o)?;
    let (x, after) = rest.split_first()?;
    match x {
        Node::Do(p) => with_op(w, s, r, word, p, after),
        _ => None,
    }
}

/// The access at an address, behind an instruction that brings a word out of a slot where one stands there.
fn access_item(s: &Scope<'_>, b: Base, n: u32, x: Transfer) -> (Option<Instr<Imm>>, Instr<Imm>)
    ensures { result ≡ access_item (frame s.now) b n x }
{
    match b {
        Base::Local(k) => {
            let top = Either::Left(local_word(s, k).wrapping_add(n));
            match x {
                Transfer::Load(v) => (
                    None,
                    Instr::Mov(Mov::RegAtOff(register(v), Reg::at(15), top)),
                ),
                Transfer::Store(a) => (
                    brought(s, a, 10),
                    Instr::Mov(Mov::AtOffReg(Reg::at(15), top, hand(a, 10))),
                ),
            }
        }
        Base::Place(p) => {
            let number = Either::Left(n);
            match x {
                Transfer::Load(v) => (
                    brought(s, p, 9),
                    Instr::Mov(Mov::RegAtOff(register(v), hand(p, 9), number)),
                ),
                Transfer::Store(a) => (
                    either(brought(s, p, 9), brought(s, a, 10)),
                    Instr::Mov(Mov::AtOffReg(hand(p, 9), number, hand(a, 10))),
                ),
            }
        }
    }
}

/// What does an operation together with some of those behind it, where there is something.
fn in_one(w: &Around<'_>, s: &Scope<'_>, o: &Op<Where>, rest: &[Node<Where>]) -> Option<Together>
    ensures { result ≡ front_one (whole w.now) (frame s.now) (op_before o.now Stop) (nodes rest.now) }
{
    match accessed(s, o, rest) {
        Some((more, y, x)) => {
            let (first, i) = access_item(s, y.base, y.offset, x);
            Some((more, first, i))
        }
        None => with_next(w, s, o, rest),
    }
}

/// Whether it is a call.
pub(crate) fn is_call(o: &Op<Where>) -> bool
    ensures { result ≡ is_call o.now }
{
    match o {
        Op::Call(_, _, _) => true,
        _ => false,
    }
}

/// Adds an instruction, where there is one.
pub(crate) fn put_before(out: &mut Vec<AsmItem>, first: Option<Instr<Imm>>) -> Result<(), Memory>
    ensures { OnOk result (out.new.items ≡ out.old.items ++ before_it first) }
{
    match first {
        None => Ok(()),
        Some(i) => op(out, i),
    }
}

/// Adds what does an operation together with others, where there is something; how many of those behind it are done then.
fn put_in_one(
    out: &mut Vec<AsmItem>,
    w: &Around<'_>,
    s: &Scope<'_>,
    o: &Op<Where>,
    rest: &[Node<Where>],
) -> Result<Option<u32>, Memory>
    ensures items { OnOk result (out.new.items ≡ out.old.items
        ++ ahead_items (front_one (whole w.now) (frame s.now) (op_before o.now Stop) (nodes rest.now))) }
    ensures more { IfOk result (λ k. k ≡ ahead_more (front_one (whole w.now) (frame s.now) (op_before o.now Stop) (nodes rest.now))) }
{
    match in_one(w, s, o, rest) {
        Some((more, first, i)) => {
            put_before(out, first)?;
            op(out, i)?;
            Ok(Some(more))
        }
        None => Ok(None),
    }
}

/// The same where an operation may be done already; none where its own items are due.
#[tactic(auto, using(crate::proofs::Fronts::items_of_front, crate::proofs::Fronts::more_of_front, crate::proofs::Fronts::none_due))]
fn put_op_ahead(
    out: &mut Vec<AsmItem>,
    w: &Around<'_>,
    s: &Scope<'_>,
    o: &Op<Where>,
    rest: &[Node<Where>],
    done: u32,
) -> Result<Option<u32>, Memory>
    ensures items { OnOk result (out.new.items ≡ out.old.items ++ front_items (whole w.now) (frame s.now) (op_before o.now (nodes rest.now)) done) }
    ensures more { IfOk result (λ k. k ≡ front_more (whole w.now) (frame s.now) (op_before o.now (nodes rest.now)) done) }
    ensures labels { IfOk result (λ k. labels_due k 0 ≡ 0) }
{
    if done == 0 {
        match made_of(w, s, o, rest) {
            Some((more, y)) => {
                put_made(out, s, y)?;
                Ok(Some(more))
            }
            None if is_unread(o, rest) => Ok(Some(0)),
            None => match lead(o, rest) {
                Some((count, y)) => {
                    put_group(out, w, s, y, o, rest, count)?;
                    Ok(Some(count))
                }
                None => put_in_one(out, w, s, o, rest),
            },
        }
    } else {
        Ok(if is_call(o) { None } else { Some(done - 1) })
    }
}

/// The same for a node that stands before others.
pub(crate) fn put_ahead(
    out: &mut Vec<AsmItem>,
    w: &Around<'_>,
    s: &Scope<'_>,
    x: &Node<Where>,
    rest: &[Node<Where>],
    done: u32,
) -> Result<Option<u32>, Memory>
    ensures items { OnOk result (out.new.items ≡ out.old.items ++ front_items (whole w.now) (frame s.now) (before (node x.now) (nodes rest.now)) done) }
    ensures more { IfOk result (λ k. k ≡ front_more (whole w.now) (frame s.now) (before (node x.now) (nodes rest.now)) done) }
    ensures labels { IfOk result (λ k. labels_due k (node_labels (node x.now)) ≡ node_labels (node x.now)) }
{
    match x {
        Node::Do(o) => put_op_ahead(out, w, s, o, rest, done),
        Node::Return(p) => {
            put_giving(out, s, *p, done)?;
            Ok(None)
        }
        _ => Ok(None),
    }
}
