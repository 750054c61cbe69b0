// What is done before a loop that copies words or fills them.
ghost use Rattle.std.specs.Prelude.{◌≡◌, ◌++◌, OnOk, IfOk, map, false};
ghost use Rattle.mid_code.specs.Code.{Stop};
ghost use Rattle.mid_code.specs.Functions.{op_before, node, nodes, listed};
ghost use Rattle.asm_laws.specs.Copies.{is_left, goes_to, is_put, source, source_put, move_item, move_items};
ghost use Rattle.asm_laws.specs.Operations.{puts_items};
ghost use Rattle.asm_emit.specs.inner.Listed.{front_into, front_words, front_there, led_asked, put_here, left_behind, list_puts};
ghost use Rattle.asm_emit.specs.inner.View.{frame, whole};

use crate::ahead::is_call;
use crate::copies::is_from;
use crate::hands::{aim, op, register};
use crate::live::led_asked;
use crate::pieces::{moves, sets};
use crate::scope::{Around, Scope, at_or, local_word};
use asm_items::AsmItem;
use asm_laws::Copying;
use either::Either;
use kit_base::Memory;
use mid_code::{Node, Op, Where};
use v32_isa::{Instr, Mov, Reg};

/// The machine's register that takes the word which is put into a register: DR, SR or CR where the block move takes it from there.
fn goes_to(y: Copying, r: u32) -> u32
    ensures { result ≡ goes_to y r }
{
    if r == y.to {
        13
    } else if is_from(y.from, r) {
        12
    } else if r == y.count {
        11
    } else {
        r
    }
}

/// Whether one of the operations that come first puts a word into a register, or that is known already.
#[tactic(auto, unfolding(asm_laws::specs::Copies::is_put))]
fn is_put(r: u32, known: bool, xs: &[Node<Where>]) -> bool
    ensures { result ≡ is_put r known (nodes xs.now) }
{
    let mut is = known;
    for x in xs {
        match x {
            Node::Do(Op::Const(Where::Reg(q), _)) => is = is || *q == r,
            Node::Do(Op::Global(Where::Reg(q), _)) => is = is || *q == r,
            Node::Do(Op::Local(Where::Reg(q), _)) => is = is || *q == r,
            Node::Do(Op::Move(Where::Reg(q), _)) => is = is || *q == r,
            _ => return is,
        }
    }
    is
}

/// The same with an operation before them.
#[tactic(auto, unfolding(asm_laws::specs::Copies::is_put))]
fn is_put_first(r: u32, o: &Op<Where>, rest: &[Node<Where>]) -> bool
    ensures { result ≡ is_put r false (op_before o.now (nodes rest.now)) }
{
    match o {
        Op::Const(Where::Reg(q), _) => is_put(r, *q == r, rest),
        Op::Global(Where::Reg(q), _) => is_put(r, *q == r, rest),
        Op::Local(Where::Reg(q), _) => is_put(r, *q == r, rest),
        Op::Move(Where::Reg(q), _) => is_put(r, *q == r, rest),
        _ => false,
    }
}

/// Adds what moves the word of a register into one of the machine's, where it is not there.
fn put_moved(out: &mut Vec<AsmItem>, is_there: bool, into: Reg, r: u32) -> Result<(), Memory>
    ensures { OnOk result (out.new.items ≡ out.old.items ++ move_item is_there into r) }
{
    if is_there {
        Ok(())
    } else {
        op(out, Instr::Mov(Mov::RegReg(into, register(r))))
    }
}

fn source(y: Copying) -> u32
    ensures { result ≡ source y.from y }
{
    match y.from {
        None => y.cell,
        Some(from) => from,
    }
}

fn source_put(y: Copying, o: &Op<Where>, rest: &[Node<Where>]) -> bool
    ensures { result ≡ source_put y.from false (op_before o.now (nodes rest.now)) }
{
    match y.from {
        None => false,
        Some(from) => is_put_first(from, o, rest),
    }
}

/// Adds what moves the words that are not put into the registers of the block move.
#[tactic(auto, using(crate::proofs::Fronts::three_parts))]
fn put_moves(
    out: &mut Vec<AsmItem>,
    y: Copying,
    o: &Op<Where>,
    rest: &[Node<Where>],
) -> Result<(), Memory>
    ensures { OnOk result (out.new.items ≡ out.old.items ++ move_items y (op_before o.now (nodes rest.now))) }
{
    put_moved(out, is_put_first(y.to, o, rest), Reg::at(13), y.to)?;
    put_moved(out, source_put(y, o, rest), Reg::at(12), source(y))?;
    put_moved(out, is_put_first(y.count, o, rest), Reg::at(11), y.count)?;
    Ok(())
}

/// Adds what puts the word of an operation where it goes.
fn put_word(
    out: &mut Vec<AsmItem>,
    w: &Around<'_>,
    s: &Scope<'_>,
    y: Copying,
    o: &Op<Where>,
) -> Result<(), Memory>
    ensures { OnOk result (out.new.items ≡ out.old.items ++ front_words (whole w.now) (frame s.now) y (op_before o.now Stop)) }
{
    match o {
        Op::Const(Where::Reg(r), n) => sets(out, s, Where::Reg(goes_to(y, *r)), Either::Left(*n)),
        Op::Global(Where::Reg(r), k) => {
            let address = at_or(w.globals, *k, 0);
            sets(out, s, Where::Reg(goes_to(y, *r)), Either::Left(address))
        }
        Op::Local(Where::Reg(r), k) => {
            let word = Some(Either::Left(local_word(s, *k)));
            op(
                out,
                Instr::Lea(aim(Where::Reg(goes_to(y, *r))), Reg::at(15), word),
            )
        }
        Op::Move(Where::Reg(r), p) => moves(out, s, Where::Reg(goes_to(y, *r)), *p),
        _ => Ok(()),
    }
}

/// The register into which an operation puts a word that takes no more than one instruction.
fn put_into(o: &Op<Where>) -> Option<u32>
    ensures { result ≡ front_into (op_before o.now Stop) }
{
    match o {
        Op::Const(Where::Reg(r), _) => Some(*r),
        Op::Global(Where::Reg(r), _) => Some(*r),
        Op::Local(Where::Reg(r), _) => Some(*r),
        Op::Move(Where::Reg(r), _) => Some(*r),
        _ => None,
    }
}

/// Whether no word is put into a register: that of the 1, where it is not asked for behind the loop.
fn is_left(y: Copying, asked: bool, r: u32) -> bool
    ensures { result ≡ is_left y asked r }
{
    r == y.one && !asked
}

/// Adds what puts the word of an operation where it goes, but for one that is left.
fn put_there(
    out: &mut Vec<AsmItem>,
    w: &Around<'_>,
    s: &Scope<'_>,
    y: Copying,
    asked: bool,
    o: &Op<Where>,
) -> Result<(), Memory>
    ensures { OnOk result (out.new.items ≡ out.old.items ++ front_there (whole w.now) (frame s.now) y asked (op_before o.now Stop)) }
{
    match put_into(o) {
        Some(r) => {
            if is_left(y, asked, r) {
                Ok(())
            } else {
                put_word(out, w, s, y, o)
            }
        }
        None => put_word(out, w, s, y, o),
    }
}

/// The same where so many are left; how many are left behind it.
fn put_here(
    out: &mut Vec<AsmItem>,
    w: &Around<'_>,
    s: &Scope<'_>,
    y: Copying,
    asked: bool,
    o: &Op<Where>,
    left: u32,
) -> Result<Option<u32>, Memory>
    ensures items { OnOk result (out.new.items ≡ out.old.items ++ put_here (whole w.now) (frame s.now) y asked o.now left) }
    ensures left { IfOk result (λ k. k ≡ left_behind o.now left) }
{
    if left == 0 {
        Ok(None)
    } else {
        put_there(out, w, s, y, asked, o)?;
        Ok(if is_call(o) { None } else { Some(left - 1) })
    }
}

/// The same for so many operations that come first.
fn put_words(
    out: &mut Vec<AsmItem>,
    w: &Around<'_>,
    s: &Scope<'_>,
    y: Copying,
    asked: bool,
    xs: &[Node<Where>],
    count: u32,
) -> Result<(), Memory>
    ensures { OnOk result (out.new.items ≡ out.old.items ++ list_puts (whole w.now) (frame s.now) y asked (listed (map node xs.now)) count) }
{
    let mut left = count;
    for x in xs {
        match x {
            Node::Do(o) => match put_here(out, w, s, y, asked, o, left)? {
                Some(n) => left = n,
                None => return Ok(()),
            },
            _ => return Ok(()),
        }
    }
    Ok(())
}

/// The same for an operation and those behind it.
#[tactic(auto, using(crate::proofs::Fronts::led_puts))]
fn put_led(
    out: &mut Vec<AsmItem>,
    w: &Around<'_>,
    s: &Scope<'_>,
    y: Copying,
    asked: bool,
    o: &Op<Where>,
    rest: &[Node<Where>],
    count: u32,
) -> Result<(), Memory>
    ensures { OnOk result (out.new.items ≡ out.old.items ++ puts_items (whole w.now) (frame s.now) y asked (op_before o.now (nodes rest.now)) count) }
{
    match put_here(out, w, s, y, asked, o, count)? {
        Some(n) => {
            put_words(out, w, s, y, asked, rest, n)?;
            Ok(())
        }
        None => Ok(()),
    }
}

/// Adds what puts words where the loop takes them, by operations that come first, and what moves the others there.
#[tactic(auto, using(crate::proofs::Fronts::two_parts))]
pub(crate) fn put_group(
    out: &mut Vec<AsmItem>,
    w: &Around<'_>,
    s: &Scope<'_>,
    y: Copying,
    o: &Op<Where>,
    rest: &[Node<Where>],
    count: u32,
) -> Result<(), Memory>
    ensures { OnOk result (out.new.items ≡ out.old.items ++ (puts_items (whole w.now) (frame s.now) y
        (led_asked s.now.lasting.now (nodes rest.now) y.one) (op_before o.now (nodes rest.now)) count
        ++ move_items y (op_before o.now (nodes rest.now)))) }
{
    let asked = led_asked(s.lasting, rest, y.one);
    put_led(out, w, s, y, asked, o, rest, count)?;
    put_moves(out, y, o, rest)?;
    Ok(())
}
