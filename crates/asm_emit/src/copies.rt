// Loops that copy words or fill them.
ghost use Rattle.std.specs.Prelude.{◌≡◌, ◌++◌, ◌∷◌, [], Some, None, OnOk, cond};
ghost use Rattle.v32_isa.specs.declared.instruction.Mov.TheVariants.{RegReg, RegAtReg};
ghost use Rattle.v32_isa.specs.declared.instruction.Instr.TheVariants as instr;
ghost use Rattle.asm_items.specs.declared.item.AsmItem.TheVariants as item;
ghost use Rattle.mid_code.specs.Functions.{op_before, nodes};
ghost use Rattle.asm_laws.specs.Copies.{steps_by, ends_here, turns_here, steps_to, steps_both, steps_on, goes_round};
ghost use Rattle.asm_laws.specs.Copies.{four_differ, other_differs, differ, is_copy};
ghost use Rattle.asm_laws.specs.Copies.{copy_counted, copy_stored, copy_of, copy_after, is_from, is_moved, reads_moved, puts_ahead};
ghost use Rattle.asm_laws.specs.Copies.{last_put, is_count, is_one, lead, copy_at};
ghost use Rattle.asm_laws.specs.Copies.{block_of, last_item, when, back_items, copy_items};
ghost use Rattle.asm_laws.specs.Pieces.{register};
ghost use Rattle.asm_emit.specs.inner.Listed.{takes_moved, leads_behind, asked};

use crate::hands::{op, register};
use crate::live::is_asked;
use crate::nodes::is_none;
use asm_items::AsmItem;
use asm_laws::Copying;
use either::Either;
use kit_base::Memory;
use mid_code::{Node, Op, Where};
use v32_isa::{Instr, Mov, Plain, Reg, Two};

/// Whether a register takes the sum of its own address and the word in another one.
fn steps_by(address: u32, one: u32, t: u32, p: u32, n: u32) -> bool
    ensures { result ≡ steps_by address one t p n }
{
    t == address && p == address && n == one
}

#[tactic(auto, using(crate::proofs::InMemory::ends_alike))]
pub(crate) fn ends_here(xs: &[Node<Where>]) -> bool
    ensures { result ≡ ends_here (nodes xs.now) }
{
    is_none(xs)
}

/// Whether the next turn of the innermost loop begins, and nothing comes behind.
pub(crate) fn turns_here(xs: &[Node<Where>]) -> bool
    ensures { result ≡ turns_here (nodes xs.now) }
{
    let Some((x, rest)) = xs.split_first() else {
        return false;
    };
    match x {
        Node::Again(k) => *k == 0 && ends_here(rest),
        _ => false,
    }
}

fn steps_to(y: Copying, xs: &[Node<Where>]) -> bool
    ensures { result ≡ steps_to y (nodes xs.now) }
{
    let Some((x, rest)) = xs.split_first() else {
        return false;
    };
    match x {
        Node::Do(Op::Step(Where::Reg(t), Where::Reg(p), Where::Reg(n))) => {
            steps_by(y.to, y.one, *t, *p, *n) && turns_here(rest)
        }
        _ => false,
    }
}

/// Whether both addresses go one word on, and the next turn begins.
fn steps_both(from: u32, y: Copying, xs: &[Node<Where>]) -> bool
    ensures { result ≡ steps_both from y (nodes xs.now) }
{
    let Some((x, rest)) = xs.split_first() else {
        return false;
    };
    match x {
        Node::Do(Op::Step(Where::Reg(t), Where::Reg(p), Where::Reg(n))) => {
            steps_by(from, y.one, *t, *p, *n) && steps_to(y, rest)
        }
        _ => false,
    }
}

/// Whether the addresses do.
fn steps_on(y: Copying, xs: &[Node<Where>]) -> bool
    ensures { result ≡ steps_on y.from y (nodes xs.now) }
{
    match y.from {
        None => steps_to(y, xs),
        Some(from) => steps_both(from, y, xs),
    }
}

/// Whether that is done where words are left, and nothing else.
fn goes_round(y: Copying, xs: &[Node<Where>]) -> bool
    ensures { result ≡ goes_round y (nodes xs.now) }
{
    let Some((x, rest)) = xs.split_first() else {
        return false;
    };
    match x {
        Node::Choose(Where::Reg(w), a, b) => {
            *w == y.count && steps_on(y, a.as_slice()) && ends_here(b.as_slice()) && ends_here(rest)
        }
        _ => false,
    }
}

/// Whether four registers differ from one another and from register 8.
fn four_differ(y: Copying) -> bool
    ensures { result ≡ four_differ y }
{
    (y.to != y.cell && y.to != y.count && y.to != y.one && y.to != 8)
        && (y.cell != y.count && y.cell != y.one && y.cell != 8)
        && (y.count != y.one && y.count != 8)
        && y.one != 8
}

/// Whether the register of the address that is read, where there is one, differs from them and from register 8.
fn other_differs(y: Copying) -> bool
    ensures { result ≡ other_differs y.from y }
{
    match y.from {
        None => true,
        Some(f) => f != y.to && f != y.cell && f != y.count && f != y.one && f != 8,
    }
}

fn differ(y: Copying) -> bool
    ensures { result ≡ differ y }
{
    other_differs(y) && four_differ(y)
}

fn is_copy(y: Copying, x: u32, rest: &[Node<Where>]) -> bool
    ensures { result ≡ is_copy y x (nodes rest.now) }
{
    x == y.count && goes_round(y, rest) && differ(y)
}

fn copy_counted(from: Option<u32>, to: u32, cell: u32, xs: &[Node<Where>]) -> Option<Copying>
    ensures { result ≡ copy_counted from to cell (nodes xs.now) }
{
    let (x, rest) = xs.split_first()?;
    match x {
        Node::Do(Op::Two(Two::ISUB, Where::Reg(t), Where::Reg(a), Where::Reg(n))) => {
            let y = Copying {
                from,
                to,
                cell,
                count: *t,
                one: *n,
            };
            if is_copy(y, *a, rest) { Some(y) } else { None }
        }
        _ => None,
    }
}

fn copy_stored(from: u32, cell: u32, xs: &[Node<Where>]) -> Option<Copying>
    ensures { result ≡ copy_stored from cell (nodes xs.now) }
{
    let (x, rest) = xs.split_first()?;
    match x {
        Node::Do(Op::Store(Where::Reg(to), Where::Reg(a))) => {
            if *a == cell {
                copy_counted(Some(from), *to, cell, rest)
            } else {
                None
            }
        }
        _ => None,
    }
}

/// The registers of a turn of a loop that copies words or fills them.
#[tactic(auto, unfolding(asm_laws::specs::Copies::copy_of))]
pub(crate) fn copy_of(xs: &[Node<Where>]) -> Option<Copying>
    ensures { result ≡ copy_of (nodes xs.now) }
{
    let (x, rest) = xs.split_first()?;
    match x {
        Node::Do(Op::Load(Where::Reg(cell), Where::Reg(from))) => copy_stored(*from, *cell, rest),
        Node::Do(Op::Store(Where::Reg(to), Where::Reg(cell))) => {
            copy_counted(None, *to, *cell, rest)
        }
        _ => None,
    }
}

/// The registers of such a loop, where only operations that put a word into a register come before it.
#[tactic(auto, unfolding(asm_laws::specs::Copies::copy_after))]
fn copy_after(xs: &[Node<Where>]) -> Option<Copying>
    ensures { result ≡ copy_after (nodes xs.now) }
{
    for x in xs {
        match x {
            Node::Do(Op::Const(Where::Reg(_), _)) => {}
            Node::Do(Op::Global(Where::Reg(_), _)) => {}
            Node::Do(Op::Local(Where::Reg(_), _)) => {}
            Node::Do(Op::Move(Where::Reg(_), _)) => {}
            Node::Loop(b) => return copy_of(b.as_slice()),
            _ => return None,
        }
    }
    None
}

/// Whether a loop reads words from the address in a register.
pub(crate) fn is_from(from: Option<u32>, r: u32) -> bool
    ensures { result ≡ is_from from r }
{
    match from {
        None => false,
        Some(f) => r == f,
    }
}

/// Whether the block move takes the word of a register, and leaves another one there.
fn is_moved(y: Copying, r: u32) -> bool
    ensures { result ≡ is_moved y r }
{
    r == y.to || is_from(y.from, r) || r == y.count
}

fn reads_moved(y: Copying, p: Where) -> bool
    ensures { result ≡ reads_moved y p }
{
    match p {
        Where::Reg(r) => is_moved(y, r) || r == y.one,
        Where::Slot(_) => false,
    }
}

/// How many these are, with one before them; at most 8, none of which takes its word from such a register.
#[tactic(auto, unfolding(asm_laws::specs::Copies::puts_ahead))]
fn puts_ahead(y: Copying, xs: &[Node<Where>]) -> Option<u32>
    ensures { result ≡ puts_ahead y 1 (nodes xs.now) }
{
    let mut count: u32 = 1;
    for x in xs {
        match x {
            Node::Do(Op::Const(Where::Reg(_), _)) => {
                if count == 8 {
                    return None;
                }
                count += 1;
            }
            Node::Do(Op::Global(Where::Reg(_), _)) => {
                if count == 8 {
                    return None;
                }
                count += 1;
            }
            Node::Do(Op::Local(Where::Reg(_), _)) => {
                if count == 8 {
                    return None;
                }
                count += 1;
            }
            Node::Do(Op::Move(Where::Reg(_), p)) => {
                if count == 8 || reads_moved(y, *p) {
                    return None;
                }
                count += 1;
            }
            Node::Loop(_) => return Some(count),
            _ => return None,
        }
    }
    None
}

/// One of two.
fn picked(is: bool, one: Option<u32>, other: Option<u32>) -> Option<u32>
    ensures { result ≡ cond is one other }
{
    if is { one } else { other }
}

/// The word that they put into a register last, where one is known already.
#[tactic(auto, unfolding(asm_laws::specs::Copies::last_put))]
fn last_put(r: u32, xs: &[Node<Where>], before: Option<u32>) -> Option<u32>
    ensures { result ≡ last_put r (nodes xs.now) before }
{
    let mut known = before;
    for x in xs {
        match x {
            Node::Do(Op::Const(Where::Reg(q), n)) => known = picked(r == *q, Some(*n), known),
            Node::Do(Op::Global(Where::Reg(q), _)) => known = picked(r == *q, None, known),
            Node::Do(Op::Local(Where::Reg(q), _)) => known = picked(r == *q, None, known),
            Node::Do(Op::Move(Where::Reg(q), _)) => known = picked(r == *q, None, known),
            _ => return known,
        }
    }
    known
}

fn is_count(n: Option<u32>) -> bool
    ensures { result ≡ is_count n }
{
    match n {
        None => false,
        Some(n) => 0 < n && n < 0x8000_0000,
    }
}

fn is_one(n: Option<u32>) -> bool
    ensures { result ≡ is_one n }
{
    match n {
        None => false,
        Some(n) => n == 1,
    }
}

fn takes_moved(y: Copying, p: Option<Where>) -> bool
    ensures { result ≡ takes_moved y p }
{
    match p {
        None => false,
        Some(p) => reads_moved(y, p),
    }
}

/// How many operations put words into registers before such a loop whose count and 1 are known by them, and its registers, where the first one puts a word
/// into register r, which is that of the place p where there is one.
fn leads(
    r: u32,
    word: Option<u32>,
    p: Option<Where>,
    rest: &[Node<Where>],
) -> Option<(u32, Copying)>
    ensures { result ≡ leads_behind r word p (nodes rest.now) (copy_after (nodes rest.now)) }
{
    let y = copy_after(rest)?;
    if takes_moved(y, p) {
        return None;
    }
    let count = puts_ahead(y, rest)?;
    let words = if y.count == r { word } else { None };
    let one = if y.one == r { word } else { None };
    if is_count(last_put(y.count, rest, words)) && is_one(last_put(y.one, rest, one)) {
        Some((count, y))
    } else {
        None
    }
}

/// The same of an operation and the nodes behind it.
#[tactic(auto, using(crate::proofs::LeadsBehind::const_leads, crate::proofs::LeadsBehind::global_leads, crate::proofs::LeadsBehind::local_leads, crate::proofs::LeadsBehind::move_leads), unfolding(asm_laws::specs::Copies::lead))]
pub(crate) fn lead(o: &Op<Where>, rest: &[Node<Where>]) -> Option<(u32, Copying)>
    ensures { result ≡ lead (op_before o.now (nodes rest.now)) }
{
    match o {
        Op::Const(Where::Reg(r), n) => leads(*r, Some(*n), None, rest),
        Op::Global(Where::Reg(r), _) => leads(*r, None, None, rest),
        Op::Local(Where::Reg(r), _) => leads(*r, None, None, rest),
        Op::Move(Where::Reg(r), p) => leads(*r, None, Some(*p), rest),
        _ => None,
    }
}

/// The registers of a loop before which so many operations of that kind are done.
pub(crate) fn copy_at(done: u32, b: &[Node<Where>]) -> Option<Copying>
    ensures { result ≡ copy_at done (nodes b.now) }
{
    if done == 0 { None } else { copy_of(b) }
}

/// Adds what puts into a register, where it is asked for, the address of the last word that was read or written, which one of the emitter's registers has gone
/// past.
fn put_last(out: &mut Vec<AsmItem>, is: bool, address: u32, past: Reg) -> Result<(), Memory>
    ensures { OnOk result (out.new.items ≡ out.old.items ++ when is (last_item address past)) }
{
    if is {
        op(
            out,
            Instr::Lea(register(address), past, Some(Either::Left(0xFFFF_FFFF))),
        )
    } else {
        Ok(())
    }
}

/// Adds what puts the count that is left into its register, where that is asked for.
fn put_left(out: &mut Vec<AsmItem>, is: bool, y: Copying) -> Result<(), Memory>
    ensures { OnOk result (out.new.items ≡ out.old.items ++ when is (item.Op (instr.Mov (RegReg (register y.count) 11)))) }
{
    if is {
        op(out, Instr::Mov(Mov::RegReg(register(y.count), Reg::at(11))))
    } else {
        Ok(())
    }
}

/// Adds what puts the last word into its register, where that is asked for.
fn put_cell(out: &mut Vec<AsmItem>, is: bool, y: Copying) -> Result<(), Memory>
    ensures { OnOk result (out.new.items ≡ out.old.items ++ when is (item.Op (instr.Mov (RegAtReg (register y.cell) (register y.to))))) }
{
    if is {
        op(
            out,
            Instr::Mov(Mov::RegAtReg(register(y.cell), register(y.to))),
        )
    } else {
        Ok(())
    }
}

/// Adds what puts into registers that are asked for before these nodes what a loop leaves in them that fills words.
#[tactic(auto, using(crate::proofs::Fronts::two_parts))]
fn put_filled(
    out: &mut Vec<AsmItem>,
    y: Copying,
    lasting: &[bool],
    rest: &[Node<Where>],
) -> Result<(), Memory>
    ensures { OnOk result (out.new.items ≡ out.old.items ++ back_items None y (asked lasting.now (nodes rest.now))) }
{
    put_last(out, is_asked(lasting, rest, y.to), y.to, Reg::at(13))?;
    put_left(out, is_asked(lasting, rest, y.count), y)?;
    Ok(())
}

/// The same of a loop that copies words from an address.
#[tactic(auto, using(crate::proofs::Fronts::four_parts))]
fn put_copied(
    out: &mut Vec<AsmItem>,
    from: u32,
    y: Copying,
    lasting: &[bool],
    rest: &[Node<Where>],
) -> Result<(), Memory>
    ensures { OnOk result (out.new.items ≡ out.old.items ++ back_items (Some from) y (asked lasting.now (nodes rest.now))) }
{
    let cell = is_asked(lasting, rest, y.cell);
    put_last(out, is_asked(lasting, rest, from), from, Reg::at(12))?;
    put_last(
        out,
        is_asked(lasting, rest, y.to) || cell,
        y.to,
        Reg::at(13),
    )?;
    put_left(out, is_asked(lasting, rest, y.count), y)?;
    put_cell(out, cell, y)?;
    Ok(())
}

/// The same of either loop.
fn put_back(
    out: &mut Vec<AsmItem>,
    y: Copying,
    lasting: &[bool],
    rest: &[Node<Where>],
) -> Result<(), Memory>
    ensures { OnOk result (out.new.items ≡ out.old.items ++ back_items y.from y (asked lasting.now (nodes rest.now))) }
{
    match y.from {
        None => put_filled(out, y, lasting, rest),
        Some(from) => put_copied(out, from, y, lasting, rest),
    }
}

fn block_of(y: Copying) -> Plain
    ensures { result ≡ block_of y.from }
{
    match y.from {
        None => Plain::SETS,
        Some(_) => Plain::MOVS,
    }
}

/// Adds the block move or fill, and what puts registers back that are asked for before the nodes behind it, where these registers last.
#[tactic(auto, using(crate::proofs::Fronts::both_parts))]
pub(crate) fn put_copy(
    out: &mut Vec<AsmItem>,
    y: Copying,
    lasting: &[bool],
    rest: &[Node<Where>],
) -> Result<(), Memory>
    ensures { OnOk result (out.new.items ≡ out.old.items ++ copy_items y (asked lasting.now (nodes rest.now))) }
{
    op(out, Instr::Plain(block_of(y)))?;
    put_back(out, y, lasting, rest)?;
    Ok(())
}
