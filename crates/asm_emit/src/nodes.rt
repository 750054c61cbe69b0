// Nodes.
ghost use Rattle.std.specs.Prelude.{◌≡◌, ◌+◌, ◌-◌, ◌<◌, ◌^◌, ◌++◌, ◌∷◌, [], true, map, suc, length, get_or, OnOk, IfOk};
ghost use Rattle.kit_base.specs.Word.{add};
ghost use Rattle.mid_code.specs.Functions.{node, nodes, listed, BlockN, LoopN};
ghost use Rattle.asm_laws.specs.Operations.{hand, brings};
ghost use Rattle.asm_laws.specs.Copies.{copy_at, copy_or};
ghost use Rattle.asm_laws.specs.declared.behind.Behind.TheVariants.{Other, End, Turn};
ghost use Rattle.asm_laws.specs.inner.Emitted.{labels, enclosing, jump, jump_unless, jump_when, mark, first_part, second_part, one_way, alone};
ghost use Rattle.asm_laws.specs.inner.Emitted.{leaving, left_by, code_items, inside, is_end, is_turn, again, rotated};
ghost use Rattle.asm_emit.specs.inner.Listed.{left_in, ends_in, node_labels, list_labels, node_items, list_past};
ghost use Rattle.asm_emit.specs.inner.Listed.{is_none, is_again, round_in, tested_in, is_operation, turn_labels, part_labels};
ghost use Rattle.asm_emit.specs.inner.Listed.{asked, copied_own, own_test, list_test, list_part, turn_items};
ghost use Rattle.asm_emit.specs.inner.View.{frame, whole};

use crate::ahead::{behind, is_call, put_ahead};
use crate::asks::{ask_of, put_asked};
use crate::copies::{copy_at, put_copy};
use crate::framing::put_frame_gone;
use crate::hands::{brings, hand, op};
use crate::live::is_asked;
use crate::names::jump_label;
use crate::operations::put_op;
use crate::scope::{Around, Scope};
use asm_items::AsmItem;
use asm_laws::Behind;
use either::Either;
use kit_base::Memory;
use mid_code::{Node, Where};
use std::alloc::Global;
use v32_isa::{Branch, Go, Instr, Reg, Src};

/// A function whose nodes are added: the program around it, its frame, and the label to which a result in its middle jumps, where it does not go back to a
/// caller.
#[derive(Drop)]
struct Within<'a> {
    alloc: Global,
    around: Around<'a>,
    scope: Scope<'a>,
    end: Option<u32>,
}

/// Adds a jump to a label.
pub(crate) fn put_jump(alloc: Global, out: &mut Vec<AsmItem>, n: u32) -> Result<(), Memory>
    ensures { OnOk result (out.new.items ≡ out.old.items ++ jump n ∷ []) }
{
    let label = jump_label(alloc, n)?;
    op(out, Instr::Go(Go::JMP, Src::Imm(Either::Right(label))))
}

/// Adds a jump to a label where a register is 0.
fn put_jump_unless(alloc: Global, out: &mut Vec<AsmItem>, r: Reg, n: u32) -> Result<(), Memory>
    ensures { OnOk result (out.new.items ≡ out.old.items ++ jump_unless r n ∷ []) }
{
    let label = jump_label(alloc, n)?;
    op(
        out,
        Instr::Branch(Branch::JF, r, Src::Imm(Either::Right(label))),
    )
}

/// Adds a jump to a label where a register is not 0.
fn put_jump_when(alloc: Global, out: &mut Vec<AsmItem>, r: Reg, n: u32) -> Result<(), Memory>
    ensures { OnOk result (out.new.items ≡ out.old.items ++ jump_when r n ∷ []) }
{
    let label = jump_label(alloc, n)?;
    op(
        out,
        Instr::Branch(Branch::JT, r, Src::Imm(Either::Right(label))),
    )
}

/// Adds a label.
pub(crate) fn put_mark(alloc: Global, out: &mut Vec<AsmItem>, n: u32) -> Result<(), Memory>
    ensures { OnOk result (out.new.items ≡ out.old.items ++ mark n ∷ []) }
{
    let label = jump_label(alloc, n)?;
    out.push(AsmItem::Label(label))?;
    Ok(())
}

/// The number of the label at the beginning of the k-th enclosing block or loop.
fn enclosing(ls: &[u32], k: u32) -> u32
    ensures { result ≡ enclosing ls.now k }
{
    let place = ls.len().saturating_sub(k as usize + 1);
    match ls.get(place) {
        Some(n) => *n,
        None => 0,
    }
}

/// The label to which nodes go that only leave a block or loop.
fn left_in(ls: &[u32], a: &[Node<Where>]) -> Option<u32>
    ensures { result ≡ left_in ls.now (listed (map node a.now)) }
{
    let Some((x, rest)) = a.split_first() else {
        return None;
    };
    match x {
        Node::Leave(k) => match rest.split_first() {
            None => Some(enclosing(ls, *k).wrapping_add(1)),
            Some(_) => None,
        },
        _ => None,
    }
}

/// What comes right behind a node, with these nodes behind it.
fn ends_in(last: Behind, rest: &[Node<Where>]) -> Behind
    ensures { result ≡ ends_in last (listed (map node rest.now)) }
{
    match rest.split_first() {
        None => last,
        Some(_) => Behind::Other,
    }
}

/// What comes right behind the nodes inside of a block or loop.
fn inside(last: Behind) -> Behind
    ensures { result ≡ inside last }
{
    match last {
        Behind::Other => Behind::Other,
        Behind::End => Behind::End,
        Behind::Turn => Behind::Other,
    }
}

fn is_turn(last: Behind) -> bool
    ensures { result ≡ is_turn last }
{
    match last {
        Behind::Other => false,
        Behind::End => false,
        Behind::Turn => true,
    }
}

pub(crate) fn is_none(xs: &[Node<Where>]) -> bool
    ensures { result ≡ is_none (listed (map node xs.now)) }
{
    match xs.split_first() {
        None => true,
        Some(_) => false,
    }
}

/// Whether a node begins the next turn of the innermost loop.
fn is_again(x: &Node<Where>) -> bool
    ensures { result ≡ is_again (node x.now) }
{
    match x {
        Node::Again(k) => *k == 0,
        _ => false,
    }
}

/// Whether the last node does.
fn is_round(xs: &[Node<Where>]) -> bool
    ensures { result ≡ round_in (listed (map node xs.now)) }
{
    let mut rest = xs;
    for x in xs {
        rest = behind(rest);
        if is_none(rest) {
            return is_again(x);
        }
    }
    false
}

/// Whether nodes are operations and then a test, behind which a turn of the loop around them is done or nothing.
fn is_tested(xs: &[Node<Where>]) -> bool
    ensures { result ≡ tested_in (listed (map node xs.now)) }
{
    let mut rest = xs;
    for x in xs {
        rest = behind(rest);
        match x {
            Node::Do(o) => {
                if is_call(o) {
                    return false;
                }
            }
            Node::Choose(_, a, b) => {
                return is_none(b.as_slice()) && is_none(rest) && is_round(a.as_slice());
            }
            _ => return false,
        }
    }
    false
}

/// Goes into a block or loop whose labels begin at n.
fn open(ls: &mut Vec<u32>, n: u32) -> Result<(), Memory>
    ensures { OnOk result (ls.new.items ≡ ls.old.items ++ n ∷ []) }
{
    ls.push(n)?;
    Ok(())
}

/// Adds the test and the first part of a choice, whose label behind it is the number given back.
#[cycle(items)]
fn put_first(
    out: &mut Vec<AsmItem>,
    w: &Within<'_>,
    ls: &mut Vec<u32>,
    n: u32,
    p: Where,
    a: &[Node<Where>],
) -> Result<u32, Memory>
    requires fits { n + 1 + list_labels (listed (map node a.now)) < 2 ^ 32 - 1 }
    ensures items { OnOk result (out.new.items ≡ out.old.items
        ++ first_part (frame w.now.scope) p n (n + 1 + list_labels (listed (map node a.now)))
        (list_past (whole w.now.around) (frame w.now.scope) w.now.end Other ls.old.items (n + 1) (listed (map node a.now)) 0)) }
    ensures labels { OnOk result (ls.new.items ≡ ls.old.items) }
    ensures next { IfOk result (λ m. m ≡ n + 1 + list_labels (listed (map node a.now))) }
{
    brings(out, &w.scope, p, 9)?;
    put_jump_unless(w.alloc, out, hand(p, 9), n)?;
    let m = put_nodes(out, w, Behind::Other, ls, n + 1, a)?;
    put_jump(w.alloc, out, m)?;
    put_mark(w.alloc, out, n)?;
    Ok(m)
}

/// Adds the second part of a choice.
#[cycle(items)]
fn put_second(
    out: &mut Vec<AsmItem>,
    w: &Within<'_>,
    last: Behind,
    ls: &mut Vec<u32>,
    m: u32,
    b: &[Node<Where>],
) -> Result<u32, Memory>
    requires fits { m + 1 + list_labels (listed (map node b.now)) < 2 ^ 32 - 1 }
    ensures items { OnOk result (out.new.items ≡ out.old.items
        ++ second_part m (list_past (whole w.now.around) (frame w.now.scope) w.now.end last ls.old.items (m + 1) (listed (map node b.now)) 0)) }
    ensures labels { OnOk result (ls.new.items ≡ ls.old.items) }
    ensures next { IfOk result (λ k. k ≡ m + 1 + list_labels (listed (map node b.now))) }
{
    let next = put_nodes(out, w, last, ls, m + 1, b)?;
    put_mark(w.alloc, out, m)?;
    Ok(next)
}

/// Adds a choice that has nothing in its second part; the number of the next label.
#[cycle(items)]
fn put_one_way(
    out: &mut Vec<AsmItem>,
    w: &Within<'_>,
    last: Behind,
    ls: &mut Vec<u32>,
    n: u32,
    p: Where,
    a: &[Node<Where>],
) -> Result<u32, Memory>
    requires fits { n + 2 + list_labels (listed (map node a.now)) < 2 ^ 32 - 1 }
    ensures items { OnOk result (out.new.items ≡ out.old.items
        ++ one_way (frame w.now.scope) p n
        (list_past (whole w.now.around) (frame w.now.scope) w.now.end last ls.old.items (n + 1) (listed (map node a.now)) 0)) }
    ensures labels { OnOk result (ls.new.items ≡ ls.old.items) }
    ensures next { IfOk result (λ m. m ≡ n + 2 + list_labels (listed (map node a.now))) }
{
    brings(out, &w.scope, p, 9)?;
    put_jump_unless(w.alloc, out, hand(p, 9), n)?;
    let next = put_nodes(out, w, last, ls, n + 1, a)?;
    put_mark(w.alloc, out, n)?;
    Ok(next + 1)
}

/// Adds a test that goes to a label, where the first part of a choice does no more and there is no second one.
fn put_left(
    alloc: Global,
    out: &mut Vec<AsmItem>,
    s: &Scope<'_>,
    n: u32,
    p: Where,
    l: u32,
) -> Result<(), Memory>
    ensures { OnOk result (out.new.items ≡ out.old.items ++ (brings (frame s.now) p 9 ++ jump_when (hand p 9) l ∷ mark n ∷ [])) }
{
    brings(out, s, p, 9)?;
    put_jump_when(alloc, out, hand(p, 9), l)?;
    put_mark(alloc, out, n)
}

/// Adds a choice that has nothing in its second part; the number of the next label.
#[cycle(items)]
#[tactic(auto, using(crate::proofs::InMemory::left_labels))]
fn put_alone(
    out: &mut Vec<AsmItem>,
    w: &Within<'_>,
    last: Behind,
    ls: &mut Vec<u32>,
    n: u32,
    p: Where,
    a: &[Node<Where>],
) -> Result<u32, Memory>
    requires fits { n + 2 + list_labels (listed (map node a.now)) < 2 ^ 32 - 1 }
    ensures items { OnOk result (out.new.items ≡ out.old.items
        ++ alone (frame w.now.scope) p n (left_in ls.old.items (listed (map node a.now)))
        (list_past (whole w.now.around) (frame w.now.scope) w.now.end last ls.old.items (n + 1) (listed (map node a.now)) 0)) }
    ensures labels { OnOk result (ls.new.items ≡ ls.old.items) }
    ensures next { IfOk result (λ m. m ≡ n + 2 + list_labels (listed (map node a.now))) }
{
    match left_in(ls, a) {
        Some(l) => {
            put_left(w.alloc, out, &w.scope, n, p, l)?;
            Ok(n + 2)
        }
        None => put_one_way(out, w, last, ls, n, p, a),
    }
}

/// Adds a block, or a loop that begins with its nodes in their order.
#[cycle(items)]
fn put_enclosed(
    out: &mut Vec<AsmItem>,
    w: &Within<'_>,
    last: Behind,
    ls: &mut Vec<u32>,
    n: u32,
    b: &[Node<Where>],
) -> Result<u32, Memory>
    requires fits { n + node_labels (BlockN (listed (map node b.now))) < 2 ^ 32 - 1 }
    ensures items { OnOk result (out.new.items ≡ out.old.items
        ++ node_items (whole w.now.around) (frame w.now.scope) w.now.end last ls.old.items n (BlockN (listed (map node b.now)))) }
    ensures labels { OnOk result (ls.new.items ≡ ls.old.items) }
    ensures next { IfOk result (λ m. m ≡ n + node_labels (BlockN (listed (map node b.now)))) }
{
    put_mark(w.alloc, out, n)?;
    open(ls, n)?;
    let next = put_nodes(out, w, inside(last), ls, n + 2, b)?;
    ls.pop();
    put_mark(w.alloc, out, n + 1)?;
    Ok(next)
}

/// Adds the own items of a node of a list that is operations and a test, which goes to a label.
fn put_own_test(
    out: &mut Vec<AsmItem>,
    w: &Within<'_>,
    to: u32,
    x: &Node<Where>,
) -> Result<(), Memory>
    ensures { OnOk result (out.new.items ≡ out.old.items ++ own_test (whole w.now.around) (frame w.now.scope) to (node x.now)) }
{
    match x {
        Node::Do(o) => put_op(w.alloc, out, &w.around, &w.scope, o),
        Node::Choose(p, _, _) => {
            brings(out, &w.scope, *p, 9)?;
            put_jump_when(w.alloc, out, hand(*p, 9), to)
        }
        _ => Ok(()),
    }
}

/// Adds operations and a test that goes to a label.
fn put_test(
    out: &mut Vec<AsmItem>,
    w: &Within<'_>,
    to: u32,
    xs: &[Node<Where>],
) -> Result<(), Memory>
    ensures { OnOk result (out.new.items ≡ out.old.items
        ++ list_test (whole w.now.around) (frame w.now.scope) to (listed (map node xs.now)) 0) }
{
    let mut done: u32 = 0;
    let mut rest = xs;
    for x in xs {
        rest = behind(rest);
        match put_ahead(out, &w.around, &w.scope, x, rest, done)? {
            Some(more) => done = more,
            None => {
                put_own_test(out, w, to, x)?;
                done = 0;
            }
        }
    }
    Ok(())
}

fn is_operation(x: &Node<Where>) -> bool
    ensures { result ≡ is_operation (node x.now) }
{
    match x {
        Node::Do(_) => true,
        _ => false,
    }
}

/// Adds the first part of a choice, at whose end the next turn begins; the number of the next label.
#[cycle(items)]
fn put_turn(
    out: &mut Vec<AsmItem>,
    w: &Within<'_>,
    ls: &mut Vec<u32>,
    n: u32,
    x: &Node<Where>,
) -> Result<u32, Memory>
    requires fits { n + 1 + turn_labels (node x.now) < 2 ^ 32 - 1 }
    ensures items { OnOk result (out.new.items ≡ out.old.items
        ++ turn_items (whole w.now.around) (frame w.now.scope) w.now.end ls.old.items n (node x.now)) }
    ensures labels { OnOk result (ls.new.items ≡ ls.old.items) }
    ensures next { IfOk result (λ m. m ≡ n + 1 + turn_labels (node x.now)) }
{
    match x {
        Node::Choose(_, a, _) => { put_nodes(out, w, Behind::Turn, ls, n + 1, a.as_slice()) }
        _ => Ok(n + 1),
    }
}

/// Adds what is done in a turn of a loop whose test stands behind it; the number of the next label.
#[cycle(items)]
fn put_part(
    out: &mut Vec<AsmItem>,
    w: &Within<'_>,
    ls: &mut Vec<u32>,
    n: u32,
    xs: &[Node<Where>],
) -> Result<u32, Memory>
    requires fits { n + 1 + part_labels (listed (map node xs.now)) < 2 ^ 32 - 1 }
    ensures items { OnOk result (out.new.items ≡ out.old.items
        ++ list_part (whole w.now.around) (frame w.now.scope) w.now.end ls.old.items n (listed (map node xs.now))) }
    ensures labels { OnOk result (ls.new.items ≡ ls.old.items) }
    ensures next { IfOk result (λ m. m ≡ n + 1 + part_labels (listed (map node xs.now))) }
{
    for x in xs {
        if !is_operation(x) {
            return put_turn(out, w, ls, n, x);
        }
    }
    Ok(n + 1)
}

/// Adds a loop whose test stands behind what is done in a turn.
#[cycle(items)]
#[tactic(auto, using(crate::proofs::InMemory::tested_labels))]
fn put_rotated(
    out: &mut Vec<AsmItem>,
    w: &Within<'_>,
    ls: &mut Vec<u32>,
    n: u32,
    b: &[Node<Where>],
) -> Result<u32, Memory>
    requires tested { tested_in (listed (map node b.now)) ≡ true }
    requires fits { n + 2 + list_labels (listed (map node b.now)) < 2 ^ 32 - 1 }
    ensures items { OnOk result (out.new.items ≡ out.old.items
        ++ rotated n (list_part (whole w.now.around) (frame w.now.scope) w.now.end (ls.old.items ++ n ∷ []) (n + 2) (listed (map node b.now)))
        (list_test (whole w.now.around) (frame w.now.scope) (n + 2) (listed (map node b.now)) 0)) }
    ensures labels { OnOk result (ls.new.items ≡ ls.old.items) }
    ensures next { IfOk result (λ m. m ≡ n + 2 + list_labels (listed (map node b.now))) }
{
    put_jump(w.alloc, out, n)?;
    put_mark(w.alloc, out, n + 2)?;
    open(ls, n)?;
    let next = put_part(out, w, ls, n + 2, b)?;
    ls.pop();
    put_mark(w.alloc, out, n)?;
    put_test(out, w, n + 2, b)?;
    put_mark(w.alloc, out, n + 1)?;
    Ok(next + 1)
}

/// Adds a loop.
#[cycle(items)]
fn put_loop(
    out: &mut Vec<AsmItem>,
    w: &Within<'_>,
    last: Behind,
    ls: &mut Vec<u32>,
    n: u32,
    b: &[Node<Where>],
) -> Result<u32, Memory>
    requires fits { n + node_labels (LoopN (listed (map node b.now))) < 2 ^ 32 - 1 }
    ensures items { OnOk result (out.new.items ≡ out.old.items
        ++ node_items (whole w.now.around) (frame w.now.scope) w.now.end last ls.old.items n (LoopN (listed (map node b.now)))) }
    ensures labels { OnOk result (ls.new.items ≡ ls.old.items) }
    ensures next { IfOk result (λ m. m ≡ n + node_labels (LoopN (listed (map node b.now)))) }
{
    if is_tested(b) {
        put_rotated(out, w, ls, n, b)
    } else {
        put_enclosed(out, w, last, ls, n, b)
    }
}

/// Adds a jump to the next turn of the k-th enclosing loop, where that does not come next.
fn put_again(
    alloc: Global,
    out: &mut Vec<AsmItem>,
    ls: &[u32],
    k: u32,
    last: Behind,
) -> Result<(), Memory>
    ensures { OnOk result (out.new.items ≡ out.old.items ++ again ls.now k last) }
{
    if k == 0 && is_turn(last) {
        Ok(())
    } else {
        put_jump(alloc, out, enclosing(ls, k))
    }
}

/// Adds what leaves a function: its frame is taken away, and it goes back; where there is a label, a jump to that.
fn put_leaving(
    alloc: Global,
    out: &mut Vec<AsmItem>,
    s: &Scope<'_>,
    end: Option<u32>,
) -> Result<(), Memory>
    ensures { OnOk result (out.new.items ≡ out.old.items ++ leaving (frame s.now) end) }
{
    match end {
        Some(n) => put_jump(alloc, out, n),
        None => put_frame_gone(out, s.size),
    }
}

/// Leaves the function behind a result, where its end does not come next.
fn put_return(
    alloc: Global,
    out: &mut Vec<AsmItem>,
    s: &Scope<'_>,
    end: Option<u32>,
    last: Behind,
) -> Result<(), Memory>
    ensures { OnOk result (out.new.items ≡ out.old.items ++ left_by (frame s.now) end (is_end last)) }
{
    match last {
        Behind::End => Ok(()),
        Behind::Other => put_leaving(alloc, out, s, end),
        Behind::Turn => put_leaving(alloc, out, s, end),
    }
}

/// Adds the items of a node whose labels begin at n, inside blocks and loops with the labels ls; the number of the
/// next label.
#[cycle(items)]
fn put_node(
    out: &mut Vec<AsmItem>,
    w: &Within<'_>,
    last: Behind,
    ls: &mut Vec<u32>,
    n: u32,
    x: &Node<Where>,
) -> Result<u32, Memory>
    requires fits { n + node_labels (node x.now) < 2 ^ 32 - 1 }
    ensures items { OnOk result (out.new.items ≡ out.old.items
        ++ node_items (whole w.now.around) (frame w.now.scope) w.now.end last ls.old.items n (node x.now)) }
    ensures labels { OnOk result (ls.new.items ≡ ls.old.items) }
    ensures next { IfOk result (λ m. m ≡ n + node_labels (node x.now)) }
{
    match x {
        Node::Do(o) => {
            put_op(w.alloc, out, &w.around, &w.scope, o)?;
            Ok(n)
        }
        Node::Choose(p, a, b) => match b.as_slice().split_first() {
            None => put_alone(out, w, last, ls, n, *p, a.as_slice()),
            Some(_) => {
                let m = put_first(out, w, ls, n, *p, a.as_slice())?;
                put_second(out, w, last, ls, m, b.as_slice())
            }
        },
        Node::Block(b) => put_enclosed(out, w, last, ls, n, b.as_slice()),
        Node::Loop(b) => put_loop(out, w, last, ls, n, b.as_slice()),
        Node::Leave(k) => {
            put_jump(w.alloc, out, enclosing(ls, *k).wrapping_add(1))?;
            Ok(n)
        }
        Node::Again(k) => {
            put_again(w.alloc, out, ls, *k, last)?;
            Ok(n)
        }
        Node::Return(_) => {
            put_return(w.alloc, out, &w.scope, w.end, last)?;
            Ok(n)
        }
    }
}

/// Adds a loop that does not only ask for a turn, with these nodes behind it, where so many operations in front are done already.
#[cycle(items)]
fn put_turning(
    out: &mut Vec<AsmItem>,
    w: &Within<'_>,
    last: Behind,
    ls: &mut Vec<u32>,
    n: u32,
    b: &[Node<Where>],
    rest: &[Node<Where>],
    done: u32,
) -> Result<u32, Memory>
    requires fits { n + node_labels (LoopN (listed (map node b.now))) < 2 ^ 32 - 1 }
    ensures items { OnOk result (out.new.items ≡ out.old.items
        ++ copy_or (copy_at done (nodes b.now)) (asked w.now.scope.lasting.now (nodes rest.now))
        (node_items (whole w.now.around) (frame w.now.scope) w.now.end last ls.old.items n (LoopN (listed (map node b.now))))) }
    ensures labels { OnOk result (ls.new.items ≡ ls.old.items) }
    ensures next { IfOk result (λ m. m ≡ n + node_labels (LoopN (listed (map node b.now)))) }
{
    match copy_at(done, b) {
        Some(y) => {
            put_copy(out, y, w.scope.lasting, rest)?;
            Ok(n + 4)
        }
        None => put_loop(out, w, last, ls, n, b),
    }
}

/// Adds the own items of a node with these nodes behind it, where so many operations in front are done already; the number of the next label.
#[cycle(items)]
fn put_own(
    out: &mut Vec<AsmItem>,
    w: &Within<'_>,
    last: Behind,
    ls: &mut Vec<u32>,
    n: u32,
    x: &Node<Where>,
    rest: &[Node<Where>],
    done: u32,
) -> Result<u32, Memory>
    requires fits { n + node_labels (node x.now) < 2 ^ 32 - 1 }
    ensures items { OnOk result (out.new.items ≡ out.old.items
        ++ copied_own done (node x.now) (asked w.now.scope.lasting.now (nodes rest.now))
        (node_items (whole w.now.around) (frame w.now.scope) w.now.end last ls.old.items n (node x.now))) }
    ensures labels { OnOk result (ls.new.items ≡ ls.old.items) }
    ensures next { IfOk result (λ m. m ≡ n + node_labels (node x.now)) }
{
    match x {
        Node::Loop(b) => match ask_of(b.as_slice()) {
            Some(f) => {
                put_asked(out, f, is_asked(w.scope.lasting, rest, f))?;
                Ok(n + 4)
            }
            None => put_turning(out, w, last, ls, n, b.as_slice(), rest, done),
        },
        _ => put_node(out, w, last, ls, n, x),
    }
}

/// Adds the items of nodes, one after another, some operations in one instruction.
#[cycle(items)]
fn put_nodes(
    out: &mut Vec<AsmItem>,
    w: &Within<'_>,
    last: Behind,
    ls: &mut Vec<u32>,
    n: u32,
    xs: &[Node<Where>],
) -> Result<u32, Memory>
    requires fits { n + list_labels (listed (map node xs.now)) < 2 ^ 32 - 1 }
    ensures items { OnOk result (out.new.items ≡ out.old.items
        ++ list_past (whole w.now.around) (frame w.now.scope) w.now.end last ls.old.items n (listed (map node xs.now)) 0) }
    ensures labels { OnOk result (ls.new.items ≡ ls.old.items) }
    ensures next { IfOk result (λ m. m ≡ n + list_labels (listed (map node xs.now))) }
{
    let mut next = n;
    let mut done: u32 = 0;
    let mut rest = xs;
    for x in xs {
        rest = behind(rest);
        match put_ahead(out, &w.around, &w.scope, x, rest, done)? {
            Some(more) => done = more,
            None => {
                let behind = ends_in(last, rest);
                next = put_own(out, w, behind, ls, next, x, rest, done)?;
                done = 0;
            }
        }
    }
    Ok(next)
}

/// Adds the items of a body whose labels begin at n; the number of the next label.
#[tactic(auto, using(crate::proofs::InMemory::list_counts, crate::proofs::InMemory::list_are))]
pub(crate) fn put_body(
    alloc: Global,
    out: &mut Vec<AsmItem>,
    w: &Around<'_>,
    s: &Scope<'_>,
    end: Option<u32>,
    n: u32,
    body: &[Node<Where>],
) -> Result<u32, Memory>
    requires fits { n + labels (nodes body.now) < 2 ^ 32 - 1 }
    ensures items { OnOk result (out.new.items ≡ out.old.items ++ code_items (whole w.now) (frame s.now) end [] n (nodes body.now)) }
    ensures next { IfOk result (λ m. m ≡ n + labels (nodes body.now)) }
{
    let mut ls = Vec::new(alloc);
    let within = Within {
        alloc,
        around: *w,
        scope: *s,
        end,
    };
    put_nodes(out, &within, Behind::End, &mut ls, n, body)
}
