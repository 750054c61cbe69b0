// Nodes that are added, and copies of cells.
ghost use Rattle.std.specs.Prelude.{◌≡◌, ◌==◌, ◌++◌, ◌∷◌, [], false, map, IfOk, OnOk};
ghost use Rattle.mid_code.specs.Functions.{DoN, ChooseN, LoopN, listed, node};
ghost use Rattle.lower_trees.specs.Pieces.{◌▸◌, DoP, LoopP, AgainP};
ghost use Rattle.lower_trees.specs.inner.Adding.{AddsCode};
ghost use Rattle.lower_trees.specs.Parts.{count, one, cell, from, to, copy_turn, zero_turn, copied, moved_by, structure_read, stored, made};
ghost use Rattle.lower_trees.specs.Parts.{ask_turn, asked, word_copied, pair_copied, copied_between, copied_on, word_read, pair_read, local_filled};
ghost use Rattle.c_types.specs.View.{ctype};
ghost use Rattle.lower_trees.specs.View.{shape_of};

use crate::output::Nodes;
use crate::reading::Reading;
use c_exprs::keeping;
use c_types::{CType, is_structure};
use kit_base::{Memory, Seq};
use mid_code::{Node, Op};
use std::alloc::Global;
use v32_isa::Two;

/// The turns left of a loop over cells.
pub(crate) const COUNT: u32 = 0;
/// A 1 while cells are gone over, and in a switch.
pub(crate) const ONE: u32 = 1;
/// The cell of a turn.
pub(crate) const CELL: u32 = 2;
/// The place that is read.
pub(crate) const FROM: u32 = 3;
/// The place that is written.
pub(crate) const TO: u32 = 4;
/// What a condition or the value of a switch is compared with.
pub(crate) const OTHER: u32 = 5;
/// The value that fills a part.
pub(crate) const ITEM: u32 = 6;
/// The object that is filled.
pub(crate) const OBJECT: u32 = 7;
/// The place of a structure that is returned.
pub(crate) const RESULT_AT: u32 = 8;
/// The first argument.
pub(crate) const FIRST_PARAM: u32 = 16;

/// Adds a node.
pub(crate) fn add(nodes: &mut Nodes, added: Node<u32>) -> Result<(), Memory>
    ensures { OnOk result (map node nodes.new.items ≡ map node nodes.old.items ++ node added ∷ []) }
{
    nodes.push(added)?;
    Ok(())
}

/// Adds an operation.
pub(crate) fn put(nodes: &mut Nodes, o: Op<u32>) -> Result<(), Memory>
    ensures { OnOk result (AddsCode nodes.old nodes.new (DoP o)) }
{
    add(nodes, Node::Do(o))
}

/// An operation by itself.
pub(crate) fn alone(alloc: Global, o: Op<u32>) -> Result<Nodes, Memory>
    ensures { IfOk result (λ r. map node r.items ≡ DoN o ∷ []) }
{
    let mut nodes = Vec::new(alloc);
    put(&mut nodes, o)?;
    Ok(nodes)
}

/// Adds a choice by the word in t.
pub(crate) fn put_choice(
    nodes: &mut Nodes,
    t: u32,
    first: Nodes,
    second: Nodes,
) -> Result<(), Memory>
    ensures { OnOk result (map node nodes.new.items ≡ map node nodes.old.items
        ++ ChooseN t (listed (map node first.items)) (listed (map node second.items)) ∷ []) }
{
    add(
        nodes,
        Node::Choose(t, Seq::from_vec(first), Seq::from_vec(second)),
    )
}

/// Adds a loop.
pub(crate) fn put_loop(nodes: &mut Nodes, turn: Nodes) -> Result<(), Memory>
    ensures { OnOk result (map node nodes.new.items ≡ map node nodes.old.items ++ LoopN (listed (map node turn.items)) ∷ []) }
{
    add(nodes, Node::Loop(Seq::from_vec(turn)))
}

/// The next cell is written, in the next turn.
fn go_on(nodes: &mut Nodes) -> Result<(), Memory>
    ensures { OnOk result (AddsCode nodes.old nodes.new (DoP (Op.Step to to one) ▸ AgainP 0)) }
{
    put(nodes, Op::Step(TO, TO, ONE))?;
    add(nodes, Node::Again(0))
}

/// The next cell is read and written, in the next turn.
fn go_on_reading(nodes: &mut Nodes) -> Result<(), Memory>
    ensures { OnOk result (AddsCode nodes.old nodes.new (DoP (Op.Step from from one) ▸ DoP (Op.Step to to one) ▸ AgainP 0)) }
{
    put(nodes, Op::Step(FROM, FROM, ONE))?;
    go_on(nodes)
}

/// One cell less is left; where one is, the turn goes on with these nodes.
fn count_cell(alloc: Global, nodes: &mut Nodes, further: Nodes) -> Result<(), Memory>
    ensures { OnOk result (map node nodes.new.items ≡ map node nodes.old.items
        ++ (DoN (Op.Two Two.ISUB count count one) ∷ ChooseN count (listed (map node further.items)) (listed []) ∷ [])) }
{
    let counted = put(nodes, Op::Two(Two::ISUB, COUNT, COUNT, ONE));
    let (further, _) = keeping(further, counted)?;
    put_choice(nodes, COUNT, further, Vec::new(alloc))
}

/// One turn per cell that is copied.
fn copy_turn(alloc: Global, nodes: &mut Nodes) -> Result<(), Memory>
    ensures { OnOk result (AddsCode nodes.old nodes.new copy_turn) }
{
    put(nodes, Op::Load(CELL, FROM))?;
    put(nodes, Op::Store(TO, CELL))?;
    let mut further = Vec::new(alloc);
    let answer = go_on_reading(&mut further);
    let (further, _) = keeping(further, answer)?;
    count_cell(alloc, nodes, further)
}

/// One turn per cell that is set to 0.
fn zero_turn(alloc: Global, nodes: &mut Nodes) -> Result<(), Memory>
    ensures { OnOk result (AddsCode nodes.old nodes.new zero_turn) }
{
    put(nodes, Op::Store(TO, CELL))?;
    let mut further = Vec::new(alloc);
    let answer = go_on(&mut further);
    let (further, _) = keeping(further, answer)?;
    count_cell(alloc, nodes, further)
}

/// So many cells are left to be gone over.
fn begin_cells(nodes: &mut Nodes, size: u32) -> Result<(), Memory>
    ensures { OnOk result (AddsCode nodes.old nodes.new (DoP (Op.Const count size) ▸ DoP (Op.Const one 1))) }
{
    put(nodes, Op::Const(COUNT, size))?;
    put(nodes, Op::Const(ONE, 1))
}

/// Copies `size` cells, at least one.
fn copy_some(alloc: Global, nodes: &mut Nodes, size: u32) -> Result<(), Memory>
    ensures { OnOk result (AddsCode nodes.old nodes.new (DoP (Op.Const count size) ▸ DoP (Op.Const one 1) ▸ LoopP copy_turn)) }
{
    begin_cells(nodes, size)?;
    let mut turn = Vec::new(alloc);
    let answer = copy_turn(alloc, &mut turn);
    let (turn, _) = keeping(turn, answer)?;
    put_loop(nodes, turn)
}

/// Copies `size` cells.
#[tactic(auto, using(crate::proofs::Filled::copied_none, crate::proofs::Filled::copied_some))]
pub(crate) fn copy_cells(alloc: Global, nodes: &mut Nodes, size: u32) -> Result<(), Memory>
    ensures { OnOk result (AddsCode nodes.old nodes.new (copied size)) }
{
    if size == 0 {
        Ok(())
    } else {
        copy_some(alloc, nodes, size)
    }
}

/// Sets `size` cells to 0, at least one.
pub(crate) fn zero_cells(alloc: Global, nodes: &mut Nodes, size: u32) -> Result<(), Memory>
    ensures { OnOk result (AddsCode nodes.old nodes.new (DoP (Op.Const count size) ▸ DoP (Op.Const one 1) ▸ DoP (Op.Const cell 0) ▸ LoopP zero_turn)) }
{
    begin_cells(nodes, size)?;
    put(nodes, Op::Const(CELL, 0))?;
    let mut turn = Vec::new(alloc);
    let answer = zero_turn(alloc, &mut turn);
    let (turn, _) = keeping(turn, answer)?;
    put_loop(nodes, turn)
}

/// Puts the pointer in `p`, moved on by `offset` words, into `t`.
pub(crate) fn move_by(nodes: &mut Nodes, t: u32, p: u32, offset: u32) -> Result<(), Memory>
    ensures { OnOk result (AddsCode nodes.old nodes.new (moved_by t p offset)) }
{
    put(nodes, Op::Const(t, offset))?;
    put(nodes, Op::Step(t, p, t))
}

/// No cell is left in the next turn.
fn go_on_once(nodes: &mut Nodes) -> Result<(), Memory>
    ensures { OnOk result (AddsCode nodes.old nodes.new (DoP (Op.Const count 0) ▸ AgainP 0)) }
{
    put(nodes, Op::Const(COUNT, 0))?;
    add(nodes, Node::Again(0))
}

/// One turn, which asks for the next where a cell is left.
fn ask_turn(alloc: Global, nodes: &mut Nodes) -> Result<(), Memory>
    ensures { OnOk result (AddsCode nodes.old nodes.new ask_turn) }
{
    let mut further = Vec::new(alloc);
    let answer = go_on_once(&mut further);
    let (further, _) = keeping(further, answer)?;
    put_choice(nodes, COUNT, further, Vec::new(alloc))
}

/// Asks for one more turn, in which nothing is done, where a cell is left.
fn ask_if_left(alloc: Global, nodes: &mut Nodes) -> Result<(), Memory>
    ensures { OnOk result (AddsCode nodes.old nodes.new (LoopP ask_turn)) }
{
    let mut turn = Vec::new(alloc);
    let answer = ask_turn(alloc, &mut turn);
    let (turn, _) = keeping(turn, answer)?;
    put_loop(nodes, turn)
}

/// Asks for one more turn, in which nothing is done.
fn ask(alloc: Global, nodes: &mut Nodes) -> Result<(), Memory>
    ensures { OnOk result (AddsCode nodes.old nodes.new asked) }
{
    put(nodes, Op::Const(COUNT, 1))?;
    ask_if_left(alloc, nodes)
}

/// Copies the cell at the place in `p` to the place in `q`.
fn copy_word(nodes: &mut Nodes, p: u32, q: u32) -> Result<(), Memory>
    ensures { OnOk result (AddsCode nodes.old nodes.new (word_copied p q)) }
{
    put(nodes, Op::Load(CELL, p))?;
    put(nodes, Op::Store(q, CELL))
}

/// Copies the second of two cells, whose place is known, behind the place in `q`.
fn copy_second(nodes: &mut Nodes, q: u32) -> Result<(), Memory>
    ensures { OnOk result (AddsCode nodes.old nodes.new
        (DoP (Op.Load cell from) ▸ DoP (Op.Const one 1) ▸ DoP (Op.Step to q one) ▸ DoP (Op.Store to cell))) }
{
    put(nodes, Op::Load(CELL, FROM))?;
    put(nodes, Op::Const(ONE, 1))?;
    put(nodes, Op::Step(TO, q, ONE))?;
    put(nodes, Op::Store(TO, CELL))
}

/// Makes a pointer to the second of two cells, behind the place in `p`; a 1 comes to `t`.
fn point_second(nodes: &mut Nodes, p: u32, t: u32) -> Result<(), Memory>
    ensures { OnOk result (AddsCode nodes.old nodes.new (DoP (Op.Const t 1) ▸ DoP (Op.Step from p t))) }
{
    put(nodes, Op::Const(t, 1))?;
    put(nodes, Op::Step(FROM, p, t))
}

/// Copies the two cells at the place in `p` to the place in `q`.
fn copy_pair(alloc: Global, nodes: &mut Nodes, p: u32, q: u32) -> Result<(), Memory>
    ensures { OnOk result (AddsCode nodes.old nodes.new (pair_copied p q)) }
{
    copy_word(nodes, p, q)?;
    ask(alloc, nodes)?;
    point_second(nodes, p, ONE)?;
    copy_second(nodes, q)
}

/// Copies cells from the place in `p` to the place in `q`, by the loop.
fn copy_far(alloc: Global, nodes: &mut Nodes, size: u32, p: u32, q: u32) -> Result<(), Memory>
    ensures { OnOk result (AddsCode nodes.old nodes.new (DoP (Op.Move from p) ▸ DoP (Op.Move to q) ▸ copied size)) }
{
    put(nodes, Op::Move(FROM, p))?;
    put(nodes, Op::Move(TO, q))?;
    copy_cells(alloc, nodes, size)
}

/// Copies `size` cells from the place in `p` to the place in `q`.
#[tactic(auto, using(crate::proofs::Filled::sized))]
pub(crate) fn copy_between(
    alloc: Global,
    nodes: &mut Nodes,
    size: u32,
    p: u32,
    q: u32,
) -> Result<(), Memory>
    ensures { OnOk result (AddsCode nodes.old nodes.new (copied_between size p q)) }
{
    if size == 0 {
        return Ok(());
    }
    if size == 1 {
        return copy_word(nodes, p, q);
    }
    if size == 2 {
        return copy_pair(alloc, nodes, p, q);
    }
    copy_far(alloc, nodes, size, p, q)
}

/// Copies cells from the place in `p`, by the loop.
fn copy_on(alloc: Global, nodes: &mut Nodes, size: u32, p: u32) -> Result<(), Memory>
    ensures { OnOk result (AddsCode nodes.old nodes.new (DoP (Op.Move from p) ▸ copied size)) }
{
    put(nodes, Op::Move(FROM, p))?;
    copy_cells(alloc, nodes, size)
}

/// Copies `size` cells from the place in `p` to the place that is written.
#[tactic(auto, using(crate::proofs::Filled::sized))]
pub(crate) fn copy_from(alloc: Global, nodes: &mut Nodes, size: u32, p: u32) -> Result<(), Memory>
    ensures { OnOk result (AddsCode nodes.old nodes.new (copied_on size p)) }
{
    if size == 0 {
        return Ok(());
    }
    if size == 1 {
        return copy_word(nodes, p, TO);
    }
    if size == 2 {
        return copy_pair(alloc, nodes, p, TO);
    }
    copy_on(alloc, nodes, size, p)
}

/// Copies the cell at the place in `t` to a local, and puts a pointer to that into `t`.
fn read_word(nodes: &mut Nodes, local: u32, t: u32) -> Result<(), Memory>
    ensures { OnOk result (AddsCode nodes.old nodes.new (word_read local t)) }
{
    put(nodes, Op::Load(CELL, t))?;
    put(nodes, Op::Local(t, local))?;
    put(nodes, Op::Store(t, CELL))
}

/// Stores the first of two cells in a local, and puts a pointer to that into `t`.
fn store_first(nodes: &mut Nodes, local: u32, t: u32) -> Result<(), Memory>
    ensures { OnOk result (AddsCode nodes.old nodes.new (DoP (Op.Local t local) ▸ DoP (Op.Store t cell))) }
{
    put(nodes, Op::Local(t, local))?;
    put(nodes, Op::Store(t, CELL))
}

/// Copies the first of the two cells at the place in `t` to a local, and puts a pointer to that into `t`.
fn read_first(nodes: &mut Nodes, local: u32, t: u32) -> Result<(), Memory>
    ensures { OnOk result (AddsCode nodes.old nodes.new
        (DoP (Op.Load cell t) ▸ DoP (Op.Const count 1) ▸ DoP (Op.Step from t count) ▸ DoP (Op.Local t local) ▸ DoP (Op.Store t cell))) }
{
    put(nodes, Op::Load(CELL, t))?;
    point_second(nodes, t, COUNT)?;
    store_first(nodes, local, t)
}

/// Copies the two cells at the place in `t` to a local, and puts a pointer to that into `t`.
fn read_pair(alloc: Global, nodes: &mut Nodes, local: u32, t: u32) -> Result<(), Memory>
    ensures { OnOk result (AddsCode nodes.old nodes.new (pair_read local t)) }
{
    read_first(nodes, local, t)?;
    ask_if_left(alloc, nodes)?;
    copy_second(nodes, t)
}

/// Copies the cells at the place in `t` to a local by the loop, and puts a pointer to that into `t`.
fn read_cells(alloc: Global, nodes: &mut Nodes, size: u32, local: u32, t: u32) -> Result<(), Memory>
    ensures { OnOk result (AddsCode nodes.old nodes.new
        (DoP (Op.Move from t) ▸ DoP (Op.Local to local) ▸ copied size ▸ DoP (Op.Local t local))) }
{
    put(nodes, Op::Move(FROM, t))?;
    put(nodes, Op::Local(TO, local))?;
    copy_cells(alloc, nodes, size)?;
    put(nodes, Op::Local(t, local))
}

/// Copies the structure at the place in `t` to a local, and puts a pointer to that into `t`.
#[tactic(auto, using(crate::proofs::Filled::sized))]
fn fill_local(alloc: Global, nodes: &mut Nodes, size: u32, local: u32, t: u32) -> Result<(), Memory>
    ensures { OnOk result (AddsCode nodes.old nodes.new (local_filled size local t)) }
{
    if size == 0 {
        return put(nodes, Op::Local(t, local));
    }
    if size == 1 {
        return read_word(nodes, local, t);
    }
    if size == 2 {
        return read_pair(alloc, nodes, local, t);
    }
    read_cells(alloc, nodes, size, local, t)
}

/// Makes a local, copies the structure at the place in `t` to it, and puts a pointer to it into `t`.
pub(crate) fn read_structure(
    alloc: Global,
    nodes: &mut Nodes,
    size: u32,
    local: u32,
    t: u32,
) -> Result<(), Memory>
    ensures { OnOk result (AddsCode nodes.old nodes.new (structure_read size local t)) }
{
    put(nodes, Op::Fresh(local))?;
    fill_local(alloc, nodes, size, local, t)
}

/// Stores the value in a at the place in p.
pub(crate) fn store(
    s: &Reading<'_>,
    nodes: &mut Nodes,
    ty: &CType,
    p: u32,
    a: u32,
) -> Result<(), Memory>
    ensures { OnOk result (AddsCode nodes.old nodes.new (stored (shape_of s.now) (ctype ty.now) p a)) }
{
    if is_structure(ty) {
        copy_between(s.alloc, nodes, s.words(ty), a, p)
    } else {
        put(nodes, Op::Store(p, a))
    }
}

/// Makes locals anew.
pub(crate) fn make(nodes: &mut Nodes, locals: &[u32]) -> Result<(), Memory>
    ensures { OnOk result (AddsCode nodes.old nodes.new (made locals.now)) }
{
    'locals: for k in locals {
        put(nodes, Op::Fresh(*k))?;
    }
    Ok(())
}
