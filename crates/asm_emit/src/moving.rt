// The arguments of a call that go into registers.
ghost use Rattle.std.specs.Prelude.{◌≡◌, ◌++◌, ◌∷◌, ◌==◌, [], OnOk, IfOk};
ghost use Rattle.asm_laws.specs.Moves.{is_register, wanted, is_taken, next_of, source_of, turn, away, left, ordered, in_order};
ghost use Rattle.asm_laws.specs.Operations.{moved_items};
ghost use Rattle.asm_emit.specs.inner.View.{frame};

use crate::hands::{fetch, op, register};
use crate::scope::Scope;
use asm_items::AsmItem;
use kit_base::Memory;
use mid_code::Where;
use std::alloc::Global;
use v32_isa::Reg;

/// The number of a register, and the place whose word it takes.
type Move = (u32, Where);

/// Whether a place is the register of a number.
fn is_register(p: Where, r: u32) -> bool
    ensures { result ≡ is_register p r }
{
    match p {
        Where::Reg(q) => q == r,
        Where::Slot(_) => false,
    }
}

/// Adds a move of an argument for a place, where that is a register in which it does not stand already.
fn want(moves: &mut Vec<Move>, p: Where, a: Where) -> Result<(), Memory>
    ensures { OnOk result (moves.new.items ≡ moves.old.items ++ wanted (p ∷ []) (a ∷ [])) }
{
    match p {
        Where::Reg(r) => {
            if is_register(a, r) {
                Ok(())
            } else {
                moves.push((r, a))?;
                Ok(())
            }
        }
        Where::Slot(_) => Ok(()),
    }
}

/// The moves of arguments into registers where they don't stand already.
fn wanted(alloc: Global, ps: &[Where], args: &[Where]) -> Result<Vec<Move>, Memory>
    ensures { IfOk result (λ v. v.items ≡ wanted ps.now args.now) }
{
    let mut moves = Vec::new(alloc);
    let mut rest = args;
    for p in ps {
        let Some((a, after)) = rest.split_first() else {
            return Ok(moves);
        };
        want(&mut moves, *p, *a)?;
        rest = after;
    }
    Ok(moves)
}

/// Whether a move takes the word of a register.
fn is_taken(r: u32, moves: &[Move]) -> bool
    ensures { result ≡ is_taken r moves.now }
{
    for m in moves {
        if is_register(m.1, r) {
            return true;
        }
    }
    false
}

/// The register that is written next: the first one whose word no move takes, else another.
fn next_of(moves: &[Move], other: u32) -> u32
    ensures { result ≡ next_of moves.now moves.now other }
{
    for m in moves {
        if !is_taken(m.0, moves) {
            return m.0;
        }
    }
    other
}

/// The place whose word a register takes.
fn source_of(r: u32, moves: &[Move]) -> Where
    ensures { result ≡ source_of r moves.now }
{
    for m in moves {
        if r == m.0 {
            return m.1;
        }
    }
    Where::Reg(r)
}

/// The place where a word stands when that of register r has gone to register 10.
fn away(r: u32, p: Where) -> Where
    ensures { result ≡ away r p }
{
    if is_register(p, r) { Where::Reg(10) } else { p }
}

/// Adds a move as it is left when register r is written.
fn keep_left(moves: &mut Vec<Move>, r: u32, t: u32, p: Where) -> Result<(), Memory>
    ensures { OnOk result (moves.new.items ≡ moves.old.items ++ left r ((t, p) ∷ [])) }
{
    if r == t {
        Ok(())
    } else {
        moves.push((t, away(r, p)))?;
        Ok(())
    }
}

/// The moves that are left when a register is written.
fn left(alloc: Global, r: u32, moves: &[Move]) -> Result<Vec<Move>, Memory>
    ensures { IfOk result (λ v. v.items ≡ left r moves.now) }
{
    let mut kept = Vec::new(alloc);
    for m in moves {
        keep_left(&mut kept, r, m.0, m.1)?;
    }
    Ok(kept)
}

/// A register is written. Where a move takes its word, that goes to register 10 first.
fn put_turn(out: &mut Vec<AsmItem>, s: &Scope<'_>, r: u32, moves: &[Move]) -> Result<(), Memory>
    ensures { OnOk result (out.new.items ≡ out.old.items ++ moved_items (frame s.now) (turn r moves.now)) }
{
    if is_taken(r, moves) {
        op(out, fetch(s, Where::Reg(r), Reg::at(10)))?;
        op(out, fetch(s, source_of(r, moves), register(r)))
    } else {
        op(out, fetch(s, source_of(r, moves), register(r)))
    }
}

/// Moves in order, in as many turns as there are in a first list.
fn put_turns(
    alloc: Global,
    out: &mut Vec<AsmItem>,
    s: &Scope<'_>,
    turns: &[Move],
    moves: Vec<Move>,
) -> Result<(), Memory>
    ensures { OnOk result (out.new.items ≡ out.old.items ++ moved_items (frame s.now) (ordered turns.now moves.items)) }
{
    let mut moves = moves;
    for _turn in turns {
        let Some((first, _)) = moves.as_slice().split_first() else {
            return Ok(());
        };
        let r = next_of(moves.as_slice(), first.0);
        put_turn(out, s, r, moves.as_slice())?;
        moves = left(alloc, r, moves.as_slice())?;
    }
    Ok(())
}

/// Brings the arguments that go into registers there.
pub(crate) fn put_in_order(
    alloc: Global,
    out: &mut Vec<AsmItem>,
    s: &Scope<'_>,
    ps: &[Where],
    args: &[Where],
) -> Result<(), Memory>
    ensures { OnOk result (out.new.items ≡ out.old.items ++ moved_items (frame s.now) (in_order ps.now args.now)) }
{
    let turns = wanted(alloc, ps, args)?;
    let moves = wanted(alloc, ps, args)?;
    put_turns(alloc, out, s, turns.as_slice(), moves)
}
