// Operands, as far as they are known.
ghost use Rattle.std.specs.Prelude.{◌≡◌, OnOk};
ghost use Rattle.mid_fold.specs.inner.Reusing.{operand_in, is_same, is_cell, is_some_cell, operands_behind, with_operand};

use kit_base::Memory;

/// A word, the address of a global, or the cell of a temporary.
#[derive(Clone, Copy)]
pub(crate) enum Operand {
    Word(u32),
    Address(u32),
    Cell(u32),
}

/// Temporaries that have a word, the address of a global, or what another temporary has, the latest first.
pub(crate) type Operands = Vec<(u32, Operand)>;

pub(crate) fn is_same(x: Operand, y: Operand) -> bool
    ensures { result ≡ is_same x y }
{
    match (x, y) {
        (Operand::Word(a), Operand::Word(b)) => a == b,
        (Operand::Address(a), Operand::Address(b)) => a == b,
        (Operand::Cell(a), Operand::Cell(b)) => a == b,
        _ => false,
    }
}

/// Whether an operand is the cell of a temporary.
pub(crate) fn is_cell(x: Operand, t: u32) -> bool
    ensures { result ≡ is_cell x t }
{
    match x {
        Operand::Word(_) => false,
        Operand::Address(_) => false,
        Operand::Cell(q) => q == t,
    }
}

pub(crate) fn is_some_cell(x: Operand) -> bool
    ensures { result ≡ is_some_cell x }
{
    match x {
        Operand::Word(_) => false,
        Operand::Address(_) => false,
        Operand::Cell(_) => true,
    }
}

/// What a temporary has: where nothing is known of it, its own cell.
pub(crate) fn operand_in(operands: &[(u32, Operand)], q: u32) -> Operand
    ensures { result ≡ operand_in operands.now q }
{
    for known in operands {
        if known.0 == q {
            return known.1;
        }
    }
    Operand::Cell(q)
}

/// Takes out what is not known any more where `t` takes another cell.
pub(crate) fn forget_operands(operands: &mut Operands, t: u32)
    ensures { operands.new.items ≡ operands_behind operands.old.items t }
{
    operands.retain(|known| !(known.0 == t || is_cell(known.1, t)));
}

/// Adds what `t` has, beside at most three others.
pub(crate) fn know_operand(operands: &mut Operands, t: u32, x: Operand) -> Result<(), Memory>
    ensures { OnOk result (operands.new.items ≡ with_operand operands.old.items t x) }
{
    if !is_cell(x, t) {
        operands.truncate(3);
        operands.insert(0, (t, x))?;
    }
    Ok(())
}
