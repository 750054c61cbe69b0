// The objects at the opening of a run.
ghost use Rattle.std.specs.Prelude.{◌≡◌, ◌++◌, ◌∷◌, [], IfOk, OnOk, map, option_map};
ghost use Rattle.obj_mem.specs.declared.cell.Cell.TheVariants.{Num};
ghost use Rattle.obj_mem.specs.Objects.{global_object, literal_object, card_object};
ghost use Rattle.obj_mem.specs.View.{objects};

use crate::cell::{Cell, ObjectKind};
use crate::objects::Objects;
use kit_base::{Memory, Name};
use std::alloc::Global;

/// Makes a global of `words` words, each 0. Nothing changes where there is no memory for it.
pub fn make_global(alloc: Global, os: &mut Objects, words: u32) -> Result<(), Memory>
    ensures { OnOk result (objects os.new ≡ objects os.old ++ global_object words ∷ []) }
{
    let cells = Vec::from_elem(alloc, Cell::Num(0), words as usize)?;
    os.make(ObjectKind::Global, cells)?;
    Ok(())
}

/// The cells of a text with its 0.
fn text_cells(alloc: Global, text: &[u8]) -> Result<Vec<Cell>, Memory>
    ensures { IfOk result (λ v. v.items ≡ map Num (text.now ++ 0 ∷ [])) }
{
    let mut cells = Vec::new(alloc);
    'bytes: for byte in text {
        cells.push(Cell::Num(u32::from(*byte)))?;
    }
    cells.push(Cell::Num(0))?;
    Ok(cells)
}

/// Makes the text literals, in order, each of its characters and a final 0. Where there is no memory for all, the first ones may be there.
pub fn make_literals(alloc: Global, os: &mut Objects, literals: &[Name]) -> Result<(), Memory>
    ensures { OnOk result (objects os.new ≡ objects os.old ++ map literal_object literals.now) }
{
    'literals: for text in literals {
        let cells = text_cells(alloc, text.bytes())?;
        os.make(ObjectKind::Literal, cells)?;
    }
    Ok(())
}

/// The cells of the words of a card.
fn word_cells(alloc: Global, words: &[u32]) -> Result<Vec<Cell>, Memory>
    ensures { IfOk result (λ v. v.items ≡ map Num words.now) }
{
    let mut cells = Vec::new(alloc);
    'words: for word in words {
        cells.push(Cell::Num(*word))?;
    }
    Ok(cells)
}

/// Makes the memory card's object, with these words; one without cells, where none is connected. Nothing changes where there is no memory
/// for it.
pub fn make_card(alloc: Global, os: &mut Objects, card: Option<&[u32]>) -> Result<(), Memory>
    ensures { OnOk result (objects os.new ≡ objects os.old ++ card_object (option_map (λ w. w.now) card.entry) ∷ []) }
{
    let cells = match card {
        None => Vec::new(alloc),
        Some(words) => word_cells(alloc, words)?,
    };
    os.make(ObjectKind::Card, cells)?;
    Ok(())
}
