// What is asked of cells and objects.
ghost use Rattle.std.specs.Prelude.{◌≡◌, Ok, Err, IfErr, OnOk, OnErr};
ghost use Rattle.obj_mem.specs.View.{objects};
ghost use Rattle.obj_mem.specs.Queries.{word_of, refused, read, write, step, further, equal_pointers, offsets, apart, answer_if};

use crate::access::Access;
use crate::cell::{CARD_WORDS, Cell};
use crate::objects::Objects;
use crate::refusal::Refusal;
use kit_base::{wrap_add, wrap_sub};

/// The word in a cell. A cell that holds no word strays.
#[inline(always)]
pub fn word_of(c: Cell) -> Result<u32, Refusal>
    ensures { result ≡ word_of c }
{
    match c {
        Cell::Num(x) => Ok(x),
        Cell::Unwritten | Cell::Ptr { .. } | Cell::Null => Err(Refusal::Strays),
    }
}

/// Why an access is refused, where `fault` is that of a literal or a card.
#[inline(always)]
fn refused(fault: u32, offset: u32, access: Access) -> Refusal
    ensures { result ≡ refused fault offset access }
{
    match access {
        Access::Outside | Access::Dead => Refusal::Strays,
        Access::ReadOnly => Refusal::Faults(fault),
        Access::NoCard => {
            if (offset as usize) < CARD_WORDS {
                Refusal::Faults(fault)
            } else {
                Refusal::Strays
            }
        }
    }
}

/// The cell at a pointer. It strays where that is no cell of an object that lives; where no card is connected, each of the 262,144 words
/// of the card is fault 0.
#[inline(always)]
pub fn read(os: &Objects, p: Cell) -> Result<Cell, Refusal>
    ensures { result ≡ read (objects os.now) p }
{
    match p {
        Cell::Ptr { object, offset } => match os.read(object, offset) {
            Ok(c) => Ok(c),
            Err(access) => Err(refused(0, offset, access)),
        },
        Cell::Unwritten | Cell::Num(_) | Cell::Null => Err(Refusal::Strays),
    }
}

/// Writes the cell at a pointer. It strays where that is no cell of an object that lives; a text literal is fault 1, as is each of the
/// 262,144 words of the card where none is connected. A refused write changes nothing.
#[inline(always)]
pub fn write(os: &mut Objects, p: Cell, c: Cell) -> Result<(), Refusal>
    ensures ok { OnOk result (write (objects os.old) p c ≡ Ok (objects os.new)) }
    ensures err { IfErr result (λ why. write (objects os.old) p c ≡ Err why) }
    ensures kept { OnErr result (objects os.new ≡ objects os.old) }
{
    match p {
        Cell::Ptr { object, offset } => match os.write(object, offset, c) {
            Ok(()) => Ok(()),
            Err(access) => Err(refused(1, offset, access)),
        },
        Cell::Unwritten | Cell::Num(_) | Cell::Null => Err(Refusal::Strays),
    }
}

/// The pointer `n` words further on; its offset wraps at 2^32. A cell that holds no pointer strays.
#[inline(always)]
pub fn step(p: Cell, n: u32) -> Result<Cell, Refusal>
    ensures { result ≡ step p n }
{
    match p {
        Cell::Ptr { object, offset } => Ok(Cell::Ptr {
            object,
            offset: wrap_add(offset, n),
        }),
        Cell::Unwritten | Cell::Num(_) | Cell::Null => Err(Refusal::Strays),
    }
}

/// The pointer `n` words further on, its offset wrapped at 2^32; a cell that holds no pointer stays as it is.
#[inline(always)]
pub fn further(p: Cell, n: u32) -> Cell
    ensures { result ≡ further p n }
{
    match p {
        Cell::Ptr { object, offset } => Cell::Ptr {
            object,
            offset: wrap_add(offset, n),
        },
        Cell::Unwritten | Cell::Num(_) | Cell::Null => p,
    }
}

fn if_so(holds: bool, answer: bool) -> Result<bool, Refusal>
    ensures { result ≡ answer_if holds answer }
{
    if holds {
        Ok(answer)
    } else {
        Err(Refusal::Strays)
    }
}

/// Whether two cells hold equal pointers, NULL among them. Those into one object are compared by their offsets. Pointers into two objects,
/// or into one and NULL, differ where each is to a cell of an object that lives, and stray otherwise; so does a cell that holds no pointer.
pub fn equal_pointers(os: &Objects, p: Cell, q: Cell) -> Result<bool, Refusal>
    ensures { result ≡ equal_pointers (objects os.now) p q }
{
    match p {
        Cell::Ptr { object, offset } => match q {
            Cell::Ptr {
                object: other,
                offset: at,
            } => {
                if object == other {
                    return Ok(offset == at);
                }
                if_so(
                    os.is_inside(object, offset) && os.is_inside(other, at),
                    false,
                )
            }
            Cell::Null => if_so(os.is_inside(object, offset), false),
            Cell::Unwritten | Cell::Num(_) => Err(Refusal::Strays),
        },
        Cell::Null => match q {
            Cell::Ptr { object, offset } => if_so(os.is_inside(object, offset), false),
            Cell::Null => Ok(true),
            Cell::Unwritten | Cell::Num(_) => Err(Refusal::Strays),
        },
        Cell::Unwritten | Cell::Num(_) => Err(Refusal::Strays),
    }
}

/// The offsets, in words, of two pointers that can be ordered or subtracted: those to cells, or to the end, of one object that lives. All
/// others stray.
pub fn offsets(os: &Objects, p: Cell, q: Cell) -> Result<(u32, u32), Refusal>
    ensures { result ≡ offsets (objects os.now) p q }
{
    match (p, q) {
        (
            Cell::Ptr { object, offset },
            Cell::Ptr {
                object: other,
                offset: at,
            },
        ) => {
            if object == other && os.is_within(object, offset) && os.is_within(other, at) {
                Ok((offset, at))
            } else {
                Err(Refusal::Strays)
            }
        }
        _ => Err(Refusal::Strays),
    }
}

/// The distance in words from the second pointer to the first, wrapped at 2^32; it strays where `offsets` does.
pub fn apart(os: &Objects, p: Cell, q: Cell) -> Result<u32, Refusal>
    ensures { result ≡ apart (objects os.now) p q }
{
    let (i, j) = offsets(os, p, q)?;
    Ok(wrap_sub(i, j))
}
