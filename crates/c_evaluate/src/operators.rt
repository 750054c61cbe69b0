// What operators make of cells.
ghost use Rattle.std.specs.Prelude.{◌≡◌, cond, not, Ok};
ghost use Rattle.obj_mem.specs.Queries.{then_ask, truth, equal_pointers};
ghost use Rattle.kit_base.specs.Word.{mul, below, bool_word, quotient, remainder};
ghost use Rattle.c_types.specs.View.{ctype};
ghost use Rattle.obj_mem.specs.View.{objects};
ghost use Rattle.c_types.specs.Kinds.{decayed};
ghost use Rattle.c_meaning.specs.Operators.{is_of, read_as, converted, is_true, word_unary, unless_zero, word_binary, cell_unary, cell_binary};
ghost use Rattle.c_meaning.specs.Operators.{stepped, stepped_back, distance, ordered, pointer_operated, operated};
ghost use Rattle.c_evaluate.specs.inner.SettingView.{setting_of};

use crate::setting::Setting;
use c_tree::{BinOp, UnOp};
use c_types::{CType, has_pointer_value, led_to};
use kit_base::{div_word, mod_word, shift_word, signed, wrap_add, wrap_sub};
use obj_mem::{Cell, Objects, Refusal, apart, equal_pointers, offsets, read, step, word_of};

#[inline(always)]
fn is_of(ty: &CType, c: Cell) -> bool
    ensures { result ≡ is_of (ctype ty.now) c }
{
    match ty {
        CType::Int | CType::Bool | CType::Enum(_) => match c {
            Cell::Num(_) => true,
            Cell::Unwritten | Cell::Ptr { .. } | Cell::Null => false,
        },
        CType::Pointer(_) => match c {
            Cell::Ptr { .. } | Cell::Null => true,
            Cell::Unwritten | Cell::Num(_) => false,
        },
        CType::Void | CType::Struct(_) | CType::Union(_) | CType::Array(_, _) => false,
    }
}

/// The cell at a pointer, which has to be of a type.
#[inline(always)]
pub(crate) fn read_as(ty: &CType, os: &Objects, p: Cell) -> Result<Cell, Refusal>
    ensures { result ≡ read_as (ctype ty.now) (objects os.now) p }
{
    let c = read(os, p)?;
    if is_of(ty, c) {
        Ok(c)
    } else {
        Err(Refusal::Strays)
    }
}

#[inline(always)]
pub(crate) fn bool_word(b: bool) -> u32
    ensures { result ≡ bool_word b }
{
    if b { 1 } else { 0 }
}

#[inline(always)]
pub(crate) fn truth(b: bool) -> Cell
    ensures { result ≡ truth b }
{
    Cell::Num(bool_word(b))
}

/// The value that is stored at a type.
#[inline(always)]
pub(crate) fn converted(ty: &CType, c: Cell) -> Result<Cell, Refusal>
    ensures { result ≡ converted (ctype ty.now) c }
{
    match ty {
        CType::Bool => {
            let x = word_of(c)?;
            Ok(Cell::Num(bool_word(x != 0)))
        }
        CType::Void | CType::Int | CType::Enum(_) | CType::Struct(_) => Ok(c),
        CType::Union(_) | CType::Pointer(_) | CType::Array(_, _) => Ok(c),
    }
}

/// Whether a value of a type is true.
#[inline(always)]
pub(crate) fn is_true(os: &Objects, ty: &CType, c: Cell) -> Result<bool, Refusal>
    ensures { result ≡ is_true (objects os.now) (decayed (ctype ty.now)) c }
{
    if has_pointer_value(ty) {
        let b = equal_pointers(os, c, Cell::Null)?;
        return Ok(!b);
    }
    let x = word_of(c)?;
    Ok(x != 0)
}

#[inline(always)]
pub(crate) fn word_unary(op: UnOp, x: u32) -> Result<u32, Refusal>
    ensures { result ≡ word_unary op x }
{
    match op {
        UnOp::Minus => Ok(wrap_sub(0, x)),
        UnOp::Plus => Ok(x),
        UnOp::Flip => Ok(u32::MAX - x),
        UnOp::Deref | UnOp::Address | UnOp::Not => Err(Refusal::Strays),
    }
}

#[inline(always)]
pub(crate) fn cell_unary(op: UnOp, c: Cell) -> Result<Cell, Refusal>
    ensures { result ≡ cell_unary op c }
{
    let x = word_of(c)?;
    let z = word_unary(op, x)?;
    Ok(Cell::Num(z))
}

#[inline(always)]
#[tactic(auto, using(kit_base::proofs::Words::word_facts), unfolding(kit_base::specs::Word::below))]
fn below(x: u32, y: u32) -> bool
    ensures { result ≡ below x y }
{
    signed(x) < signed(y)
}

#[inline(always)]
fn divided(x: u32, y: u32) -> Result<u32, Refusal>
    ensures { result ≡ unless_zero y (quotient x y) }
{
    match div_word(x, y) {
        Some(z) => Ok(z),
        None => Err(Refusal::Faults(6)),
    }
}

#[inline(always)]
fn rest_of(x: u32, y: u32) -> Result<u32, Refusal>
    ensures { result ≡ unless_zero y (remainder x y) }
{
    match mod_word(x, y) {
        Some(z) => Ok(z),
        None => Err(Refusal::Faults(6)),
    }
}

#[inline(always)]
fn wrap_mul(x: u32, y: u32) -> u32
    ensures { result ≡ mul x y }
{
    x.wrapping_mul(y)
}

#[inline(always)]
pub(crate) fn word_binary(op: BinOp, x: u32, y: u32) -> Result<u32, Refusal>
    ensures { result ≡ word_binary op x y }
{
    match op {
        BinOp::Mul => Ok(wrap_mul(x, y)),
        BinOp::Div => divided(x, y),
        BinOp::Mod => rest_of(x, y),
        BinOp::Add => Ok(wrap_add(x, y)),
        BinOp::Sub => Ok(wrap_sub(x, y)),
        BinOp::Shl => Ok(shift_word(x, y)),
        BinOp::Shr => Ok(shift_word(x, wrap_sub(0, y))),
        BinOp::Less => Ok(bool_word(below(x, y))),
        BinOp::LessEq => Ok(bool_word(!below(y, x))),
        BinOp::More => Ok(bool_word(below(y, x))),
        BinOp::MoreEq => Ok(bool_word(!below(x, y))),
        BinOp::Equal => Ok(bool_word(x == y)),
        BinOp::NotEqual => Ok(bool_word(x != y)),
        BinOp::BitAnd => Ok(x & y),
        BinOp::BitXor => Ok(x ^ y),
        BinOp::BitOr => Ok(x | y),
        BinOp::AndAlso | BinOp::OrElse => Err(Refusal::Strays),
    }
}

#[inline(always)]
fn cell_binary(op: BinOp, c: Cell, d: Cell) -> Result<Cell, Refusal>
    ensures { result ≡ cell_binary op c d }
{
    let x = word_of(c)?;
    let y = word_of(d)?;
    let z = word_binary(op, x, y)?;
    Ok(Cell::Num(z))
}

/// A pointer moved on by a number of elements of `size` words.
#[inline(always)]
pub(crate) fn stepped(size: u32, p: Cell, c: Cell) -> Result<Cell, Refusal>
    ensures { result ≡ stepped size p c }
{
    let x = word_of(c)?;
    step(p, wrap_mul(x, size))
}

fn stepped_back(size: u32, p: Cell, c: Cell) -> Result<Cell, Refusal>
    ensures { result ≡ stepped_back size p c }
{
    let x = word_of(c)?;
    step(p, wrap_mul(wrap_sub(0, x), size))
}

fn distance(size: u32, os: &Objects, p: Cell, q: Cell) -> Result<Cell, Refusal>
    ensures { result ≡ distance size (objects os.now) p q }
{
    let x = apart(os, p, q)?;
    let z = divided(x, size)?;
    Ok(Cell::Num(z))
}

fn ordered(op: BinOp, os: &Objects, p: Cell, q: Cell) -> Result<Cell, Refusal>
    ensures { result ≡ ordered op (objects os.now) p q }
{
    let (i, j) = offsets(os, p, q)?;
    let z = word_binary(op, i, j)?;
    Ok(Cell::Num(z))
}

fn equals(os: &Objects, p: Cell, q: Cell, wanted: bool) -> Result<Cell, Refusal>
    ensures { result ≡ then_ask (equal_pointers (objects os.now) p q) (λ b. Ok (truth (cond wanted b (not b)))) }
{
    let b = equal_pointers(os, p, q)?;
    Ok(truth(if wanted { b } else { !b }))
}

fn pointer_operated(
    op: BinOp,
    size: u32,
    pointers: bool,
    os: &Objects,
    p: Cell,
    q: Cell,
) -> Result<Cell, Refusal>
    ensures { result ≡ pointer_operated op size pointers (objects os.now) p q }
{
    match op {
        BinOp::Add => stepped(size, p, q),
        BinOp::Sub => {
            if pointers {
                distance(size, os, p, q)
            } else {
                stepped_back(size, p, q)
            }
        }
        BinOp::Equal => equals(os, p, q, true),
        BinOp::NotEqual => equals(os, p, q, false),
        BinOp::Less => ordered(op, os, p, q),
        BinOp::LessEq => ordered(op, os, p, q),
        BinOp::More => ordered(op, os, p, q),
        BinOp::MoreEq => ordered(op, os, p, q),
        BinOp::Mul | BinOp::Div | BinOp::Mod | BinOp::Shl | BinOp::Shr => Err(Refusal::Strays),
        BinOp::BitAnd | BinOp::BitXor | BinOp::BitOr | BinOp::AndAlso | BinOp::OrElse => Err(
            Refusal::Strays,
        ),
    }
}

/// A binary operator other than `&&` and `||` on values of two types.
#[inline(always)]
pub(crate) fn operated<'a>(
    s: &Setting<'a>,
    op: BinOp,
    ta: &CType,
    tb: &CType,
    os: &Objects,
    c: Cell,
    d: Cell,
) -> Result<Cell, Refusal>
    ensures { result ≡ operated (setting_of s.now) op (ctype ta.now) (ctype tb.now) (objects os.now) c d }
{
    match led_to(ta) {
        None => cell_binary(op, c, d),
        Some(to) => pointer_operated(op, s.words(to), has_pointer_value(tb), os, c, d),
    }
}
