// Operators, conversions and conditions.
ghost use Rattle.std.specs.Prelude.{◌≡◌, option_map, OnOk};
ghost use Rattle.std.specs.Borrow.{Bor};
ghost use Rattle.c_types.specs.View.{ctype};
ghost use Rattle.c_types.specs.Kinds.{decayed, pointed};
ghost use Rattle.lower_trees.specs.Parts.{two, compared, as_flag, converted, with_word, stepped, stepped_back, distant, with_pointer, operated};
ghost use Rattle.lower_trees.specs.Parts.{one_more, one_less, tested_as, negated_as};
ghost use Rattle.lower_trees.specs.Expressions.{step_made};
ghost use Rattle.lower_trees.specs.inner.Adding.{AddsCode};
ghost use Rattle.lower_trees.specs.View.{shape_of};

use crate::cells::{OTHER, put};
use crate::operands::Operands;
use crate::output::Nodes;
use crate::reading::Reading;
use c_tree::BinOp;
use c_types::{CType, has_pointer_value, led_to};
use kit_base::Memory;
use mid_code::Op;
use v32_isa::{One, Two};

/// Makes a word 0 or 1, where it is not known to be.
pub(crate) fn put_flag(nodes: &mut Nodes, known: bool, t: u32) -> Result<(), Memory>
    ensures { OnOk result (AddsCode nodes.old nodes.new (as_flag known t)) }
{
    if known {
        Ok(())
    } else {
        put(nodes, Op::One(One::CIB, t, t))
    }
}

/// Converts the value in t to a type.
pub(crate) fn convert(nodes: &mut Nodes, ty: &CType, known: bool, t: u32) -> Result<(), Memory>
    ensures { OnOk result (AddsCode nodes.old nodes.new (converted (ctype ty.now) known t)) }
{
    match ty {
        CType::Bool => put_flag(nodes, known, t),
        CType::Void
        | CType::Int
        | CType::Enum(_)
        | CType::Struct(_)
        | CType::Union(_)
        | CType::Pointer(_)
        | CType::Array(_, _) => Ok(()),
    }
}

fn put_two(nodes: &mut Nodes, op: Two, t: u32, a: u32, b: u32) -> Result<(), Memory>
    ensures { OnOk result (AddsCode nodes.old nodes.new (two op t a b)) }
{
    put(nodes, Op::Two(op, t, a, b))
}

fn compare(nodes: &mut Nodes, op: Two, t: u32, a: u32, b: u32) -> Result<(), Memory>
    ensures { OnOk result (AddsCode nodes.old nodes.new (compared op t a b)) }
{
    put(nodes, Op::PtrTest(op, t, a, b))
}

/// An operator on words.
fn with_word(nodes: &mut Nodes, op: BinOp, t: u32, a: u32, b: u32) -> Result<(), Memory>
    ensures { OnOk result (AddsCode nodes.old nodes.new (with_word op t a b)) }
{
    match op {
        BinOp::Mul => put_two(nodes, Two::IMUL, t, a, b),
        BinOp::Div => put_two(nodes, Two::IDIV, t, a, b),
        BinOp::Mod => put_two(nodes, Two::IMOD, t, a, b),
        BinOp::Add => put_two(nodes, Two::IADD, t, a, b),
        BinOp::Sub => put_two(nodes, Two::ISUB, t, a, b),
        BinOp::Shl => put_two(nodes, Two::SHL, t, a, b),
        BinOp::Shr => {
            put(nodes, Op::One(One::ISGN, b, b))?;
            put(nodes, Op::Two(Two::SHL, t, a, b))
        }
        BinOp::Less => put_two(nodes, Two::ILT, t, a, b),
        BinOp::LessEq => put_two(nodes, Two::ILE, t, a, b),
        BinOp::More => put_two(nodes, Two::IGT, t, a, b),
        BinOp::MoreEq => put_two(nodes, Two::IGE, t, a, b),
        BinOp::Equal => put_two(nodes, Two::IEQ, t, a, b),
        BinOp::NotEqual => put_two(nodes, Two::INE, t, a, b),
        BinOp::BitAnd => put_two(nodes, Two::AND, t, a, b),
        BinOp::BitXor => put_two(nodes, Two::XOR, t, a, b),
        BinOp::BitOr => put_two(nodes, Two::OR, t, a, b),
        BinOp::AndAlso => Ok(()),
        BinOp::OrElse => Ok(()),
    }
}

/// Moves a pointer on by a number of elements.
pub(crate) fn step_by(nodes: &mut Nodes, size: u32, k: Operands) -> Result<(), Memory>
    ensures { OnOk result (AddsCode nodes.old nodes.new (stepped size k.target k.first k.second k.scale)) }
{
    if size == 1 {
        put(nodes, Op::Step(k.target, k.first, k.second))
    } else {
        put(nodes, Op::Const(k.scale, size))?;
        put(nodes, Op::Two(Two::IMUL, k.second, k.second, k.scale))?;
        put(nodes, Op::Step(k.target, k.first, k.second))
    }
}

fn step_back(nodes: &mut Nodes, size: u32, k: Operands) -> Result<(), Memory>
    ensures { OnOk result (AddsCode nodes.old nodes.new (stepped_back size k.target k.first k.second k.scale)) }
{
    put(nodes, Op::One(One::ISGN, k.second, k.second))?;
    step_by(nodes, size, k)
}

/// How many elements lie between two pointers.
fn distance(nodes: &mut Nodes, size: u32, k: Operands) -> Result<(), Memory>
    ensures { OnOk result (AddsCode nodes.old nodes.new (distant size k.target k.first k.second k.scale)) }
{
    put(nodes, Op::Apart(k.target, k.first, k.second))?;
    put(nodes, Op::Const(k.scale, size))?;
    put(nodes, Op::Two(Two::IDIV, k.target, k.target, k.scale))
}

fn subtract(nodes: &mut Nodes, size: u32, pointers: bool, k: Operands) -> Result<(), Memory>
    ensures { OnOk result (AddsCode nodes.old nodes.new (with_pointer BinOp.Sub size pointers k.target k.first k.second k.scale)) }
{
    if pointers {
        distance(nodes, size, k)
    } else {
        step_back(nodes, size, k)
    }
}

/// An operator whose first operand is a pointer.
fn with_pointer(
    nodes: &mut Nodes,
    op: BinOp,
    size: u32,
    pointers: bool,
    k: Operands,
) -> Result<(), Memory>
    ensures { OnOk result (AddsCode nodes.old nodes.new (with_pointer op size pointers k.target k.first k.second k.scale)) }
{
    match op {
        BinOp::Add => step_by(nodes, size, k),
        BinOp::Sub => subtract(nodes, size, pointers, k),
        BinOp::Equal => compare(nodes, Two::IEQ, k.target, k.first, k.second),
        BinOp::NotEqual => compare(nodes, Two::INE, k.target, k.first, k.second),
        BinOp::Less => compare(nodes, Two::ILT, k.target, k.first, k.second),
        BinOp::LessEq => compare(nodes, Two::ILE, k.target, k.first, k.second),
        BinOp::More => compare(nodes, Two::IGT, k.target, k.first, k.second),
        BinOp::MoreEq => compare(nodes, Two::IGE, k.target, k.first, k.second),
        BinOp::Mul => Ok(()),
        BinOp::Div => Ok(()),
        BinOp::Mod => Ok(()),
        BinOp::Shl => Ok(()),
        BinOp::Shr => Ok(()),
        BinOp::BitAnd => Ok(()),
        BinOp::BitXor => Ok(()),
        BinOp::BitOr => Ok(()),
        BinOp::AndAlso => Ok(()),
        BinOp::OrElse => Ok(()),
    }
}

/// An operator by the types of its operands.
pub(crate) fn operate(
    s: &Reading<'_>,
    nodes: &mut Nodes,
    op: BinOp,
    first: &CType,
    second: &CType,
    k: Operands,
) -> Result<(), Memory>
    ensures { OnOk result (AddsCode nodes.old nodes.new
        (operated (shape_of s.now) op (ctype first.now) (ctype second.now) k.target k.first k.second k.scale)) }
{
    match led_to(first) {
        None => with_word(nodes, op, k.target, k.first, k.second),
        Some(to) => with_pointer(nodes, op, s.words(to), has_pointer_value(second), k),
    }
}

fn count_up(
    s: &Reading<'_>,
    nodes: &mut Nodes,
    to: Option<&CType>,
    t: u32,
    a: u32,
    by: u32,
) -> Result<(), Memory>
    ensures { OnOk result (AddsCode nodes.old nodes.new (one_more (shape_of s.now) (option_map (λ x. ctype x.now) to.entry) t a by)) }
{
    match to {
        None => {
            put(nodes, Op::Const(by, 1))?;
            put(nodes, Op::Two(Two::IADD, t, a, by))
        }
        Some(to) => {
            put(nodes, Op::Const(by, s.words(to)))?;
            put(nodes, Op::Step(t, a, by))
        }
    }
}

fn count_down(
    s: &Reading<'_>,
    nodes: &mut Nodes,
    to: Option<&CType>,
    t: u32,
    a: u32,
    by: u32,
) -> Result<(), Memory>
    ensures { OnOk result (AddsCode nodes.old nodes.new (one_less (shape_of s.now) (option_map (λ x. ctype x.now) to.entry) t a by)) }
{
    match to {
        None => {
            put(nodes, Op::Const(by, 1))?;
            put(nodes, Op::Two(Two::ISUB, t, a, by))
        }
        Some(to) => {
            put(nodes, Op::Const(by, s.words(to)))?;
            put(nodes, Op::One(One::ISGN, by, by))?;
            put(nodes, Op::Step(t, a, by))
        }
    }
}

/// Puts one more, or one less, than the cell in `old` into `new`; `by` takes the difference.
pub(crate) fn step_one(
    s: &Reading<'_>,
    nodes: &mut Nodes,
    up: bool,
    ty: &CType,
    new: u32,
    old: u32,
    by: u32,
) -> Result<(), Memory>
    ensures { OnOk result (AddsCode nodes.old nodes.new (step_made (shape_of s.now) up (ctype ty.now) new old by)) }
{
    if up {
        count_up(s, nodes, led_to(ty), new, old, by)
    } else {
        count_down(s, nodes, led_to(ty), new, old, by)
    }
}

/// Makes a word of the condition in t.
pub(crate) fn test_as(nodes: &mut Nodes, ty: &CType, t: u32) -> Result<(), Memory>
    ensures { OnOk result (AddsCode nodes.old nodes.new (tested_as (decayed (ctype ty.now)) t)) }
{
    if has_pointer_value(ty) {
        put(nodes, Op::Null(OTHER))?;
        put(nodes, Op::PtrTest(Two::INE, t, t, OTHER))
    } else {
        Ok(())
    }
}

/// Turns the condition in t around.
pub(crate) fn negate_as(nodes: &mut Nodes, ty: &CType, t: u32) -> Result<(), Memory>
    ensures { OnOk result (AddsCode nodes.old nodes.new (negated_as (decayed (ctype ty.now)) t)) }
{
    if has_pointer_value(ty) {
        put(nodes, Op::Null(OTHER))?;
        put(nodes, Op::PtrTest(Two::IEQ, t, t, OTHER))
    } else {
        put(nodes, Op::One(One::BNOT, t, t))
    }
}
