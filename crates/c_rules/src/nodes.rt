// The rules of the nodes of expressions.
ghost use Rattle.std.specs.Prelude.{◌≡◌, IfOk, map, option_map};
ghost use Rattle.c_tree.specs.declared.operator.UnOp.TheVariants as operators;
ghost use Rattle.c_types.specs.Types.{IntY, BoolY};
ghost use Rattle.c_types.specs.View.{ctype, layout};
ghost use Rattle.kit_base.specs.Gives.{Gives};
ghost use Rattle.c_rules.specs.Kinds.{target};
ghost use Rattle.c_rules.specs.Rules.{judged};
ghost use Rattle.c_rules.specs.Nodes.{given, unary_rule, are_numbers, are_comparable, moved, apart, sum_gives, difference_gives, binary_gives};
ghost use Rattle.c_rules.specs.Nodes.{led_to_whole, counts_elements, count_is_known, binary_rule, index_rule, store_rule, assign_rule, kept_as};
ghost use Rattle.c_rules.specs.Nodes.{compound_rule, step_operator, step_rule, cast_rule, size_rule, array_rule};

use crate::building::pointer_to;
use crate::code::{Code, RuleErr, demand};
use crate::counted::{Counted, counted_fits, is_counted_whole, so_many_of};
use crate::kinds::{
    can_cast, converts, is_array, is_condition, is_number, pointers_meet, same_type, target,
};
use crate::sizes::{fits, is_whole, words_within};
use c_tree::{BinOp, StepOp, UnOp};
use c_types::{CType, Layout, copy_type, is_void};
use kit_base::Memory;
use std::alloc::Global;

/// A pointer to what an operand under `&` is.
#[tactic(auto, unfolding(crate::specs::Nodes::unary_rule))]
pub fn address_type(alloc: Global, ty: &CType, place: bool) -> Result<CType, RuleErr>
    ensures judged { Gives ctype result (judged (unary_rule operators.Address (ctype ty.now) place)) }
{
    demand(Code::NotAPlace, place)?;
    Ok(pointer_to(alloc, ty)?)
}

/// The type of an operator before an operand of that type, which is a place or is none. What `*` gives is a place.
#[tactic(auto, unfolding(crate::specs::Nodes::unary_rule))]
pub fn unary_type(alloc: Global, op: UnOp, ty: &CType, place: bool) -> Result<CType, RuleErr>
    ensures judged { Gives ctype result (judged (unary_rule op (ctype ty.now) place)) }
{
    match op {
        UnOp::Minus | UnOp::Plus | UnOp::Flip => {
            demand(Code::WrongType, is_number(ty))?;
            Ok(CType::Int)
        }
        UnOp::Not => {
            demand(Code::WrongType, is_condition(ty))?;
            Ok(CType::Bool)
        }
        UnOp::Deref => match target(ty) {
            Some(to) => Ok(copy_type(to)?),
            None => Err(RuleErr::Cause(Code::WrongType)),
        },
        UnOp::Address => address_type(alloc, ty, place),
    }
}

fn are_numbers(a: &CType, b: &CType) -> bool
    ensures numbers { result ≡ are_numbers (ctype a.now) (ctype b.now) }
{
    is_number(a) && is_number(b)
}

fn are_comparable(a: &CType, b: &CType) -> bool
    ensures comparable { result ≡ are_comparable (ctype a.now) (ctype b.now) }
{
    are_numbers(a, b) || pointers_meet(a, b)
}

fn moved(alloc: Global, a: &CType, b: &CType) -> Result<Option<CType>, Memory>
    ensures moved { IfOk result (λ r. option_map ctype r ≡ moved (ctype a.now) (ctype b.now)) }
{
    if !is_number(b) {
        return Ok(None);
    }
    match target(a) {
        Some(to) => Ok(Some(pointer_to(alloc, to)?)),
        None => Ok(None),
    }
}

fn apart(a: &CType, b: &CType) -> Option<CType>
    ensures apart { option_map ctype result ≡ apart (ctype a.now) (ctype b.now) }
{
    match (target(a), target(b)) {
        (Some(a), Some(b)) => {
            if same_type(a, b) {
                Some(CType::Int)
            } else {
                None
            }
        }
        _ => None,
    }
}

#[tactic(auto, unfolding(crate::specs::Nodes::sum_gives))]
fn sum_gives(alloc: Global, a: &CType, b: &CType) -> Result<Option<CType>, Memory>
    ensures sum { IfOk result (λ r. option_map ctype r ≡ sum_gives (ctype a.now) (ctype b.now)) }
{
    if are_numbers(a, b) {
        return Ok(Some(CType::Int));
    }
    moved(alloc, a, b)
}

#[tactic(auto, unfolding(crate::specs::Nodes::difference_gives))]
fn difference_gives(alloc: Global, a: &CType, b: &CType) -> Result<Option<CType>, Memory>
    ensures difference { IfOk result (λ r. option_map ctype r ≡ difference_gives (ctype a.now) (ctype b.now)) }
{
    if are_numbers(a, b) {
        return Ok(Some(CType::Int));
    }
    if is_number(b) {
        return moved(alloc, a, b);
    }
    Ok(apart(a, b))
}

fn given_int(test: bool) -> Option<CType>
    ensures int { option_map ctype result ≡ given test IntY }
{
    if test { Some(CType::Int) } else { None }
}

fn given_bool(test: bool) -> Option<CType>
    ensures truth { option_map ctype result ≡ given test BoolY }
{
    if test { Some(CType::Bool) } else { None }
}

fn binary_gives(alloc: Global, op: BinOp, a: &CType, b: &CType) -> Result<Option<CType>, Memory>
    ensures gives { IfOk result (λ r. option_map ctype r ≡ binary_gives op (ctype a.now) (ctype b.now)) }
{
    match op {
        BinOp::Add => sum_gives(alloc, a, b),
        BinOp::Sub => difference_gives(alloc, a, b),
        BinOp::Mul
        | BinOp::Div
        | BinOp::Mod
        | BinOp::Shl
        | BinOp::Shr
        | BinOp::BitAnd
        | BinOp::BitXor
        | BinOp::BitOr => Ok(given_int(are_numbers(a, b))),
        BinOp::Less
        | BinOp::LessEq
        | BinOp::More
        | BinOp::MoreEq
        | BinOp::Equal
        | BinOp::NotEqual => Ok(given_bool(are_comparable(a, b))),
        BinOp::AndAlso | BinOp::OrElse => Ok(given_bool(is_condition(a) && is_condition(b))),
    }
}

fn led_to_whole(whole: &[bool], ty: &CType) -> bool
    ensures whole { result ≡ led_to_whole whole.now (target (ctype ty.now)) }
{
    match target(ty) {
        Some(to) => is_whole(whole, to),
        None => true,
    }
}

fn counts_elements(op: BinOp) -> bool
    ensures counts { result ≡ counts_elements op }
{
    match op {
        BinOp::Add | BinOp::Sub => true,
        BinOp::Mul
        | BinOp::Div
        | BinOp::Mod
        | BinOp::Shl
        | BinOp::Shr
        | BinOp::Less
        | BinOp::LessEq
        | BinOp::More
        | BinOp::MoreEq
        | BinOp::Equal
        | BinOp::NotEqual
        | BinOp::BitAnd
        | BinOp::BitXor
        | BinOp::BitOr
        | BinOp::AndAlso
        | BinOp::OrElse => false,
    }
}

fn count_is_known(whole: &[bool], op: BinOp, a: &CType) -> bool
    ensures known { result ≡ count_is_known whole.now op (ctype a.now) }
{
    !counts_elements(op) || led_to_whole(whole, a)
}

/// The type of an operator between operands of these types. `whole` tells by their numbers which structures and unions are
/// declared whole.
#[tactic(auto, unfolding(crate::specs::Nodes::binary_rule))]
pub fn binary_type(
    alloc: Global,
    whole: &[bool],
    op: BinOp,
    a: &CType,
    b: &CType,
) -> Result<CType, RuleErr>
    ensures judged { Gives ctype result (judged (binary_rule whole.now op (ctype a.now) (ctype b.now))) }
{
    match binary_gives(alloc, op, a, b)? {
        Some(ty) => {
            demand(Code::InfiniteType, count_is_known(whole, op, a))?;
            Ok(ty)
        }
        None => Err(RuleErr::Cause(Code::WrongType)),
    }
}

/// The type of `a[b]`, a place.
#[tactic(auto, unfolding(crate::specs::Nodes::index_rule))]
pub fn index_type(whole: &[bool], a: &CType, b: &CType) -> Result<CType, RuleErr>
    ensures judged { Gives ctype result (judged (index_rule whole.now (ctype a.now) (ctype b.now))) }
{
    if !is_number(b) {
        return Err(RuleErr::Cause(Code::WrongType));
    }
    match target(a) {
        Some(to) => {
            demand(Code::InfiniteType, is_whole(whole, to))?;
            Ok(copy_type(to)?)
        }
        None => Err(RuleErr::Cause(Code::WrongType)),
    }
}

/// Whether a value of the first type may be passed, returned or filled in as the second.
#[tactic(auto, unfolding(crate::specs::Nodes::store_rule))]
pub fn check_store(layouts: &[Layout], whole: &[bool], from: &CType, to: &CType) -> Result<(), Code>
    ensures judged { result ≡ judged (store_rule (map layout layouts.now) whole.now (ctype from.now) (ctype to.now)) }
{
    demand(Code::WrongType, converts(from, to))?;
    demand(Code::InfiniteType, is_whole(whole, to))?;
    demand(Code::TooLarge, fits(layouts, 4_096, to))
}

/// The type of an assignment: that of what is assigned, which is a place or is none.
#[tactic(auto, unfolding(crate::specs::Nodes::assign_rule))]
pub fn assign_type(
    layouts: &[Layout],
    whole: &[bool],
    to: &CType,
    place: bool,
    from: &CType,
) -> Result<CType, RuleErr>
    ensures judged { Gives ctype result (judged (assign_rule (map layout layouts.now) whole.now (ctype to.now) place (ctype from.now))) }
{
    demand(Code::WrongType, !is_array(to) && converts(from, to))?;
    demand(Code::NotAPlace, place)?;
    demand(Code::InfiniteType, is_whole(whole, to))?;
    demand(Code::TooLarge, fits(layouts, 4_096, to))?;
    Ok(copy_type(to)?)
}

/// Whether what an operator gives can be kept where its first operand was.
fn is_kept(to: &CType, value: &Option<CType>) -> bool
    ensures kept { given result (ctype to.now) ≡ kept_as (ctype to.now) (option_map ctype value.now) }
{
    match value {
        Some(ty) => !is_array(to) && converts(ty, to),
        None => false,
    }
}

/// The type of `a op= b`, as of `a = a op b`.
#[tactic(auto, unfolding(crate::specs::Nodes::compound_rule))]
pub fn compound_type(
    alloc: Global,
    whole: &[bool],
    op: BinOp,
    to: &CType,
    place: bool,
    from: &CType,
) -> Result<CType, RuleErr>
    ensures judged { Gives ctype result (judged (compound_rule whole.now op (ctype to.now) place (ctype from.now))) }
{
    let value = binary_gives(alloc, op, to, from)?;
    demand(Code::WrongType, is_kept(to, &value))?;
    demand(Code::NotAPlace, place)?;
    demand(Code::InfiniteType, count_is_known(whole, op, to))?;
    Ok(copy_type(to)?)
}

fn step_operator(op: StepOp) -> BinOp
    ensures operator { result ≡ step_operator op }
{
    match op {
        StepOp::PreUp | StepOp::PostUp => BinOp::Add,
        StepOp::PreDown | StepOp::PostDown => BinOp::Sub,
    }
}

/// The type of a step up or down, as of `a += 1` or `a -= 1`.
pub fn step_type(
    alloc: Global,
    whole: &[bool],
    op: StepOp,
    to: &CType,
    place: bool,
) -> Result<CType, RuleErr>
    ensures judged { Gives ctype result (judged (step_rule whole.now op (ctype to.now) place)) }
{
    compound_type(alloc, whole, step_operator(op), to, place, &CType::Int)
}

/// The type of a cast.
#[tactic(auto, unfolding(crate::specs::Nodes::cast_rule))]
pub fn cast_type(from: &CType, to: &CType) -> Result<CType, RuleErr>
    ensures judged { Gives ctype result (judged (cast_rule (ctype from.now) (ctype to.now))) }
{
    demand(Code::WrongType, can_cast(from, to))?;
    Ok(copy_type(to)?)
}

/// The words of a type whose size is asked for, as by `sizeof`, which is an int.
#[tactic(auto, unfolding(crate::specs::Nodes::size_rule, crate::specs::Sizes::fits))]
pub fn type_size(layouts: &[Layout], whole: &[bool], ty: &CType) -> Result<u32, Code>
    ensures judged { result ≡ judged (size_rule (map layout layouts.now) whole.now (ctype ty.now)) }
{
    demand(Code::WrongType, !is_void(ty))?;
    demand(Code::InfiniteType, is_whole(whole, ty))?;
    let words = words_within(layouts, ty);
    if words > 4_194_304 {
        return Err(Code::TooLarge);
    }
    Ok(words as u32)
}

/// The type of an array of `count` elements, in constant time. A count of 2^31 and above is a negative number.
#[tactic(auto, unfolding(crate::specs::Nodes::array_rule))]
pub fn array_type(
    alloc: Global,
    layouts: &[Layout],
    whole: &[bool],
    of: Counted,
    count: u32,
) -> Result<Counted, RuleErr>
    ensures judged { Gives (λ r. ctype r.ty) result (judged (array_rule (map layout layouts.now) whole.now (ctype of.ty) count)) }
{
    demand(Code::WrongType, !is_void(&of.ty) && count != 0)?;
    demand(Code::InfiniteType, is_counted_whole(whole, &of))?;
    demand(Code::TooLarge, count < 0x8000_0000)?;
    let array = so_many_of(alloc, of, count)?;
    demand(Code::TooLarge, counted_fits(layouts, 4_194_304, &array))?;
    Ok(array)
}
