// What operators and steps made, as far as it is known.
ghost use Rattle.std.specs.Prelude.{◌≡◌, OnOk};
ghost use Rattle.mid_fold.specs.inner.Reusing.{is_same_operator, is_same_maker, is_made_by, maker_in, is_product, is_step};
ghost use Rattle.mid_fold.specs.inner.Reusing.{is_address, is_operator_worth, is_step_worth, is_worth, is_kept, result_in};
ghost use Rattle.mid_fold.specs.inner.Reusing.{result_of, results_behind, with_result};

use crate::operand::{Operand, is_cell, is_same, is_some_cell};
use kit_base::Memory;
use v32_isa::Two;

/// What makes a result: an operator on two words, the step of a pointer by a word, or nothing, where it is the address of a local.
#[derive(Clone, Copy)]
pub(crate) enum Maker {
    Operator(Two),
    Step,
    Local,
}

/// A temporary that has what was made of two operands.
#[derive(Clone, Copy)]
pub(crate) struct Made {
    pub(crate) target: u32,
    pub(crate) by: Maker,
    pub(crate) first: Operand,
    pub(crate) second: Operand,
}

/// What was made, the latest first.
pub(crate) type Results = Vec<Made>;

fn is_same_operator(a: Two, b: Two) -> bool
    ensures { result ≡ is_same_operator a b }
{
    a == b
}

fn is_same_maker(a: Maker, b: Maker) -> bool
    ensures { result ≡ is_same_maker a b }
{
    match (a, b) {
        (Maker::Operator(a), Maker::Operator(b)) => is_same_operator(a, b),
        (Maker::Step, Maker::Step) => true,
        _ => false,
    }
}

fn is_made_by(m: Made, o: Maker, x: Operand, y: Operand) -> bool
    ensures { result ≡ is_made_by m o x y }
{
    is_same_maker(m.by, o) && (is_same(m.first, x) && is_same(m.second, y))
}

/// What made that which an operand has, where it is known.
fn maker_in(results: &[Made], x: Operand) -> Option<Maker>
    ensures { result ≡ maker_in results.now x }
{
    for known in results {
        if is_cell(x, known.target) {
            return Some(known.by);
        }
    }
    None
}

fn is_product(maker: Option<Maker>) -> bool
    ensures { result ≡ is_product maker }
{
    match maker {
        Some(Maker::Operator(Two::IMUL)) => true,
        _ => false,
    }
}

fn is_step(maker: Option<Maker>) -> bool
    ensures { result ≡ is_step maker }
{
    match maker {
        Some(Maker::Step) => true,
        _ => false,
    }
}

fn is_address(maker: Option<Maker>) -> bool
    ensures { result ≡ is_address maker }
{
    match maker {
        Some(Maker::Step) => true,
        Some(Maker::Local) => true,
        _ => false,
    }
}

/// Whether an operand is known to be a pointer.
pub(crate) fn has_address(results: &[Made], x: Operand) -> bool
    ensures { result ≡ is_address (maker_in results.now x) }
{
    is_address(maker_in(results, x))
}

fn is_operator_worth(o: Two, x: Operand, y: Operand) -> bool
    ensures { result ≡ is_operator_worth o x y }
{
    match o {
        Two::AND | Two::OR | Two::XOR | Two::SHL | Two::IMUL => true,
        Two::IADD | Two::ISUB => is_some_cell(x) && is_some_cell(y),
        _ => false,
    }
}

fn is_step_worth(results: &[Made], x: Operand, y: Operand) -> bool
    ensures { result ≡ is_step_worth results.now x y }
{
    is_some_cell(y) && (is_product(maker_in(results, y)) || is_step(maker_in(results, x)))
}

fn is_worth(results: &[Made], m: Made) -> bool
    ensures { result ≡ is_worth results.now m.by m.first m.second }
{
    match m.by {
        Maker::Operator(o) => is_operator_worth(o, m.first, m.second),
        Maker::Step => is_step_worth(results, m.first, m.second),
        Maker::Local => true,
    }
}

fn is_kept(results: &[Made], m: Made) -> bool
    ensures { result ≡ is_kept results.now m }
{
    is_worth(results, m) && !(is_cell(m.first, m.target) || is_cell(m.second, m.target))
}

fn result_in(results: &[Made], o: Maker, x: Operand, y: Operand) -> Option<u32>
    ensures { result ≡ result_in results.now o x y }
{
    for known in results {
        if is_made_by(*known, o, x, y) {
            return Some(known.target);
        }
    }
    None
}

/// The temporary that has what would be made, where a move of it is less work.
pub(crate) fn result_of(results: &[Made], m: Made) -> Option<u32>
    ensures { result ≡ result_of results.now m }
{
    if is_worth(results, m) {
        result_in(results, m.by, m.first, m.second)
    } else {
        None
    }
}

/// Takes out what is not known any more where `t` takes another cell.
pub(crate) fn forget_results(results: &mut Results, t: u32)
    ensures { results.new.items ≡ results_behind results.old.items t }
{
    results.retain(|known| !(known.target == t
        || (is_cell(known.first, t) || is_cell(known.second, t))));
}

/// Adds what was made, beside at most fifteen others.
pub(crate) fn know_result(results: &mut Results, m: Made) -> Result<(), Memory>
    ensures { OnOk result (results.new.items ≡ with_result results.old.items m) }
{
    if is_kept(results.as_slice(), m) {
        results.truncate(15);
        results.insert(0, m)?;
    }
    Ok(())
}
