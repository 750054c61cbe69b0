// Numbers of the places of a choice.
ghost use Rattle.std.specs.Prelude.{◌≡◌, ℕ, suc, ◌+◌, ◌<◌, ◌≤◌, ◌∷◌, length, IfOk, map};
ghost use Rattle.std.specs.List.Sorted.{IsNonDecreasing};
ghost use Rattle.mid_code.specs.Safe.{IsChosen, AllPlaces};
ghost use Rattle.reg_choose.specs.inner.Holding.{below, slots_in, number_of, number_at, IsPlan};

use kit_base::Memory;
use mid_code::Where;
use std::alloc::Global;

/// The slots that are named, and the slot 0.
fn slots(alloc: Global, at: &[Where]) -> Result<Vec<u32>, Memory>
    ensures { IfOk result (λ v. v.items ≡ 0 ∷ slots_in at.now) }
{
    let mut found = Vec::new(alloc);
    found.push(0)?;
    for w in at {
        if let Where::Slot(number) = w {
            found.push(*number)?;
        }
    }
    Ok(found)
}

/// The same in ascending order.
fn sorted_slots(alloc: Global, at: &[Where]) -> Result<Vec<u32>, Memory>
    ensures rises { IfOk result (λ v. IsNonDecreasing v.items) }
    ensures is { IfOk result (λ v. (k : ℕ) → below k v.items ≡ below k (0 ∷ slots_in at.now)) }
    ensures len { IfOk result (λ v. length v.items ≡ suc (length (slots_in at.now))) }
{
    let mut found = slots(alloc, at)?;
    found.sort()?;
    Ok(found)
}

/// How many slots are lower, where they stand in ascending order.
fn rank(sorted: &[u32], slot: u32) -> usize
    requires rises { IsNonDecreasing sorted.now }
    ensures bound { result ≤ length sorted.now }
    ensures is { result ≡ below slot sorted.now }
{
    sorted.partition_point(|m| *m < slot)
}

fn number(sorted: &[u32], w: Where) -> usize
    requires rises { IsNonDecreasing sorted.now }
    ensures { result ≡ number_of sorted.now w }
{
    match w {
        Where::Reg(number) => number as usize,
        Where::Slot(number) => 9 + rank(sorted, number),
    }
}

/// The number of the place of a temporary.
pub(crate) fn place_number(at: &[Where], numbers: &[usize], x: usize) -> usize
    requires plan { IsPlan at.now numbers.now }
    ensures { result ≡ number_at at.now x }
{
    if x < at.len() {
        numbers[x]
    } else {
        numbers[at.len()]
    }
}

fn numbers_of(alloc: Global, sorted: &[u32], at: &[Where]) -> Result<Vec<usize>, Memory>
    requires rises { IsNonDecreasing sorted.now }
    ensures { IfOk result (λ v. v.items ≡ map (number_of sorted.now) at.now) }
{
    let mut numbers = Vec::with_capacity(alloc, at.len() + 1)?;
    for w in at {
        numbers.push(number(sorted, *w))?;
    }
    Ok(numbers)
}

/// The numbers of the places of all temporaries, and that of the slot 0; and how many slots are named, with the slot 0.
pub(crate) fn plan(alloc: Global, at: &[Where]) -> Result<(Vec<usize>, usize), Memory>
    requires chosen { AllPlaces IsChosen at.now }
    ensures plan { IfOk result (λ v. IsPlan at.now v.0.items) }
    ensures slots { IfOk result (λ v. v.1 ≡ suc (length (slots_in at.now))) }
{
    let sorted = sorted_slots(alloc, at)?;
    let mut numbers = numbers_of(alloc, sorted.as_slice(), at)?;
    numbers.push(number(sorted.as_slice(), Where::Slot(0)))?;
    Ok((numbers, sorted.len()))
}
