// Whether programs are settled.
ghost use Rattle.std.specs.Prelude.{◌≡◌, ◌≤◌, ◌&&◌, ◌↔◌, IfOk, OnOk, map, true};
ghost use Rattle.mid_code.specs.Functions.{function};
ghost use Rattle.mid_code.specs.Invariants.{AllOf};
ghost use Rattle.mid_code.specs.Whole.{mid};
ghost use Rattle.mid_live.specs.Sets.{room};
ghost use Rattle.mid_improve.specs.Settled.{IsSettled, IsSettledFunction};
ghost use Rattle.mid_improve.specs.inner.Named.{IsNamed};
ghost use Rattle.mid_improve.specs.inner.Rounds.{HasSettledRuns};

use crate::runs::are_runs_settled;
use crate::table::Table;
use crate::targets::are_targets_live;
use kit_base::Memory;
use mid_code::laws::mid_code_is_sound;
use mid_code::{Function, Mid};
use mid_live::Live;
use std::alloc::Global;

fn is_function_settled(
    alloc: Global,
    table: &mut Table,
    f: &Function<u32>,
    s: &mut Live,
    have: &mut usize,
) -> Result<bool, Memory>
    requires named { IsNamed (function f.now) }
    requires have { have.old ≤ room s.old }
    ensures have { OnOk result (have.new ≤ room s.new) }
    ensures settled { IfOk result (λ b. (b ≡ true) ↔ IsSettledFunction (function f.now)) }
{
    let runs = are_runs_settled(table, f)?;
    if !runs {
        return Ok(false);
    }
    let targets = are_targets_live(alloc, f, s, have)?;
    Ok(targets)
}

fn are_functions_settled(
    alloc: Global,
    table: &mut Table,
    fs: &[Function<u32>],
    s: &mut Live,
    have: &mut usize,
) -> Result<bool, Memory>
    requires named { AllOf IsNamed (map function fs.now) }
    requires have { have.old ≤ room s.old }
    ensures { IfOk result (λ b. (b ≡ true) ↔ AllOf IsSettledFunction (map function fs.now)) }
{
    for f in fs {
        let settled = is_function_settled(alloc, table, f, s, have)?;
        if !settled {
            return Ok(false);
        }
    }
    Ok(true)
}

fn are_functions_swept(
    alloc: Global,
    fs: &[Function<u32>],
    s: &mut Live,
    have: &mut usize,
) -> Result<bool, Memory>
    requires named { AllOf IsNamed (map function fs.now) }
    requires have { have.old ≤ room s.old }
    requires runs { AllOf HasSettledRuns (map function fs.now) }
    ensures { IfOk result (λ b. (b ≡ true) ↔ AllOf IsSettledFunction (map function fs.now)) }
{
    for f in fs {
        let swept = are_targets_live(alloc, f, s, have)?;
        if !swept {
            return Ok(false);
        }
    }
    Ok(true)
}

/// Whether code whose runs are settled is settled: whether no operation is left that only puts something where nothing reads it. The error is want of memory.
#[tactic(auto, using(crate::proofs::Whole::start_named, crate::proofs::Whole::functions_named))]
pub(crate) fn is_swept(alloc: Global, m: &Mid) -> Result<bool, Memory>
    requires start { HasSettledRuns (mid m.now).start }
    requires functions { AllOf HasSettledRuns (mid m.now).functions }
    ensures exact { IfOk result (λ b. (b ≡ true) ↔ IsSettled (mid m.now)) }
{
    mid_code_is_sound(m);
    let of = m.code();
    let mut have = 0;
    let mut live = Live::none(alloc, have)?;
    let start = are_targets_live(alloc, &of.start, &mut live, &mut have)?;
    if !start {
        return Ok(false);
    }
    let functions = are_functions_swept(alloc, of.functions.as_slice(), &mut live, &mut have)?;
    Ok(functions)
}

/// Whether the code is settled: in no function an operator whose words are known is left, or an operand that is a copy, or an operation that only puts
/// something where nothing reads it. The error is want of memory.
#[tactic(auto, using(crate::proofs::Whole::start_named, crate::proofs::Whole::functions_named))]
pub fn is_settled(alloc: Global, m: &Mid) -> Result<bool, Memory>
    ensures exact { IfOk result (λ b. (b ≡ true) ↔ IsSettled (mid m.now)) }
{
    mid_code_is_sound(m);
    let of = m.code();
    let mut table = Table::none(alloc);
    let mut have = 0;
    let mut live = Live::none(alloc, have)?;
    let start = is_function_settled(alloc, &mut table, &of.start, &mut live, &mut have)?;
    if !start {
        return Ok(false);
    }
    let functions = are_functions_settled(
        alloc,
        &mut table,
        of.functions.as_slice(),
        &mut live,
        &mut have,
    )?;
    Ok(functions)
}
