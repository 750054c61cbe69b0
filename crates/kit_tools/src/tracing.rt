// The command `trace`.
ghost use Rattle.std.specs.Prelude.{◌≡◌, ◌≤◌, ◌<◌, ◌+◌, ◌*◌, ◌-◌, min, IfSome, IfErr};
ghost use Rattle.std.specs.Option.{option_map};
ghost use Rattle.kit_base.specs.Counts.{counts};
ghost use Rattle.trace_core.specs.Putting.{trace_text};
ghost use Rattle.kit_tools.specs.Carrying.{FailsIn, GivesBy, Leaves};
ghost use Rattle.kit_tools.specs.Causes.{HasCausesOr, IsOwn};
ghost use Rattle.kit_tools.specs.Tracing.{trace_due, steps_due, traced_due, IsReadToTrace};
ghost use Rattle.kit_words.specs.Number.{number_of};

use crate::reading::{read_answers_file, read_card_file, read_cart_file};
use crate::refusal::{DueRefusal, Refusal, RefusalCause};
use crate::shown::Shown;
use cpu_core::Cpu;
use kit_base::{Files, Name};
use kit_words::number_of;
use std::alloc::Global;
use trace_core::Trace;

/// The most steps of a run.
const STEP_LIMIT: u32 = 10_000_000;

/// The steps of a number word.
fn steps_of(alloc: Global, word: &str) -> Result<u32, Refusal>
    ensures given { GivesBy (λ n. n) result (steps_due word.now) }
    ensures own { IfErr result (IsOwn (10000000 < number_of word.now)) }
{
    let steps = number_of(word.as_bytes());
    if steps > STEP_LIMIT {
        return Err(Refusal::Cause(RefusalCause::Due(DueRefusal::OutOfRange(Name::new(
            alloc, word,
        )?))));
    }
    Ok(steps)
}

/// The run of the cartridge of that file, before its first step.
fn open_trace<F: Files>(
    alloc: Global,
    files: &mut F,
    cart: &str,
    answers: &str,
    card: Option<&str>,
    steps: &str,
) -> Result<Trace, Refusal>
    ensures held { F.held files.new ≡ F.held files.old }
    ensures told { IfSome (F.held files.old)
        (λ m. GivesBy trace_text result (traced_due cart.now answers.now (option_map (λ word. word.now) card.entry) steps.now m)) }
    ensures fails { IfSome (F.held files.old) (λ m. IfErr result (FailsIn (IsReadToTrace cart.now answers.now (option_map (λ word. word.now) card.entry) m))) }
    ensures causes { HasCausesOr (10000000 < number_of steps.now) result (counts F.faults F.misses F.overs files.old)
        (counts F.faults F.misses F.overs files.new) }
{
    let read = read_cart_file(alloc, files, cart)?;
    let answers = read_answers_file(alloc, files, answers)?;
    let card = read_card_file(alloc, files, card)?;
    let steps = steps_of(alloc, steps)?;
    let cpu = Cpu::open(alloc, read.into_parts().program, card)?;
    Ok(Trace {
        cpu,
        answers,
        steps,
    })
}

/// `trace cart answers card steps`. Nothing is created, and its text is printed later.
pub fn trace_command<F: Files>(
    alloc: Global,
    files: &mut F,
    cart: &str,
    answers: &str,
    card: Option<&str>,
    steps: &str,
) -> Result<Shown, Refusal>
    ensures told { IfSome (F.held files.old) (λ m. Leaves result (trace_due cart.now answers.now (option_map (λ word. word.now) card.entry) steps.now m)
        (IsReadToTrace cart.now answers.now (option_map (λ word. word.now) card.entry) m) m (F.held files.new)) }
    ensures causes { HasCausesOr (10000000 < number_of steps.now) result (counts F.faults F.misses F.overs files.old)
        (counts F.faults F.misses F.overs files.new) }
{
    let trace = open_trace(alloc, files, cart, answers, card, steps)?;
    Ok(Shown::Run(trace))
}
