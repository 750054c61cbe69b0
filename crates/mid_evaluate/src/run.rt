// The run of a program.
ghost use Rattle.std.specs.Prelude.{◌≡◌, IfOk, option_map};
ghost use Rattle.mid_code.specs.View.{code};
ghost use Rattle.mid_code.specs.Whole.{mid};
ghost use Rattle.mid_code.specs.Runs.{final, main_called, mid_runs, run_of, start_done};
ghost use Rattle.mid_code.specs.States.{temporaries};
ghost use Rattle.mid_evaluate.specs.inner.Once.{ran};
ghost use Rattle.mid_evaluate.specs.View.{code_of, ending, run, state_of};

use crate::answer::{Ending, MidRun};
use crate::flow::Flow;
use crate::kept::{cells_of, globals_of};
use crate::nodes::{call, run_nodes};
use crate::opening::{global_words, opening};
use crate::setting::Setting;
use crate::state::State;
use crate::stop::Stop;
use kit_base::{Memory, Seq};
use mid_code::{Code, Mid};
use obj_mem::Frames;
use std::alloc::Global;

/// Calls main.
fn run_main<'a>(s: &Setting<'a>, m: &mut State<'a>, n: u32) -> Result<Ending, Memory>
    ensures { IfOk result (λ end. main_called temporaries (code_of s.now) s.now.frames.now n (state_of m.old) ≡ final (ending end) (state_of m.new).world) }
{
    match call(s, m, n, None, s.of.main, &[]) {
        Ok(Flow::Next) => Ok(Ending::Halted),
        Ok(Flow::Returns) => Ok(Ending::Halted),
        Ok(Flow::Leaves(_)) => Ok(Ending::Stray),
        Ok(Flow::Repeats(_)) => Ok(Ending::Stray),
        Err(Stop::Cause(end)) => Ok(end),
        Err(Stop::Memory) => Err(Memory),
    }
}

/// Fills the globals, and calls main.
fn run_whole<'a>(s: &Setting<'a>, m: &mut State<'a>, n: u32) -> Result<Ending, Memory>
    ensures { IfOk result (λ end. start_done (ran (code_of s.now) s.now.frames.now n (code_of s.now).start.body (state_of m.old))
        (main_called temporaries (code_of s.now) s.now.frames.now n) ≡ final (ending end) (state_of m.new).world) }
{
    match run_nodes(s, m, n, s.of.start.body.as_slice()) {
        Ok(Flow::Next) => run_main(s, m, n),
        Ok(Flow::Returns) => run_main(s, m, n),
        Ok(Flow::Leaves(_)) => Ok(Ending::Stray),
        Ok(Flow::Repeats(_)) => Ok(Ending::Stray),
        Err(Stop::Cause(end)) => Ok(end),
        Err(Stop::Memory) => Err(Memory),
    }
}

/// What is seen of the run that has ended.
fn ended<'a>(alloc: Global, x: &Code<u32>, end: Ending, m: State<'a>) -> Result<MidRun, Memory>
    ensures { IfOk result (λ r. run r ≡ run_of (code x.now) (final (ending end) (state_of m.entry).world)) }
{
    let globals = x.globals.as_slice().len();
    let card = globals as u64 + x.literals.as_slice().len() as u64;
    let State { world, .. } = m;
    let kept = globals_of(alloc, &world.store.objects, globals)?;
    let card = cells_of(alloc, &world.store.objects, card)?;
    Ok(MidRun {
        events: Seq::from_vec(world.events),
        end,
        globals: kept,
        card,
        work: world.work,
    })
}

/// The run of code.
#[tactic(auto, using(crate::proofs::Runs::whole))]
fn run_code(
    alloc: Global,
    of: &Code<u32>,
    frames: &[u32],
    bound: u32,
    answers: &[u32],
    card: Option<&[u32]>,
) -> Result<MidRun, Memory>
    ensures { IfOk result (λ r. run r ≡ mid_runs (code of.now) frames.now bound answers.now (option_map (λ w. w.now) card.entry)) }
{
    let s = Setting {
        alloc,
        of,
        frames,
        globals: global_words(of.globals.as_slice())?,
    };
    let mut m = opening(alloc, of, answers, card)?;
    let end = run_whole(&s, &mut m, bound)?;
    ended(alloc, of, end, m)
}

/// The run of mid code whose frames have these sizes, for that bound on the calls and loop turns that are nested on any path, with these
/// answers of ports, and a memory card of 262,144 words where one is connected. The error is want of memory; so is told work that no word of
/// 64 bits counts.
pub fn evaluate_mid(
    alloc: Global,
    m: &Mid,
    frames: &Frames,
    bound: u32,
    answers: &[u32],
    card: Option<&[u32]>,
) -> Result<MidRun, Memory>
    ensures { IfOk result (λ r. run r ≡ mid_runs (mid m.now) frames.now.sizes bound answers.now (option_map (λ w. w.now) card.entry)) }
{
    run_code(
        alloc,
        m.code(),
        frames.sizes.as_slice(),
        bound,
        answers,
        card,
    )
}
