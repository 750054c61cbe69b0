// The top call.
ghost use Rattle.std.specs.Prelude.{◌≡◌, ◌≢◌, ◌≤◌, ◌⊎◌, ◌++◌, ℕ, List, IfSome, None, Err};
ghost use Rattle.kit_base.specs.Counts.{Rose, counts};
ghost use Rattle.trace_core.specs.Putting.{trace_text};
ghost use Rattle.run_core.specs.Ending.{end_text};
ghost use Rattle.kit_tools.specs.Carrying.{shown_status, text_of};
ghost use Rattle.kit_core.specs.inner.Putting.{Puts, Shows};
ghost use Rattle.kit_tools.specs.Causes.{HasOnlyRisen, IsUnrisen};
ghost use Rattle.kit_words.specs.Command.{command_of, texts};
ghost use Rattle.gen_source.specs.Summary.{summary_end};
ghost use Rattle.kit_tools.specs.Work.{accepted};
ghost use Rattle.kit_core.specs.inner.Causes.{HasReasons, IsUsage};
ghost use Rattle.kit_core.specs.Due.{command_refused};
ghost use Rattle.kit_core.specs.inner.Fronts.{Carries};
ghost use Rattle.kit_core.specs.Headline.{BuildStands, GenStands, PlayStands};
ghost use Rattle.kit_core.specs.Holding.{FilesHold};
ghost use Rattle.kit_core.specs.Leaving.{LeavesFronts};
ghost use Rattle.kit_core.specs.Watched.{WatchStands};
ghost use Rattle.kit_core.specs.Bounded.{BoundsStand};
ghost use Rattle.kit_core.specs.Limits.{IsOver};
ghost use Rattle.kit_core.specs.Lines.{IsPut, PutsSource};
ghost use Rattle.kit_core.specs.Outcome.{HasDueStatus, IsOutcome};
ghost use Rattle.kit_tools.specs.declared.refusal.DueRefusal.{DueRefusal};
ghost use Rattle.kit_tools.specs.Refusal.{IsStatus, line_of, status_of};
ghost use Rattle.kit_tools.specs.Running.{RunStands, end_status};
ghost use Rattle.kit_tools.specs.Tracing.{TraceStands};
ghost use Rattle.kit_tools.specs.Watching.{watch_line};

use crate::bounding::bounds_command;
use crate::building::build_command;
use crate::checking::check_command;
use crate::generating::gen_command;
use crate::playing::play_command;
use crate::watching::watch_command;
use build_core::{builds_are_due_or_refused, built_cartridges_are_read_back};
use cycle_bound::calls_stay_within_bounds;
use gen_source::summary_end;
use kit_base::{Files, Sink, SinkErr};
use kit_tools::{
    DueRefusal, Refusal, RefusalCause, Shown, Verdict, convert_command, line_of, put_both,
    put_verdict, run_command, status_of, trace_command,
};
use kit_words::{Command, command_of};
use play_laws::{kept_runs_are_the_sources, played_runs_are_the_sources};
use run_core::Ending;
use std::alloc::Global;
use trace_core::Trace;
use v32_console::{FrameEnd, runs_are_of_instructions};

const OUT_OF_MEMORY: &[u8] = b"out of memory\n";

const ACCEPTED: &[u8] = b"ok\n";

/// Puts a text that ends a command at that status. A refusal of the sink answers 9, or 8 where it
/// wanted memory.
fn put_last<S: Sink>(out: &mut S, whole: &[u8], status: u8) -> u8
    ensures puts { Puts status whole.now result (S.written out.old) (S.written out.new) }
    ensures unput { result ≡ 9 → (status ≡ 9) ⊎ Rose (S.faults out.old) (S.faults out.new) }
    ensures later { S.faults out.old ≤ S.faults out.new }
{
    match out.put(whole) {
        Ok(()) => status,
        Err(SinkErr::Failed) => 9,
        Err(SinkErr::Memory) => 8,
    }
}

/// Puts the line of a refusal.
fn report<S: Sink>(alloc: Global, out: &mut S, refusal: &Refusal) -> u8
    ensures shows { Shows (status_of refusal.now) (line_of refusal.now) result (S.written out.old) (S.written out.new) }
    ensures unput { result ≡ 9 → Rose (S.faults out.old) (S.faults out.new) }
    ensures later { S.faults out.old ≤ S.faults out.new }
{
    match line_of(alloc, refusal) {
        Ok(line) => put_last(out, &line, status_of(refusal)),
        Err(_) => put_last(out, OUT_OF_MEMORY, 8),
    }
}

/// Puts the text of a run.
fn put_trace<S: Sink>(out: &mut S, trace: Trace) -> u8
    ensures shows { Shows 0 (trace_text trace) result (S.written out.old) (S.written out.new) }
    ensures unput { result ≡ 9 → Rose (S.faults out.old) (S.faults out.new) }
    ensures later { S.faults out.old ≤ S.faults out.new }
{
    match trace.put(out) {
        Ok(()) => 0,
        Err(SinkErr::Failed) => 9,
        Err(SinkErr::Memory) => put_last(out, OUT_OF_MEMORY, 8),
    }
}

/// Puts that a project's source has a program.
fn put_accepted<S: Sink>(out: &mut S) -> u8
    ensures shows { Shows 0 accepted.text result (S.written out.old) (S.written out.new) }
    ensures unput { result ≡ 9 → Rose (S.faults out.old) (S.faults out.new) }
    ensures later { S.faults out.old ≤ S.faults out.new }
{
    put_last(out, ACCEPTED, 0)
}

/// The status of a run that ended so.
fn end_status(end: FrameEnd) -> u8
    ensures { result ≡ end_status end }
{
    match end {
        FrameEnd::Full | FrameEnd::Waited | FrameEnd::Halted => 0,
        FrameEnd::Fault { .. } | FrameEnd::Undecodable(_) => 3,
    }
}

/// Puts the line of a run that ended so, none where it did not end by a fault.
fn put_end<S: Sink>(out: &mut S, ending: &Ending, end: FrameEnd) -> u8
    ensures shows { Shows (end_status end) (end_text ending.now end) result (S.written out.old) (S.written out.new) }
    ensures unput { result ≡ 9 → Rose (S.faults out.old) (S.faults out.new) }
    ensures later { S.faults out.old ≤ S.faults out.new }
{
    match ending.put_end(end, out) {
        Ok(()) => end_status(end),
        Err(SinkErr::Failed) => 9,
        Err(SinkErr::Memory) => put_last(out, OUT_OF_MEMORY, 8),
    }
}

/// Puts the line of a verdict.
fn put_watched<S: Sink>(out: &mut S, verdict: &Verdict) -> u8
    ensures shows { Shows 0 (watch_line verdict.now) result (S.written out.old) (S.written out.new) }
    ensures unput { result ≡ 9 → Rose (S.faults out.old) (S.faults out.new) }
    ensures later { S.faults out.old ≤ S.faults out.new }
{
    match put_verdict(out, verdict) {
        Ok(()) => 0,
        Err(SinkErr::Failed) => 9,
        Err(SinkErr::Memory) => put_last(out, OUT_OF_MEMORY, 8),
    }
}

/// Puts lines that were made before.
fn put_lines<S: Sink>(out: &mut S, lines: &[u8]) -> u8
    ensures shows { Shows 0 lines.now result (S.written out.old) (S.written out.new) }
    ensures unput { result ≡ 9 → Rose (S.faults out.old) (S.faults out.new) }
    ensures later { S.faults out.old ≤ S.faults out.new }
{
    put_last(out, lines, 0)
}

/// Puts a line that ends with the eight digits of a word.
fn put_word<S: Sink>(out: &mut S, front: &[u8], word: u32) -> u8
    ensures shows { Shows 0 (front.now ++ summary_end word) result (S.written out.old) (S.written out.new) }
    ensures unput { result ≡ 9 → Rose (S.faults out.old) (S.faults out.new) }
    ensures later { S.faults out.old ≤ S.faults out.new }
{
    let end = summary_end(word);
    match put_both(out, front, &end) {
        Ok(()) => 0,
        Err(SinkErr::Failed) => 9,
        Err(SinkErr::Memory) => put_last(out, OUT_OF_MEMORY, 8),
    }
}

/// Puts the text of a command whose outputs are done.
fn finish<S: Sink>(out: &mut S, shown: Shown) -> u8
    ensures shows { Shows (shown_status shown) (text_of shown) result (S.written out.old) (S.written out.new) }
    ensures unput { result ≡ 9 → Rose (S.faults out.old) (S.faults out.new) }
    ensures later { S.faults out.old ≤ S.faults out.new }
{
    match shown {
        Shown::Nothing => 0,
        Shown::Accepted => put_accepted(out),
        Shown::Run(trace) => put_trace(out, trace),
        Shown::Ended(ending, end) => put_end(out, &ending, end),
        Shown::Watched(verdict) => put_watched(out, &verdict),
        Shown::Lines(lines) => put_lines(out, &lines),
        Shown::Word(front, word) => put_word(out, &front, word),
    }
}

/// Carries out the command of these words, up to its text.
fn carry_out<F: Files>(alloc: Global, words: &[String], files: &mut F) -> Result<Shown, Refusal>
    ensures told { IfSome (F.held files.old) (λ m. Carries result (command_of (texts words.now)) m (F.held files.new)) }
    ensures usage { command_of (texts words.now) ≡ None → IsUsage result }
    ensures causes { HasReasons (texts words.now) (F.held files.old) result (counts F.faults F.misses F.overs files.old)
        (counts F.faults F.misses F.overs files.new) }
{
    match command_of(alloc, words)? {
        None => Err(Refusal::Cause(RefusalCause::Due(DueRefusal::Usage))),
        Some(Command::Build { project, cart, map }) => {
            build_command(alloc, files, project, cart, map)
        }
        Some(
            Command::Convert {
                conversion,
                source,
                target,
            },
        ) => convert_command(alloc, files, conversion, source, target),
        Some(
            Command::Trace {
                cart,
                answers,
                card,
                steps,
            },
        ) => trace_command(alloc, files, cart, answers, card, steps),
        Some(Command::Run(words)) => run_command(alloc, files, &words),
        Some(
            Command::Play {
                project,
                map,
                words,
            },
        ) => play_command(alloc, files, project, map, &words),
        Some(Command::Watch(words)) => watch_command(alloc, files, &words),
        Some(
            Command::Bounds {
                project,
                cart,
                map,
                text,
            },
        ) => bounds_command(alloc, files, project, cart, map, text),
        Some(Command::Check { project }) => check_command(alloc, files, project),
        Some(
            Command::Gen {
                number,
                project,
                cart,
                map,
            },
        ) => gen_command(alloc, files, number, project, cart, map),
    }
}

/// The status of the command of these words, after its text or its line was put.
fn status_for<F: Files, S: Sink>(alloc: Global, words: &[String], files: &mut F, out: &mut S) -> u8
    ensures told { IfSome (F.held files.old) (λ m. IsOutcome (texts words.now) m result (F.held files.new) (S.written out.old) (S.written out.new)) }
    ensures usage { result ≡ 1 → command_of (texts words.now) ≡ None }
    ensures no_form { command_of (texts words.now) ≡ None → (result ≡ 1) ⊎ ((result ≡ 8) ⊎ (result ≡ 9)) }
    ensures sources { result ≡ 2 → PutsSource (counts F.faults F.misses F.overs files.old) (counts F.faults F.misses F.overs files.new)
        (S.written out.old) (S.written out.new) }
    ensures line { IsPut result (S.written out.old) (S.written out.new) }
    ensures missing { result ≡ 4 → Rose (F.misses files.old) (F.misses files.new) }
    ensures failed { result ≡ 5 → Rose (F.faults files.old) (F.faults files.new) }
    ensures limit { result ≡ 7 → Rose (F.overs files.old) (F.overs files.new) ⊎ IsOver (texts words.now) (F.held files.old) }
    ensures unput { result ≡ 9 → Rose (S.faults out.old) (S.faults out.new) }
    ensures later { HasOnlyRisen (counts F.faults F.misses F.overs files.old) (counts F.faults F.misses F.overs files.new) (S.faults out.old)
        (S.faults out.new) }
    ensures status { IsStatus result }
{
    match carry_out(alloc, words, files) {
        Ok(shown) => finish(out, shown),
        Err(refusal) => report(alloc, out, &refusal),
    }
}

/// Carries out the command of these words, those after the program's own name, and answers the exit
/// status: 0 all was done, 1 the words are no listed form, 2 the sources give no program, 3 a run of
/// a console ended by a fault or at an undecodable word, 4 a file is missing, 5 a call of the files
/// failed, 6 a file is not of its grammar, 7 a file, or a cartridge that is to be written, is over
/// 268,435,456 bytes, or a number of steps, frames or functions is out of its range, 8 memory ran out, 9 the
/// sink failed. On 1 to 8 a line is printed that says so.
pub fn kit<F: Files, S: Sink>(alloc: Global, words: &[String], files: &mut F, out: &mut S) -> u8
    // Where it is told what is held, the status, what is held after and what was put are those of the command.
    ensures told { IfSome (F.held files.old) (λ m. IsOutcome (texts words.now) m result (F.held files.new) (S.written out.old) (S.written out.new)) }
    // At 0 the outputs of a build stand, and its cartridge does what its source means.
    ensures agrees { IfSome (F.held files.old) (λ m. result ≡ 0 → BuildStands (texts words.now) m (F.held files.new)) }
    // At 0 the text of a trace was put, and no file was changed.
    ensures traces { IfSome (F.held files.old) (λ m. result ≡ 0 → TraceStands (texts words.now) m (F.held files.new) (S.written out.old) (S.written out.new)) }
    // At 0 and 3 the outputs of a run are those of the console's run, and the line of its fault was put.
    ensures runs { IfSome (F.held files.old) (λ m. (result ≡ 0) ⊎ (result ≡ 3)
        → RunStands (texts words.now) m result (F.held files.new) (S.written out.old) (S.written out.new)) }
    // At 0 and 3 the files of a play hold what was built and the bytes of its frames, of its sound and of its card; its console's run is what the source
    // of what was built means, and the line of its fault was put.
    ensures plays { IfSome (F.held files.old) (λ m. (result ≡ 0) ⊎ (result ≡ 3)
        → PlayStands (texts words.now) m result (F.held files.new) (S.written out.old) (S.written out.new)) }
    // At 0 and 3 the files of a run hold the bytes of its frames, of its sound and of its card.
    ensures holds { IfSome (F.held files.old) (λ m. (result ≡ 0) ⊎ (result ≡ 3) → FilesHold (texts words.now) m (F.held files.new)) }
    // At 0 the outputs of a watch are what was built, and the line of its verdict was put, which tells exactly whether the source strays, or lacks room for
    // a frame, before the run is over.
    ensures watches { IfSome (F.held files.old) (λ m. result ≡ 0
        → WatchStands (texts words.now) m (F.held files.new) (S.written out.old) (S.written out.new)) }
    // At 0 the outputs of `bounds` stand, with the assembly text, and for each function of the map the line of its bound was put, within which its calls
    // stay in each run of the cartridge, as far as the run does what the source means; a function that takes no turns has a number.
    ensures bounded { IfSome (F.held files.old) (λ m. result ≡ 0
        → BoundsStand (texts words.now) m (F.held files.new) (S.written out.old) (S.written out.new)) }
    // At any status each file that a command creates is as before or holds a front of its bytes, and every other file is as before.
    ensures fronts { IfSome (F.held files.old) (λ m. LeavesFronts (texts words.now) m (F.held files.new)) }
    // At 0 the files of a `gen` are the project and source made up and what was built of them; its run is what that source means, its line put.
    ensures generates { IfSome (F.held files.old) (λ m. result ≡ 0
        → GenStands (texts words.now) m (F.held files.new) (S.written out.old) (S.written out.new)) }
    // A command whose words or input are refused changes no file, whatever its status.
    ensures untouched { IfSome (F.held files.old) (λ m. (e : DueRefusal) → command_refused (texts words.now) m e → F.held files.new ≡ F.held files.old) }
    // Where no call failed, the status is one that is due, or 8.
    ensures complete { IfSome (F.held files.old) (λ m. IsUnrisen (F.faults files.old) (F.faults files.new) → IsUnrisen (S.faults out.old) (S.faults out.new)
        → HasDueStatus (texts words.now) m result ⊎ (result ≡ 8)) }
    // Whatever is told, at 1 to 7 but 3 the line of a refusal that has that status was put, at 8 that line or a front of another text and of that
    // line, at 9 a front;
    ensures line { IsPut result (S.written out.old) (S.written out.new) }
    // the status is 1 only where the words are no command, and where they are none it is 1, or 8 or 9;
    ensures usage { result ≡ 1 → command_of (texts words.now) ≡ None }
    ensures no_form { command_of (texts words.now) ≡ None → (result ≡ 1) ⊎ ((result ≡ 8) ⊎ (result ≡ 9)) }
    // and at 2 the code is one of the listed codes of a source, and is 21 only where a name was missing.
    ensures sources { result ≡ 2 → PutsSource (counts F.faults F.misses F.overs files.old) (counts F.faults F.misses F.overs files.new)
        (S.written out.old) (S.written out.new) }
    // Refusals by the outside come only where a count rose, one of a limit also where the command itself is over it.
    ensures missing { result ≡ 4 → Rose (F.misses files.old) (F.misses files.new) }
    ensures failed { result ≡ 5 → Rose (F.faults files.old) (F.faults files.new) }
    ensures limit { result ≡ 7 → Rose (F.overs files.old) (F.overs files.new) ⊎ IsOver (texts words.now) (F.held files.old) }
    ensures unput { result ≡ 9 → Rose (S.faults out.old) (S.faults out.new) }
    ensures later { HasOnlyRisen (counts F.faults F.misses F.overs files.old) (counts F.faults F.misses F.overs files.new) (S.faults out.old)
        (S.faults out.new) }
    ensures status { IsStatus result }
{
    builds_are_due_or_refused();
    built_cartridges_are_read_back();
    calls_stay_within_bounds();
    played_runs_are_the_sources();
    kept_runs_are_the_sources();
    runs_are_of_instructions();
    status_for(alloc, words, files, out)
}
