// The command `watch`.
ghost use Rattle.std.specs.Prelude.{ℕ, List, ◌≡◌, ◌≤◌, ◌+◌, ◌*◌, ◌⊎◌, false, not, map, IfOk, IfSome, length, option_map};
ghost use Rattle.std.specs.Option.{ForSome};
ghost use Rattle.kit_base.specs.Counts.{counts};
ghost use Rattle.cpu_core.specs.Space.{words_of};
ghost use Rattle.c_check.specs.View.{program};
ghost use Rattle.c_image.specs.Imaging.{frame_sizes};
ghost use Rattle.v32_console.specs.Moments.{goes_on};
ghost use Rattle.v32_console.specs.Setup.{Setup};
ghost use Rattle.kit_words.specs.Number.{number_of};
ghost use Rattle.kit_words.specs.Parsed.{watch_words_from};
ghost use Rattle.kit_tools.specs.Carrying.{IsCarried, LeavesBy};
ghost use Rattle.kit_tools.specs.Causes.{HasCauses, HasCausesOr};
ghost use Rattle.kit_tools.specs.Gaming.{settings_of};
ghost use Rattle.kit_tools.specs.Watching.{is_watch_count};
ghost use Rattle.kit_core.specs.Due.{watch_due, watch_reads, watch_work};
ghost use Rattle.kit_core.specs.inner.Following.{IsOpened, shown_by};
ghost use Rattle.kit_core.specs.Limits.{IsLarge};
ghost use Rattle.kit_core.specs.Meaning.{console_of};
ghost use Rattle.kit_core.specs.inner.Playing.{AreOutputs};
ghost use Rattle.kit_core.specs.Watching.{verdict_at, watched_in};

use crate::building::{Outputs, made_outputs, write_made};
use crate::following::{Watchable, build_watchable};
use crate::playing::built_cart;
use build_core::Checked;
use c_front::Places;
use c_watch::{Goal, Watched, watch};
use cart_format::Cart;
use kit_base::{Files, Memory as OutOfMemory, Name, Seq};
use kit_tools::{LoadedSettings, Refusal, Shown, Verdict, read_file, read_watch_settings};
use kit_words::WatchWords;
use noted_run::{Noted, NotedRun};
use obj_mem::Frames;
use project_text::Map;
use std::alloc::Global;
use v32_console::FrameEnd;

/// A run that can begin, the sizes of the frames of the source's functions, and the words of the memory card as they are then.
#[derive(Drop)]
pub struct Opened {
    pub run: NotedRun,
    pub frames: Frames,
    pub card: Option<Vec<u32>>,
}

/// The sizes of those rows.
fn sizes_of(alloc: Global, rows: &[(Name, u32, u32)]) -> Result<Vec<u32>, OutOfMemory>
    ensures { IfOk result (λ v. v.items ≡ map (λ row. row.2) rows.now) }
{
    let mut sizes = Vec::new(alloc);
    'rows: for row in rows {
        sizes.push(row.2)?;
    }
    Ok(sizes)
}

/// The sizes of the frames of that map.
fn frames_of(alloc: Global, map: &Map) -> Result<Frames, OutOfMemory>
    ensures { IfOk result (λ f. f.sizes ≡ frame_sizes map.now) }
{
    let sizes = sizes_of(alloc, map.frames.as_slice())?;
    Ok(Frames {
        sizes: Seq::from_vec(sizes),
    })
}

/// The words of that card once more.
fn copy_card(card: &Option<Vec<u32>>) -> Result<Option<Vec<u32>>, OutOfMemory>
    ensures { IfOk result (λ copy. words_of copy ≡ words_of card.now) }
{
    match card {
        None => Ok(None),
        Some(words) => Ok(Some(words.clone()?)),
    }
}

/// The words of that card.
fn card_words(card: &Option<Vec<u32>>) -> Option<&[u32]>
    ensures { option_map (λ words. words.now) result ≡ words_of card.now }
{
    match card {
        None => None,
        Some(words) => Some(words),
    }
}

/// Takes the memory of a run, but for that of its notes and of the source's meaning.
fn open_watch(
    alloc: Global,
    map: &Map,
    cart: Cart,
    settings: LoadedSettings,
) -> Result<Opened, OutOfMemory>
    requires room { ForSome settings.card (λ v. length v.items ≡ 0x40000) }
    requires few { settings.count ≤ 600 }
    ensures opened { IfOk result (IsOpened (console_of cart (settings_of settings)) settings.count (frame_sizes map.now)) }
    ensures few { IfOk result (λ o. o.run.count ≤ 600) }
{
    let LoadedSettings { pads, card, count } = settings;
    let copy = copy_card(&card)?;
    let frames = frames_of(alloc, map)?;
    let run = NotedRun::open(alloc, cart, pads, card, count)?;
    Ok(Opened {
        run,
        frames,
        card: copy,
    })
}

/// Whether a run whose last frame ended so has ended.
fn has_ended(end: FrameEnd) -> bool
    ensures { result ≡ not (goes_on end) }
{
    match end {
        FrameEnd::Full | FrameEnd::Waited => false,
        FrameEnd::Halted | FrameEnd::Fault { .. } | FrameEnd::Undecodable(_) => true,
    }
}

/// How far the source is followed.
fn goal_of(noted: &Noted) -> Goal
    requires { noted.now.notes.instructions ≤ 150000000 }
    ensures { result ≡ record { events = noted.now.notes.events; ended = not (goes_on noted.now.end); bound = noted.now.notes.instructions + 1 } }
{
    Goal {
        events: noted.notes.events(),
        ended: has_ended(noted.end),
        bound: noted.notes.instructions() as u32 + 1,
    }
}

/// The verdict, with the place of the first token of the piece of the source that fails.
fn verdict_of(places: &Places, watched: Watched) -> Result<Verdict, OutOfMemory>
    ensures { IfOk result (λ v. v ≡ verdict_at places.now watched) }
{
    match watched {
        Watched::Met => Ok(Verdict::Met),
        Watched::Stray(span) => {
            let (name, line) = places.place_of(span);
            let file = name.copy()?;
            Ok(Verdict::Stray { file, line })
        }
        Watched::Deep(span) => {
            let (name, line) = places.place_of(span);
            let file = name.copy()?;
            Ok(Verdict::Deep { file, line })
        }
    }
}

/// Does the run, then follows the source under the answers that the run got.
fn judge(alloc: Global, checked: &Checked, opened: Opened) -> Result<Verdict, OutOfMemory>
    requires few { opened.run.count ≤ 600 }
    ensures { (u : Setup) (count : ℕ) (frames : List ℕ) → IsOpened u count frames opened
        → IfOk result (λ v. v ≡ verdict_at checked.now.places (watched_in (program checked.now.program) frames u count)) }
{
    let Opened { run, frames, card } = opened;
    let noted = run.finish()?;
    let goal = goal_of(&noted);
    let watched = watch(
        alloc,
        checked.program(),
        &frames,
        noted.notes.answers(),
        card_words(&card),
        &goal,
    )?;
    verdict_of(checked.places(), watched)
}

/// What is printed of a verdict.
fn shown_by(verdict: Result<Verdict, OutOfMemory>) -> Result<Shown, Refusal>
    ensures { result ≡ shown_by verdict }
{
    match verdict {
        Ok(verdict) => Ok(Shown::Watched(verdict)),
        Err(_) => Err(Refusal::Memory),
    }
}

/// Writes what was built, then runs it and follows its source.
fn write_opened<F: Files>(
    alloc: Global,
    files: &mut F,
    made: &Watchable,
    outputs: Outputs,
    opened: Opened,
    words: &WatchWords<'_>,
) -> Result<Shown, Refusal>
    requires outputs { AreOutputs words.now.cart.now words.now.map.now made.now.built outputs }
    requires few { opened.run.count ≤ 600 }
    ensures written { (u : Setup) (count : ℕ) (frames : List ℕ) → IsOpened u count frames opened
        → IsCarried (watch_work (watch_words_from words.now) made.now.built
        (verdict_at made.now.checked.places (watched_in (program made.now.checked.program) frames u count)))
        result (F.held files.old) (F.held files.new) }
    ensures causes { HasCauses result (counts F.faults F.misses F.overs files.old) (counts F.faults F.misses F.overs files.new) }
{
    match write_made(files, words.cart, words.map, &made.built, outputs) {
        Ok(()) => shown_by(judge(alloc, &made.checked, opened)),
        Err(refusal) => Err(refusal),
    }
}

/// Takes the memory of the outputs and of the run, then writes what was built, runs it and follows its source.
fn write_watch<F: Files>(
    alloc: Global,
    files: &mut F,
    made: &Watchable,
    cart: Cart,
    settings: LoadedSettings,
    words: &WatchWords<'_>,
) -> Result<Shown, Refusal>
    requires room { ForSome settings.card (λ v. length v.items ≡ 0x40000) }
    requires few { settings.count ≤ 600 }
    ensures written { IsCarried (watch_work (watch_words_from words.now) made.now.built
        (verdict_at made.now.checked.places (watched_in (program made.now.checked.program)
        (frame_sizes made.now.built.map) (console_of cart (settings_of settings)) settings.count))) result (F.held files.old) (F.held files.new) }
    ensures causes { HasCauses result (counts F.faults F.misses F.overs files.old) (counts F.faults F.misses F.overs files.new) }
{
    let outputs = made_outputs(alloc, words.cart, words.map, &made.built)?;
    let opened = open_watch(alloc, &made.built.map, cart, settings)?;
    write_opened(alloc, files, made, outputs, opened, words)
}

/// `watch project cart map pads count card`. The line of the verdict is printed later.
#[tactic(auto, using(kit_tools::proofs::Own::wider_causes))]
pub fn watch_command<F: Files>(
    alloc: Global,
    files: &mut F,
    words: &WatchWords<'_>,
) -> Result<Shown, Refusal>
    ensures told { IfSome (F.held files.old)
        (λ m. LeavesBy result (watch_due (watch_words_from words.now) m) (watch_reads (watch_words_from words.now) m) m (F.held files.new)) }
    ensures causes { HasCausesOr (IsLarge words.now.project.now (F.held files.old) ⊎ (is_watch_count (number_of words.now.count.now) ≡ false)) result
        (counts F.faults F.misses F.overs files.old) (counts F.faults F.misses F.overs files.new) }
{
    let text = read_file(alloc, files, words.project)?;
    let made = build_watchable(alloc, files, words.project, &text)?;
    let settings = read_watch_settings(alloc, files, words)?;
    let cart = built_cart(alloc, &made.built)?;
    write_watch(alloc, files, &made, cart, settings, words)
}
