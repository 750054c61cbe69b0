// The command `run`.
ghost use Rattle.std.specs.Prelude.{◌≡◌, ◌≤◌, ◌∷◌, [], ℕ, List, Option, Some, false, length, IfSome, IfErr, IfOk};
ghost use Rattle.std.specs.Option.{ForSome, option_map};
ghost use Rattle.kit_base.specs.Effects.{Effect};
ghost use Rattle.kit_base.specs.Held.{Held};
ghost use Rattle.kit_base.specs.Outside.{IsOfWriting};
ghost use Rattle.kit_base.specs.Counts.{Counts, counts};
ghost use Rattle.run_files.specs.PadsReading.{pads_of};
ghost use Rattle.run_core.specs.Outputs.{Names};
ghost use Rattle.run_core.specs.Stands.{RunStands};
ghost use Rattle.run_core.specs.Writing.{HasRisen, IsCut as IsCutAt, IsNamed};
ghost use Rattle.kit_tools.specs.Carrying.{FailsAt, FailsIn, GivesBy, IsCarried, IsCut, Leaves};
ghost use Rattle.kit_tools.specs.Causes.{HasCause, HasCauses, HasCausesOr, IsOwn};
ghost use Rattle.kit_tools.specs.Running.{run_due, run_work, Game, count_up_to, game_due, is_count, is_up_to, names_in, no_pads, pads_due, settings_due};
ghost use Rattle.kit_tools.specs.Running.{settings_up_to, IsReadToSetBy, IsReadToSet, IsReadToRun};
ghost use Rattle.kit_tools.specs.Watching.{is_watch_count, watch_settings_due, IsReadToSetWatch};
ghost use Rattle.kit_tools.specs.Inputs.{or_refused};
ghost use Rattle.kit_words.specs.Parsed.{run_words_from, watch_words_from};
ghost use Rattle.kit_tools.specs.Gaming.{AreNames, IsOpened, game_of, settings_of};
ghost use Rattle.kit_words.specs.Number.{number_of};

use crate::reading::{read_card_file, read_cart_file, read_file};
use crate::refusal::{DueRefusal, Refusal, RefusalCause};
use crate::shown::Shown;
use cart_format::Cart;
use kit_base::{FileErr, Files, Memory as OutOfMemory, Name};
use kit_words::{RunWords, WatchWords, number_of};
use run_core::{Ending, Output, Run, RunNames, Unwritten};
use run_files::{Pads, PadsErr, read_pads};
use std::alloc::Global;

/// The most frames of a run.
const FRAME_LIMIT: u32 = 3_600;

/// The most frames of a run that is watched.
const WATCH_LIMIT: u32 = 600;

/// What is run: a cartridge, the script of the gamepads, the words of the memory card where one is connected, and for
/// how many frames.
#[derive(Drop)]
pub struct Loaded {
    pub cart: Cart,
    pub pads: Pads,
    pub card: Option<Vec<u32>>,
    pub count: u32,
}

/// What is run beside a cartridge.
#[derive(Drop)]
pub struct LoadedSettings {
    pub pads: Pads,
    pub card: Option<Vec<u32>>,
    pub count: u32,
}

/// The number of frames that a word gives, at most `greatest`.
fn count_up_to(alloc: Global, greatest: u32, word: &str) -> Result<u32, Refusal>
    requires { greatest ≤ 3600 }
    ensures given { GivesBy (λ n. n) result (count_up_to greatest word.now) }
    ensures own { IfErr result (IsOwn (is_up_to greatest (number_of word.now) ≡ false)) }
    ensures few { IfOk result (λ n. n ≤ greatest) }
{
    let count = number_of(word.as_bytes());
    if count < 1 || count > greatest {
        return Err(Refusal::Cause(RefusalCause::Due(DueRefusal::OutOfRange(Name::new(
            alloc, word,
        )?))));
    }
    Ok(count)
}

/// The script of that text.
fn pads_of_text(alloc: Global, name: &str, text: &[u8]) -> Result<Pads, Refusal>
    requires { length text.now ≤ 268435456 }
    ensures given { GivesBy (λ p. p) result (or_refused (no_pads name.now) (pads_of text.now)) }
    ensures own { IfErr result (IsOwn ⊥) }
{
    match read_pads(alloc, text) {
        Ok(pads) => Ok(pads),
        Err(PadsErr::At { code, line }) => {
            let own = Name::new(alloc, name)?;
            Err(Refusal::Cause(RefusalCause::Due(DueRefusal::Bad {
                code,
                name: own,
                line: Some(u64::from(line)),
            })))
        }
        Err(PadsErr::Memory) => Err(Refusal::Memory),
    }
}

/// The script of the pads file that a word names.
#[tactic(auto, using(crate::proofs::Own::own_fails, crate::proofs::Own::own_cause))]
fn read_pads_file<F: Files>(alloc: Global, files: &mut F, name: &str) -> Result<Pads, Refusal>
    ensures held { F.held files.new ≡ F.held files.old }
    ensures told { IfSome (F.held files.old) (λ m. GivesBy (λ p. p) result (pads_due name.now m)) }
    ensures fails { IfErr result (FailsAt (name.now ∷ [])) }
    ensures causes { HasCauses result (counts F.faults F.misses F.overs files.old) (counts F.faults F.misses F.overs files.new) }
{
    let text = read_file(alloc, files, name)?;
    pads_of_text(alloc, name, &text)
}

/// What these words run beside a cartridge, for at most `greatest` frames.
fn settings_up_to<F: Files>(
    alloc: Global,
    files: &mut F,
    greatest: u32,
    pads: &str,
    card: Option<&str>,
    count: &str,
) -> Result<LoadedSettings, Refusal>
    requires { greatest ≤ 3600 }
    ensures held { F.held files.new ≡ F.held files.old }
    ensures told { IfSome (F.held files.old)
        (λ m. GivesBy settings_of result (settings_up_to greatest pads.now (option_map (λ word. word.now) card.entry) count.now m)) }
    ensures fails { IfSome (F.held files.old) (λ m. IfErr result (FailsIn (IsReadToSetBy pads.now (option_map (λ word. word.now) card.entry) m))) }
    ensures causes { HasCausesOr (is_up_to greatest (number_of count.now) ≡ false) result (counts F.faults F.misses F.overs files.old)
        (counts F.faults F.misses F.overs files.new) }
    ensures room { IfOk result (λ s. ForSome s.card (λ v. length v.items ≡ 0x40000)) }
    ensures few { IfOk result (λ s. s.count ≤ greatest) }
{
    let pads = read_pads_file(alloc, files, pads)?;
    let card = read_card_file(alloc, files, card)?;
    let count = count_up_to(alloc, greatest, count)?;
    Ok(LoadedSettings { pads, card, count })
}

/// What those words run beside a cartridge.
pub fn read_settings<F: Files>(
    alloc: Global,
    files: &mut F,
    words: &RunWords<'_>,
) -> Result<LoadedSettings, Refusal>
    ensures held { F.held files.new ≡ F.held files.old }
    ensures told { IfSome (F.held files.old) (λ m. GivesBy settings_of result (settings_due (run_words_from words.now) m)) }
    ensures fails { IfSome (F.held files.old) (λ m. IfErr result (FailsIn (IsReadToSet (run_words_from words.now) m))) }
    ensures causes { HasCausesOr (is_count (number_of words.now.count.now) ≡ false) result (counts F.faults F.misses F.overs files.old)
        (counts F.faults F.misses F.overs files.new) }
    ensures room { IfOk result (λ s. ForSome s.card (λ v. length v.items ≡ 0x40000)) }
    ensures few { IfOk result (λ s. s.count ≤ 3600) }
{
    settings_up_to(
        alloc,
        files,
        FRAME_LIMIT,
        words.pads,
        words.card,
        words.count,
    )
}

/// What those words run beside the cartridge of their project.
pub fn read_watch_settings<F: Files>(
    alloc: Global,
    files: &mut F,
    words: &WatchWords<'_>,
) -> Result<LoadedSettings, Refusal>
    ensures held { F.held files.new ≡ F.held files.old }
    ensures told { IfSome (F.held files.old) (λ m. GivesBy settings_of result (watch_settings_due (watch_words_from words.now) m)) }
    ensures fails { IfSome (F.held files.old) (λ m. IfErr result (FailsIn (IsReadToSetWatch (watch_words_from words.now) m))) }
    ensures causes { HasCausesOr (is_watch_count (number_of words.now.count.now) ≡ false) result (counts F.faults F.misses F.overs files.old)
        (counts F.faults F.misses F.overs files.new) }
    ensures room { IfOk result (λ s. ForSome s.card (λ v. length v.items ≡ 0x40000)) }
    ensures few { IfOk result (λ s. s.count ≤ 600) }
{
    settings_up_to(
        alloc,
        files,
        WATCH_LIMIT,
        words.pads,
        words.card,
        words.count,
    )
}

/// What those words run.
fn read_game<F: Files>(
    alloc: Global,
    files: &mut F,
    words: &RunWords<'_>,
) -> Result<Loaded, Refusal>
    ensures held { F.held files.new ≡ F.held files.old }
    ensures told { IfSome (F.held files.old) (λ m. GivesBy game_of result (game_due (run_words_from words.now) m)) }
    ensures fails { IfSome (F.held files.old) (λ m. IfErr result (FailsIn (IsReadToRun (run_words_from words.now) m))) }
    ensures causes { HasCausesOr (is_count (number_of words.now.count.now) ≡ false) result (counts F.faults F.misses F.overs files.old)
        (counts F.faults F.misses F.overs files.new) }
    ensures room { IfOk result (λ g. ForSome g.card (λ v. length v.items ≡ 0x40000)) }
    ensures few { IfOk result (λ g. g.count ≤ 3600) }
{
    let cart = read_cart_file(alloc, files, words.cart)?;
    let LoadedSettings { pads, card, count } = read_settings(alloc, files, words)?;
    Ok(Loaded {
        cart,
        pads,
        card,
        count,
    })
}

/// The names of the files that a run writes, made before so that a fault can be told; that of the card is empty where
/// none is named.
#[derive(Drop)]
pub struct OwnNames {
    pub frames: Name,
    pub samples: Name,
    pub card: Name,
}

fn card_word(card: Option<&str>) -> &str
    ensures { (name : List ℕ) → option_map (λ word. word.now) card.entry ≡ Some name → result.now ≡ name }
{
    match card {
        Some(card) => card,
        None => "",
    }
}

fn own_names(alloc: Global, words: &RunWords<'_>) -> Result<OwnNames, OutOfMemory>
    ensures { IfOk result (λ own. AreNames own (names_in (run_words_from words.now))) }
{
    let frames = Name::new(alloc, words.frames)?;
    let samples = Name::new(alloc, words.samples)?;
    let card = Name::new(alloc, card_word(words.card))?;
    Ok(OwnNames {
        frames,
        samples,
        card,
    })
}

/// The name of that output's file.
fn name_of(own: OwnNames, output: Output) -> Name
    ensures { (names : Names) (name : List ℕ) → AreNames own names → IsNamed names output name → result ≡ name }
{
    match output {
        Output::Frames => own.frames,
        Output::Samples => own.samples,
        Output::Card => own.card,
    }
}

/// The refusal of an output.
fn unwritten(own: OwnNames, e: Unwritten) -> Refusal
    ensures cut { (names : Names) (effects : List Effect) (before after : Option Held) → AreNames own names → IsOfWriting e.error
        → IsCutAt names e.output effects before after → IsCut result effects before after }
    ensures cause { (before after : Counts) → IsOfWriting e.error → HasRisen e.error before.faults after.faults → HasCause ⊥ result before after }
{
    let name = name_of(own, e.output);
    match e.error {
        FileErr::Memory => Refusal::Memory,
        _ => Refusal::Cause(RefusalCause::Failed(name)),
    }
}

/// Does the run and writes its outputs.
pub fn write_outputs<F: Files>(
    files: &mut F,
    run: Run,
    ending: Ending,
    own: OwnNames,
    words: &RunWords<'_>,
) -> Result<Shown, Refusal>
    ensures written { (game : Game) → AreNames own (names_in (run_words_from words.now)) → RunStands game.setup game.count run → ending ≡ game.lines
        → IsCarried (run_work (names_in (run_words_from words.now)) game) result (F.held files.old) (F.held files.new) }
    ensures causes { HasCauses result (counts F.faults F.misses F.overs files.old) (counts F.faults F.misses F.overs files.new) }
{
    let names = RunNames {
        frames: words.frames,
        samples: words.samples,
        card: words.card,
    };
    match run.write(files, &names) {
        Ok(end) => Ok(Shown::Ended(ending, end)),
        Err(e) => Err(unwritten(own, e)),
    }
}

/// A run that can begin: want of memory comes before it.
#[derive(Drop)]
pub struct Opened {
    pub run: Run,
    pub ending: Ending,
    pub own: OwnNames,
}

/// Opens the console.
pub fn open_game(alloc: Global, game: Loaded, words: &RunWords<'_>) -> Result<Opened, OutOfMemory>
    requires room { ForSome game.card (λ v. length v.items ≡ 0x40000) }
    requires few { game.count ≤ 3600 }
    ensures { IfOk result (IsOpened (names_in (run_words_from words.now)) (game_of game)) }
{
    let Loaded {
        cart,
        pads,
        card,
        count,
    } = game;
    let own = own_names(alloc, words)?;
    let ending = Ending::of(alloc, &cart)?;
    let run = Run::open(alloc, cart, pads, card, count)?;
    Ok(Opened { run, ending, own })
}

/// Opens the console and does the run.
fn write_game<F: Files>(
    alloc: Global,
    files: &mut F,
    game: Loaded,
    words: &RunWords<'_>,
) -> Result<Shown, Refusal>
    requires room { ForSome game.card (λ v. length v.items ≡ 0x40000) }
    requires few { game.count ≤ 3600 }
    ensures written { IsCarried (run_work (names_in (run_words_from words.now)) (game_of game)) result (F.held files.old) (F.held files.new) }
    ensures causes { HasCauses result (counts F.faults F.misses F.overs files.old) (counts F.faults F.misses F.overs files.new) }
{
    let opened = open_game(alloc, game, words)?;
    write_outputs(files, opened.run, opened.ending, opened.own, words)
}

/// `run cart pads frames samples count card`. The line of a fault is printed later.
#[tactic(auto, using(crate::proofs::Own::wider_causes))]
pub fn run_command<F: Files>(
    alloc: Global,
    files: &mut F,
    words: &RunWords<'_>,
) -> Result<Shown, Refusal>
    ensures told { IfSome (F.held files.old) (λ m. Leaves result (run_due (run_words_from words.now) m) (IsReadToRun (run_words_from words.now) m) m
        (F.held files.new)) }
    ensures causes { HasCausesOr (is_count (number_of words.now.count.now) ≡ false) result (counts F.faults F.misses F.overs files.old)
        (counts F.faults F.misses F.overs files.new) }
{
    let game = read_game(alloc, files, words)?;
    write_game(alloc, files, game, words)
}
