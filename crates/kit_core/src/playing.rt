// The command `play`.
ghost use Rattle.std.specs.Prelude.{◌≡◌, ◌≤◌, ◌⊎◌, false, Ok, IfOk, IfSome, length};
ghost use Rattle.std.specs.Option.{ForSome};
ghost use Rattle.kit_base.specs.Counts.{counts};
ghost use Rattle.build_core.specs.Build.{IsCartText};
ghost use Rattle.cart_format.specs.Reading.{cart_of};
ghost use Rattle.kit_tools.specs.Carrying.{IsCarried, LeavesBy};
ghost use Rattle.kit_tools.specs.Causes.{HasCauses, HasCausesOr};
ghost use Rattle.kit_core.specs.Due.{play_due, play_reads, play_work};
ghost use Rattle.kit_core.specs.inner.Playing.{AreOutputs, IsGameOf};
ghost use Rattle.kit_tools.specs.Gaming.{IsOpened, game_of};
ghost use Rattle.kit_core.specs.Limits.{IsLarge};
ghost use Rattle.kit_words.specs.Parsed.{run_words_from};
ghost use Rattle.kit_tools.specs.Running.{Game, is_count, names_in};
ghost use Rattle.kit_words.specs.Number.{number_of};

use crate::building::{Outputs, build_text, made_outputs, write_made};
use build_core::Built;
use cart_format::{Cart, CartErr, read_cart};
use kit_base::{Files, Memory as OutOfMemory};
use kit_tools::{
    Loaded, LoadedSettings, Opened, Refusal, Shown, open_game, read_file, read_settings,
    write_outputs,
};
use kit_words::RunWords;
use std::alloc::Global;

/// The cartridge that was built. It is one that is read again, so only memory can be wanting.
pub fn built_cart(alloc: Global, built: &Built) -> Result<Cart, OutOfMemory>
    requires { IsCartText built.now.cart }
    ensures { IfOk result (λ c. cart_of built.now.cart ≡ Ok c) }
{
    match read_cart(alloc, built.cart.as_slice()) {
        Ok(cart) => Ok(cart),
        Err(CartErr::Memory) => Err(OutOfMemory),
        Err(CartErr::Cause(_)) => unreachable!(),
    }
}

/// What is run: the cartridge that was built, with these settings.
fn built_game(alloc: Global, built: &Built, settings: LoadedSettings) -> Result<Loaded, OutOfMemory>
    requires cartridge { IsCartText built.now.cart }
    requires room { ForSome settings.card (λ v. length v.items ≡ 0x40000) }
    requires few { settings.count ≤ 3600 }
    ensures game { IfOk result (IsGameOf built.now settings) }
    ensures room { IfOk result (λ g. ForSome g.card (λ v. length v.items ≡ 0x40000)) }
    ensures few { IfOk result (λ g. g.count ≤ 3600) }
{
    let cart = built_cart(alloc, built)?;
    let LoadedSettings { pads, card, count } = settings;
    Ok(Loaded {
        cart,
        pads,
        card,
        count,
    })
}

/// Writes what was built, runs it and writes the outputs of the run.
fn write_opened<F: Files>(
    files: &mut F,
    built: &Built,
    outputs: Outputs,
    opened: Opened,
    map: &str,
    words: &RunWords<'_>,
) -> Result<Shown, Refusal>
    requires { AreOutputs words.now.cart.now map.now built.now outputs }
    ensures written { (game : Game) → IsOpened (names_in (run_words_from words.now)) game opened
        → IsCarried (play_work map.now (run_words_from words.now) built.now game) result (F.held files.old) (F.held files.new) }
    ensures causes { HasCauses result (counts F.faults F.misses F.overs files.old) (counts F.faults F.misses F.overs files.new) }
{
    match write_made(files, words.cart, map, built, outputs) {
        Ok(()) => write_outputs(files, opened.run, opened.ending, opened.own, words),
        Err(refusal) => Err(refusal),
    }
}

/// Takes all memory, then writes what was built, runs it and writes the outputs of the run.
fn write_play<F: Files>(
    alloc: Global,
    files: &mut F,
    built: &Built,
    game: Loaded,
    map: &str,
    words: &RunWords<'_>,
) -> Result<Shown, Refusal>
    requires room { ForSome game.card (λ v. length v.items ≡ 0x40000) }
    requires few { game.count ≤ 3600 }
    ensures written { IsCarried (play_work map.now (run_words_from words.now) built.now (game_of game)) result (F.held files.old) (F.held files.new) }
    ensures causes { HasCauses result (counts F.faults F.misses F.overs files.old) (counts F.faults F.misses F.overs files.new) }
{
    let outputs = made_outputs(alloc, words.cart, map, built)?;
    let opened = open_game(alloc, game, words)?;
    write_opened(files, built, outputs, opened, map, words)
}

/// `play project cart map pads frames samples count card`. The line of a fault is printed later.
#[tactic(auto, using(kit_tools::proofs::Own::wider_causes))]
pub fn play_command<F: Files>(
    alloc: Global,
    files: &mut F,
    project: &str,
    map: &str,
    words: &RunWords<'_>,
) -> Result<Shown, Refusal>
    ensures told { IfSome (F.held files.old) (λ m. LeavesBy result (play_due project.now map.now (run_words_from words.now) m)
        (play_reads project.now (run_words_from words.now) m) m (F.held files.new)) }
    ensures causes { HasCausesOr (IsLarge project.now (F.held files.old) ⊎ (is_count (number_of words.now.count.now) ≡ false)) result
        (counts F.faults F.misses F.overs files.old) (counts F.faults F.misses F.overs files.new) }
{
    let text = read_file(alloc, files, project)?;
    let built = build_text(alloc, files, project, &text)?;
    let settings = read_settings(alloc, files, words)?;
    let game = built_game(alloc, &built, settings)?;
    write_play(alloc, files, &built, game, map, words)
}
