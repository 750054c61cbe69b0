// A run into files.
use std::marker::Model;
use v32_console::Console;

/// A console that was opened, the most frames that it is to do, and the room to write them.
#[derive(Drop)]
pub struct Run {
    console: Console,
    buffer: Vec<u8>,
    count: u32,
}

impl Model for Run {
    ghost use Rattle.run_core.specs.Stands.{RunParts, IsReady};

    ghost Value = { RunParts };

    ghost view = { λ r. record { console = r.console; count = r.count } };

    ghost invariant = { λ r. IsReady r.console r.buffer.items r.count };
}

ghost use Rattle.std.specs.Prelude.{◌≡◌, ◌≤◌, ◌+◌, ℕ, length, IfOk, IfErr, OnOk};
ghost use Rattle.std.specs.Option.{ForSome};
ghost use Rattle.kit_base.specs.Counts.{counts};
ghost use Rattle.kit_base.specs.Effects.{all_done};
ghost use Rattle.kit_base.specs.Outside.{IsOfWriting};
ghost use Rattle.cpu_core.specs.Space.{words_of};
ghost use Rattle.v32_console.specs.Setup.{Setup, setup_of};
ghost use Rattle.v32_console.specs.Moments.{Moment, opening_moment};
ghost use Rattle.v32_console.specs.Stands.{ConsoleStands, frames_in};
ghost use Rattle.run_core.specs.Outputs.{card_outputs, end_of, heads, last_moment, run_end, run_outputs};
ghost use Rattle.run_core.specs.Stands.{RunStands};
ghost use Rattle.run_core.specs.Writing.{HasCauses, IsCut, IsThere, Writes, names_of};

use crate::frames::write_frames;
use crate::output::{Output, RunNames, Unwritten};
use crate::writing::{write_bytes, write_words};
use cart_format::Cart;
use kit_base::{Files, Memory};
use run_files::{Pads, frames_header, samples_header};
use std::alloc::Global;
use v32_console::FrameEnd;

/// The bytes of a memory card, the longest text of words that a run writes.
const BUFFER_BYTES: usize = 1_048_576;

/// So many bytes. The error is want of memory.
fn zeros(alloc: Global, count: usize) -> Result<Vec<u8>, Memory>
    ensures { IfOk result (λ v. length v.items ≡ count) }
{
    Ok(vec![in alloc; 0u8; count]?)
}

/// Makes the files of the frames and of the samples anew, each with its head.
fn write_heads<F: Files>(files: &mut F, names: &RunNames<'_>) -> Result<(), Unwritten>
    ensures written { Writes (names_of names.now) (heads (names_of names.now)) result (F.held files.old) (F.held files.new) }
    ensures kinds { IfErr result (λ e. IsOfWriting e.error) }
    ensures causes { HasCauses result (counts F.faults F.misses F.overs files.old) (counts F.faults F.misses F.overs files.new) }
{
    write_bytes(files, Output::Frames, names.frames, &frames_header())?;
    write_bytes(files, Output::Samples, names.samples, &samples_header())
}

/// Makes the card's file anew with the words of the card, where a file is named and a card is connected.
fn write_card<F: Files>(
    console: &Console,
    buffer: &mut [u8],
    files: &mut F,
    names: &RunNames<'_>,
) -> Result<(), Unwritten>
    requires room { length buffer.old ≡ 1048576 }
    ensures written { (u : Setup) (m : Moment) → ConsoleStands u m console.now
        → Writes (names_of names.now) (card_outputs (names_of names.now).card m.state) result (F.held files.old) (F.held files.new) }
    ensures kinds { IfErr result (λ e. IsOfWriting e.error) }
    ensures causes { HasCauses result (counts F.faults F.misses F.overs files.old) (counts F.faults F.misses F.overs files.new) }
{
    let Some(name) = names.card else {
        return Ok(());
    };
    match console.card() {
        Some(words) => write_words(files, Output::Card, name, words, buffer),
        None => Ok(()),
    }
}

/// Writes the outputs of a run.
fn write_run<F: Files>(
    console: &mut Console,
    buffer: &mut [u8],
    count: u32,
    files: &mut F,
    names: &RunNames<'_>,
) -> Result<FrameEnd, Unwritten>
    requires few { frames_in console.old + count ≤ 1000000000 }
    requires room { length buffer.old ≡ 1048576 }
    ensures written { (u : Setup) → ConsoleStands u (opening_moment u) console.old
        → Writes (names_of names.now) (run_outputs (names_of names.now) u count) result (F.held files.old) (F.held files.new) }
    ensures ended { (u : Setup) → ConsoleStands u (opening_moment u) console.old → IfOk result (λ end. end ≡ run_end u count) }
    ensures kinds { IfErr result (λ e. IsOfWriting e.error) }
    ensures causes { HasCauses result (counts F.faults F.misses F.overs files.old) (counts F.faults F.misses F.overs files.new) }
{
    write_heads(files, names)?;
    let end = write_frames(console, buffer, count, files, names)?;
    write_card(console, buffer, files, names)?;
    Ok(end)
}

impl Run {
    /// A run of this cartridge with this script of the gamepads and this memory card of 262,144 words, where one is connected,
    /// of at most `count` frames. The error is want of memory; writing the run takes none.
    pub fn open(
        alloc: Global,
        cart: Cart,
        pads: Pads,
        card: Option<Vec<u32>>,
        count: u32,
    ) -> Result<Run, Memory>
        requires card_room { ForSome card (λ c. length c.items ≡ 0x40000) }
        requires few { count ≤ 3600 }
        ensures stands { IfOk result (λ r. RunStands (setup_of cart pads (words_of card)) count r) }
    {
        let buffer = zeros(alloc, BUFFER_BYTES)?;
        let console = Console::open(alloc, cart, pads, card)?;
        Ok(Run {
            console,
            buffer,
            count,
        })
    }

    /// Does the run and writes its outputs, those of a frame at its end, and answers how the last frame ended: `Full` where no
    /// frame was to be done. The error is that of the call that was refused, with the output whose file it was on; it is
    /// `Failed` or `Memory`.
    pub fn write<F: Files>(self, files: &mut F, names: &RunNames<'_>) -> Result<FrameEnd, Unwritten>
        // Of what the run was opened with, the outputs are all done.
        ensures done { (u : Setup) (count : ℕ) → RunStands u count self
            → OnOk result (F.held files.new ≡ all_done (run_outputs (names_of names.now) u count) (F.held files.old)) }
        ensures ended { (u : Setup) (count : ℕ) → RunStands u count self → IfOk result (λ end. end ≡ run_end u count) }
        // Those before the refused output are done in full, that one in part, and none after it was begun.
        ensures cut { (u : Setup) (count : ℕ) → RunStands u count self
            → IfErr result (λ e. IsCut (names_of names.now) e.output (run_outputs (names_of names.now) u count) (F.held files.old) (F.held files.new)) }
        ensures kinds { IfErr result (λ e. IsOfWriting e.error) }
        // No count falls, and `Failed` comes only where the faults rose.
        ensures causes { HasCauses result (counts F.faults F.misses F.overs files.old) (counts F.faults F.misses F.overs files.new) }
    {
        let Run {
            mut console,
            mut buffer,
            count,
        } = self;
        write_run(&mut console, &mut buffer, count, files, names)
    }
}
