// A run with notes.
use std::alloc::Global;
use std::marker::Model;
use v32_console::Console;

/// A console that was opened, and the most frames that it is to do.
#[derive(Drop)]
pub struct NotedRun {
    alloc: Global,
    console: Console,
    count: u32,
}

impl Model for NotedRun {
    ghost use Rattle.run_core.specs.Stands.{RunParts};
    ghost use Rattle.noted_run.specs.inner.First.{IsFirst};

    ghost Value = { RunParts };

    ghost view = { λ r. record { console = r.console; count = r.count } };

    ghost invariant = { λ r. IsFirst r.console r.count };
}

ghost use Rattle.std.specs.Prelude.{◌≡◌, ◌≤◌, ◌*◌, ℕ, length, IfOk};
ghost use Rattle.std.specs.Option.{ForSome};
ghost use Rattle.cpu_core.specs.Space.{words_of};
ghost use Rattle.v32_console.specs.Setup.{Setup, setup_of};
ghost use Rattle.v32_console.specs.Moments.{opening_moment};
ghost use Rattle.v32_console.specs.Runs.{run_operations};
ghost use Rattle.run_core.specs.Outputs.{run_end};
ghost use Rattle.run_core.specs.Stands.{RunStands};
ghost use Rattle.noted_run.specs.Notes.{AreNotes};

use crate::frames::note_frames;
use cart_format::Cart;
use kit_base::Memory;
use run_files::Pads;
use v32_console::{FrameEnd, Notes};

/// What was noted of a run, and how its last frame ended.
#[derive(Drop)]
pub struct Noted {
    pub notes: Notes,
    pub end: FrameEnd,
}

impl NotedRun {
    /// A run of this cartridge of at most `count` frames, with this script of the gamepads and this memory card of 262,144 words, where one is
    /// connected. The error is want of memory.
    pub fn open(
        alloc: Global,
        cart: Cart,
        pads: Pads,
        card: Option<Vec<u32>>,
        count: u32,
    ) -> Result<NotedRun, Memory>
        requires card_room { ForSome card (λ c. length c.items ≡ 0x40000) }
        requires few { count ≤ 600 }
        ensures stands { IfOk result (λ r. RunStands (setup_of cart pads (words_of card)) count r) }
    {
        let console = Console::open(alloc, cart, pads, card)?;
        Ok(NotedRun {
            alloc,
            console,
            count,
        })
    }

    /// Does the run. It ended as `Full` where no frame was to be done. The error is want of memory.
    pub fn finish(self) -> Result<Noted, Memory>
        // Of what the run was opened with, the notes are those of its operations.
        ensures noted { (u : Setup) (count : ℕ) → RunStands u count self → IfOk result (λ n. AreNotes (run_operations count u (opening_moment u)) n.notes) }
        ensures ended { (u : Setup) (count : ℕ) → RunStands u count self → IfOk result (λ n. n.end ≡ run_end u count) }
        ensures within { IfOk result (λ n. n.notes.instructions ≤ 250000 * self.count) }
    {
        let NotedRun {
            alloc,
            mut console,
            count,
        } = self;
        let mut notes = Notes::new(alloc);
        let end = note_frames(&mut console, &mut notes, count)?;
        Ok(Noted { notes, end })
    }
}
