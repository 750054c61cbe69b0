// A run without files.
use std::marker::Model;
use v32_console::Console;

/// A console that was opened, and the most frames that it is to do.
#[derive(Drop)]
pub struct PlainRun {
    console: Console,
    count: u32,
}

impl Model for PlainRun {
    ghost use Rattle.run_core.specs.Stands.{RunParts};
    ghost use Rattle.kit_core.specs.inner.Fresh.{IsFresh};

    ghost Value = { RunParts };

    ghost view = { λ r. record { console = r.console; count = r.count } };

    ghost invariant = { λ r. IsFresh r.console r.count };
}

ghost use Rattle.std.specs.Prelude.{◌≡◌, ◌≤◌, ◌+◌, ℕ, IfOk};
ghost use Rattle.v32_console.specs.Setup.{Setup};
ghost use Rattle.v32_console.specs.Moments.{goes_on, opening_moment};
ghost use Rattle.v32_console.specs.Stands.{ConsoleStands, frames_in};
ghost use Rattle.run_core.specs.Outputs.{end_of, last_moment, run_end};
ghost use Rattle.run_core.specs.Stands.{RunStands};
ghost use Rattle.kit_core.specs.Plain.{color_after, plain_setup};

use crate::plain::pads::plain_pads;
use cart_format::Cart;
use kit_base::Memory;
use std::alloc::Global;
use v32_console::FrameEnd;

/// How the last frame of a run ended, and the clear colour then: red in the lowest byte, then green, blue and alpha.
#[derive(Clone, Copy, Debug, PartialEq, Eq)]
pub struct Finish {
    pub end: FrameEnd,
    pub color: u32,
}

/// Whether a further frame follows.
fn goes_on(end: FrameEnd) -> bool
    ensures { result ≡ goes_on end }
{
    match end {
        FrameEnd::Full | FrameEnd::Waited => true,
        FrameEnd::Halted | FrameEnd::Fault { .. } | FrameEnd::Undecodable(_) => false,
    }
}

/// Does at most `count` frames, up to a halt, a fault or an undecodable word, and answers how the last one ended.
fn run_frames(console: &mut Console, count: u32) -> FrameEnd
    requires few { frames_in console.old + count ≤ 1000000000 }
    ensures stands { (u : Setup) → ConsoleStands u (opening_moment u) console.old → ConsoleStands u (last_moment u count) console.new }
    ensures ended { (u : Setup) → ConsoleStands u (opening_moment u) console.old → end_of (last_moment u count).phase ≡ result }
{
    let mut end = FrameEnd::Full;
    let mut left = count;
    'frames: while left > 0 {
        left -= 1;
        end = console.frame();
        if !goes_on(end) {
            return end;
        }
    }
    end
}

impl PlainRun {
    /// A run of this cartridge of at most `count` frames, with the script of the pads file `pads 0 0 0` and no memory card. The
    /// error is want of memory; doing the run takes none.
    pub fn open(alloc: Global, cart: Cart, count: u32) -> Result<PlainRun, Memory>
        requires few { count ≤ 3600 }
        ensures stands { IfOk result (λ r. RunStands (plain_setup cart) count r) }
    {
        let pads = plain_pads(alloc)?;
        let console = Console::open(alloc, cart, pads, None)?;
        Ok(PlainRun { console, count })
    }

    /// Does the run. It ended as `Full` where no frame was to be done.
    pub fn finish(self) -> Finish
        ensures ended { (u : Setup) (count : ℕ) → RunStands u count self → result.end ≡ run_end u count }
        ensures color { (u : Setup) (count : ℕ) → RunStands u count self → result.color ≡ color_after u count }
    {
        let PlainRun { mut console, count } = self;
        let end = run_frames(&mut console, count);
        let color = console.clear_color();
        Finish { end, color }
    }
}
