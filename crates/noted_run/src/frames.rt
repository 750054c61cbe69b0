// The frames of a run, each noted.
ghost use Rattle.std.specs.Prelude.{◌≡◌, ◌≤◌, ◌+◌, ◌*◌, IfOk};
ghost use Rattle.v32_console.specs.Setup.{Setup};
ghost use Rattle.v32_console.specs.Machine.{none};
ghost use Rattle.v32_console.specs.Moments.{goes_on, opening_moment};
ghost use Rattle.v32_console.specs.Runs.{run_operations};
ghost use Rattle.v32_console.specs.Stands.{ConsoleStands, frames_in};
ghost use Rattle.run_core.specs.Outputs.{run_end};
ghost use Rattle.noted_run.specs.Notes.{AreNotes};

use kit_base::Memory;
use v32_console::{Console, FrameEnd, Notes};

/// Whether a further frame follows.
fn goes_on(end: FrameEnd) -> bool
    ensures { result ≡ goes_on end }
{
    match end {
        FrameEnd::Full | FrameEnd::Waited => true,
        FrameEnd::Halted | FrameEnd::Fault { .. } | FrameEnd::Undecodable(_) => false,
    }
}

/// Does at most `count` frames, up to a halt, a fault or an undecodable word, notes each, and answers how the last one ended. The error is want of
/// memory.
pub fn note_frames(console: &mut Console, notes: &mut Notes, count: u32) -> Result<FrameEnd, Memory>
    requires few { frames_in console.old + count ≤ 1000000000 }
    requires instructions { 250000 * count ≤ 1000000000 }
    requires empty { AreNotes none notes.old }
    ensures noted { (u : Setup) → ConsoleStands u (opening_moment u) console.old
        → IfOk result (λ _. AreNotes (run_operations count u (opening_moment u)) notes.new) }
    ensures ended { (u : Setup) → ConsoleStands u (opening_moment u) console.old → IfOk result (λ end. end ≡ run_end u count) }
    ensures within { IfOk result (λ _. notes.new.instructions ≤ 250000 * count) }
{
    let mut end = FrameEnd::Full;
    let mut left = count;
    'frames: while left > 0 {
        left -= 1;
        notes.room()?;
        end = console.frame_noting(notes);
        if !goes_on(end) {
            return Ok(end);
        }
    }
    Ok(end)
}
