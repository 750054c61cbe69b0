// The frames of a run, each written at its end.
ghost use Rattle.std.specs.Prelude.{◌≡◌, ◌≤◌, ◌<◌, ◌+◌, ℕ, List, length, IfOk, IfErr};
ghost use Rattle.std.specs.List.{flat_map};
ghost use Rattle.kit_base.specs.Counts.{counts};
ghost use Rattle.kit_base.specs.Outside.{IsOfWriting};
ghost use Rattle.v32_console.specs.Setup.{Setup};
ghost use Rattle.v32_console.specs.Moments.{Moment, Left, goes_on, opening_moment};
ghost use Rattle.v32_console.specs.Frames.{frame_of, frames_of};
ghost use Rattle.v32_console.specs.Stands.{ConsoleStands, IsAtRest, frames_in};
ghost use Rattle.run_core.specs.Outputs.{end_of, frame_outputs, last_moment};
ghost use Rattle.run_core.specs.Writing.{HasCauses, IsThere, Writes, names_of};

use crate::output::{Output, RunNames, Unwritten};
use crate::writing::append_words;
use kit_base::Files;
use v32_console::{Console, FrameEnd};

/// Whether a further frame follows.
fn goes_on(end: FrameEnd) -> bool
    ensures { result ≡ goes_on end }
{
    match end {
        FrameEnd::Full | FrameEnd::Waited => true,
        FrameEnd::Halted | FrameEnd::Fault { .. } | FrameEnd::Undecodable(_) => false,
    }
}

/// Does a frame and adds its screen and its samples.
fn write_frame<F: Files>(
    console: &mut Console,
    buffer: &mut [u8],
    files: &mut F,
    names: &RunNames<'_>,
) -> Result<FrameEnd, Unwritten>
    requires few { frames_in console.old < 1000000000 }
    requires room { length buffer.old ≡ 1048576 }
    requires frames { IsThere names.now.frames.now (F.held files.old) }
    requires samples { IsThere names.now.samples.now (F.held files.old) }
    ensures written { (u : Setup) (m : Moment) → ConsoleStands u m console.old → IsAtRest m.phase
        → Writes (names_of names.now) (frame_outputs (names_of names.now) u (frame_of u m)) result (F.held files.old) (F.held files.new) }
    ensures stands { (u : Setup) (m : Moment) → ConsoleStands u m console.old → IsAtRest m.phase → ConsoleStands u (frame_of u m) console.new }
    ensures ended { (u : Setup) (m : Moment) → ConsoleStands u m console.old → IsAtRest m.phase → IfOk result (λ end. (frame_of u m).phase ≡ Left end) }
    ensures there { (name : List ℕ) → IsThere name (F.held files.old) → IfOk result (λ _. IsThere name (F.held files.new)) }
    ensures frames { frames_in console.new ≡ frames_in console.old + 1 }
    ensures kinds { IfErr result (λ e. IsOfWriting e.error) }
    ensures causes { HasCauses result (counts F.faults F.misses F.overs files.old) (counts F.faults F.misses F.overs files.new) }
{
    let end = console.frame();
    append_words(
        files,
        Output::Frames,
        names.frames,
        console.screen(),
        buffer,
    )?;
    append_words(
        files,
        Output::Samples,
        names.samples,
        console.samples(),
        buffer,
    )?;
    Ok(end)
}

/// Does at most `count` frames, up to a halt, a fault or an undecodable word, and adds the screen and the samples of each.
pub fn write_frames<F: Files>(
    console: &mut Console,
    buffer: &mut [u8],
    count: u32,
    files: &mut F,
    names: &RunNames<'_>,
) -> Result<FrameEnd, Unwritten>
    requires few { frames_in console.old + count ≤ 1000000000 }
    requires room { length buffer.old ≡ 1048576 }
    requires frames { IsThere names.now.frames.now (F.held files.old) }
    requires samples { IsThere names.now.samples.now (F.held files.old) }
    ensures written { (u : Setup) → ConsoleStands u (opening_moment u) console.old
        → Writes (names_of names.now) (flat_map (frame_outputs (names_of names.now) u) (frames_of count u (opening_moment u))) result
        (F.held files.old) (F.held files.new) }
    ensures stands { (u : Setup) → ConsoleStands u (opening_moment u) console.old → IfOk result (λ _. ConsoleStands u (last_moment u count) console.new) }
    ensures ended { (u : Setup) → ConsoleStands u (opening_moment u) console.old → IfOk result (λ end. end_of (last_moment u count).phase ≡ end) }
    ensures kinds { IfErr result (λ e. IsOfWriting e.error) }
    ensures causes { HasCauses result (counts F.faults F.misses F.overs files.old) (counts F.faults F.misses F.overs files.new) }
{
    let mut end = FrameEnd::Full;
    let mut left = count;
    'frames: while left > 0 {
        left -= 1;
        end = write_frame(console, buffer, files, names)?;
        if !goes_on(end) {
            return Ok(end);
        }
    }
    Ok(end)
}
