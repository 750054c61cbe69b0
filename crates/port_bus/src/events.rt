// The events of a script, applied as their frames begin.
ghost use Rattle.std.specs.Prelude.{◌≡◌, ◌+◌, ◌<◌, ◌≤◌, ◌^◌, IfSome, slice_get};
ghost use Rattle.run_files.specs.Script.{IsScript};
ghost use Rattle.port_bus.specs.inner.Kept.{PartsAt, AreDowns};

use crate::controls::place;
use run_files::{PadEvent, Pads};

fn element(events: &[PadEvent], at: usize) -> Option<PadEvent>
    ensures element { result ≡ slice_get events.now at }
    ensures within { IfSome result (λ e. at < 2 ^ 63) }
{
    events.get(at).copied()
}

/// The event at an index; none past the last.
fn event_at(pads: &Pads, at: usize) -> Option<PadEvent>
    ensures event { result ≡ slice_get pads.now.events at }
    ensures pad { IfSome result (λ e. e.pad ≤ 3) }
    ensures control { IfSome result (λ e. e.control ≤ 10) }
    ensures within { IfSome result (λ e. at < 2 ^ 63) }
    ensures kept { IsScript pads.now }
{
    element(pads.events(), at)
}

/// Applies the events of a frame, from an index on, and gives the index after them.
pub(crate) fn apply_events(pads: &Pads, next: usize, frame: u32, downs: &mut [bool; 44]) -> usize
    requires parts { PartsAt pads.now.events frame next }
    requires downs { AreDowns pads.now.events next downs.old }
    ensures parts { PartsAt pads.now.events (frame + 1) result }
    ensures downs { AreDowns pads.now.events result downs.new }
{
    let mut at = next;
    'each: while let Some(event) = event_at(pads, at) {
        if event.frame != frame {
            break;
        }
        downs[place(event.pad, event.control)] = event.down;
        at += 1;
    }
    at
}
