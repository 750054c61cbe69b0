// The controls of the four gamepads, frame by frame.
ghost use Rattle.std.specs.Prelude.{◌≡◌, ℕ, ◌≤◌, ◌<◌, Bool, false, List, ◌∷◌, length, slice_index, slice_index_or};
ghost use Rattle.port_bus.specs.Controls.{down_now, count_now, signed_count};
ghost use Rattle.port_bus.specs.inner.Kept.{place};

/// The controls of a gamepad: left, right, up, down, start, a, b, x, y, l, r.
pub(crate) const CONTROLS: u32 = 11;

/// The controls of four gamepads.
pub(crate) const PLACES: usize = 44;

/// The frames up to which a control's frames are counted.
pub(crate) const MOST_FRAMES: u32 = 3_600;

/// Where a control of a gamepad stands among the 44.
pub(crate) fn place(pad: u32, control: u32) -> usize
    requires pad { pad ≤ 3 }
    requires control { control ≤ 10 }
    ensures place { result ≡ place pad control }
    ensures within { result < 44 }
{
    (CONTROLS * pad + control) as usize
}

/// The word of a count: itself where the control is down, else its negative.
pub(crate) fn signed_count(down: bool, count: u32) -> u32
    requires some { 1 ≤ count }
    ensures word { result ≡ signed_count down count }
{
    if down { count } else { count.wrapping_neg() }
}

/// The count of a control a frame later, up to 3,600.
fn next_count(was: bool, now: bool, count: u32) -> u32
    ensures count { (before : List Bool) → was ≡ down_now before → count ≡ count_now before → result ≡ count_now (now ∷ before) }
{
    if now != was {
        1
    } else if count < MOST_FRAMES {
        count + 1
    } else {
        MOST_FRAMES
    }
}

/// Counts the frame of every control.
pub(crate) fn count_frame(before: &[bool; 44], now: &[bool; 44], counts: &mut [u32; 44])
    ensures size { length counts.new ≡ 44 }
    ensures counts { (k : ℕ) (past : List Bool) → k < 44 → slice_index_or before.now k false ≡ down_now past
        → slice_index counts.old k ≡ count_now past → slice_index counts.new k ≡ count_now (slice_index_or now.now k false ∷ past) }
{
    for k in 0..PLACES {
        counts[k] = next_count(before[k], now[k], counts[k]);
    }
}
