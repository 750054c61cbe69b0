// The lines of a pads file.
ghost use Rattle.std.specs.Prelude.{◌≡◌, ◌≤◌, option_map, IfSome, true};
ghost use Rattle.std.specs.Str.{bytes_eq};
ghost use Rattle.run_files.specs.Script.{is_connected};
ghost use Rattle.run_files.specs.PadsText.{header_of, action_of, event_of, is_one_field};
ghost use Rattle.run_files.specs.PadsReading.{control_of};
ghost use Rattle.run_files.specs.inner.PadsViews.{event_view, header_view};

use line_text::{decimal_word, field_at};

/// What the first line says.
#[derive(Clone, Copy)]
pub(crate) struct Header {
    pub(crate) date: u32,
    pub(crate) time: u32,
    pub(crate) connected: u32,
}

/// What another line says; the name may be of no control.
#[derive(Clone, Copy)]
pub(crate) struct EventLine<'a> {
    pub(crate) frame: u32,
    pub(crate) pad: u32,
    pub(crate) down: bool,
    pub(crate) name: &'a [u8],
}

fn eq(text: &[u8], word: &[u8]) -> bool
    ensures { result ≡ bytes_eq text.now word.now }
{
    text == word
}

fn is_one_field(text: &[u8]) -> bool
    ensures { result ≡ is_one_field text.now }
{
    text.iter().all(|b| *b != b' ')
}

/// Whether the pad's bit is set.
#[tactic(auto, unfolding(crate::specs::Script::is_connected))]
pub(crate) fn is_connected(connected: u32, pad: u32) -> bool
    ensures { result ≡ is_connected connected pad }
{
    pad < 4 && (connected >> pad) % 2 == 1
}

/// `pads DATE TIME MASK`
#[tactic(auto, unfolding(crate::specs::PadsText::header_of))]
pub(crate) fn header_of(line: &[u8]) -> Option<Header>
    ensures header { option_map header_view result ≡ header_of line.now }
    ensures time { IfSome result (λ h. h.time ≤ 86399) }
    ensures connected { IfSome result (λ h. h.connected ≤ 15) }
{
    let (word, rest) = field_at(line)?;
    let (date, rest) = field_at(rest)?;
    let (time, mask) = field_at(rest)?;
    let date = decimal_word(date)?;
    let time = decimal_word(time)?;
    let connected = decimal_word(mask)?;
    if !eq(word, b"pads") || time > 86_399 || connected > 15 {
        return None;
    }
    Some(Header {
        date,
        time,
        connected,
    })
}

#[tactic(auto, unfolding(crate::specs::PadsText::action_of))]
fn action_of(word: &[u8]) -> Option<bool>
    ensures { result ≡ action_of word.now }
{
    if eq(word, b"press") {
        Some(true)
    } else if eq(word, b"release") {
        Some(false)
    } else {
        None
    }
}

/// `FRAME PAD press CONTROL` or `FRAME PAD release CONTROL`, whatever the control's name.
#[tactic(auto, unfolding(crate::specs::PadsText::event_of))]
pub(crate) fn event_of(connected: u32, line: &[u8]) -> Option<EventLine<'_>>
    ensures event { option_map event_view result ≡ event_of connected line.now }
    ensures frame { IfSome result (λ e. e.frame ≤ 3599) }
    ensures pad { IfSome result (λ e. is_connected connected e.pad ≡ true) }
{
    let (frame, rest) = field_at(line)?;
    let (pad, rest) = field_at(rest)?;
    let (action, name) = field_at(rest)?;
    let frame = decimal_word(frame)?;
    let pad = decimal_word(pad)?;
    let down = action_of(action)?;
    if frame > 3_599 || !is_connected(connected, pad) || !is_one_field(name) {
        return None;
    }
    Some(EventLine {
        frame,
        pad,
        down,
        name,
    })
}

/// The number of the control of that name.
#[tactic(auto, unfolding(crate::specs::PadsReading::control_of))]
pub(crate) fn control_of(name: &[u8]) -> Option<u32>
    ensures control { result ≡ control_of name.now }
    ensures range { IfSome result (λ k. k ≤ 10) }
{
    if eq(name, b"left") {
        Some(0)
    } else if eq(name, b"right") {
        Some(1)
    } else if eq(name, b"up") {
        Some(2)
    } else if eq(name, b"down") {
        Some(3)
    } else if eq(name, b"start") {
        Some(4)
    } else if eq(name, b"a") {
        Some(5)
    } else if eq(name, b"b") {
        Some(6)
    } else if eq(name, b"x") {
        Some(7)
    } else if eq(name, b"y") {
        Some(8)
    } else if eq(name, b"l") {
        Some(9)
    } else if eq(name, b"r") {
        Some(10)
    } else {
        None
    }
}
