// Pads files: the date, the time, the connected pads, and when their controls go down and up.
ghost use Rattle.std.specs.Prelude.{◌≡◌, ◌≤◌, ◌++◌, ◌∷◌, [], ◌⊎◌, length, OnOk, OnErr, IfOk, IfErr, Ok};
ghost use Rattle.run_files.specs.Script.{Script};
ghost use Rattle.run_files.specs.PadsFile.{IsPadsFile};
ghost use Rattle.line_text.specs.declared.reader.LineErr.TheVariants.{Memory};
ghost use Rattle.run_files.specs.PadsAnswer.{ReadsPads};
ghost use Rattle.run_files.specs.PadsReading.{pads_of};

use crate::pad_lines::{Header, control_of, event_of, header_of, is_connected};
use line_text::{LineErr, LineReader, LinesErr, read_lines};
use std::alloc::Global;
use std::marker::Model;
use thiserror::Error;

/// Why a pads file was refused, with its first faulty line, counted from 1. The codes are 103 where the first line is
/// no header, 102 where only a control's name is wrong, 101 where only a frame is lower than that of the line before,
/// 100 for any other faulty line.
#[derive(Clone, Copy, Debug, PartialEq, Eq, Error)]
pub enum PadsErr {
    #[error("bad data {code} at line {line}")]
    At { code: u32, line: u32 },
    #[error("out of memory")]
    Memory,
}

/// A control goes down or up as a frame begins: the frame's number from 0 to 3,599, the pad from 0 to 3, and the
/// control: left, right, up, down, start, a, b, x, y, l, r, numbered from 0.
#[derive(Clone, Copy, Debug, PartialEq, Eq)]
pub struct PadEvent {
    pub frame: u32,
    pub pad: u32,
    pub control: u32,
    pub down: bool,
}

/// The script of the gamepads: the date's word, the time of day in seconds, which of the four pads are connected, and
/// the events in the order of their frames.
#[derive(Drop)]
pub struct Pads {
    date: u32,
    time: u32,
    connected: u32,
    events: Vec<PadEvent>,
}

impl Model for Pads {
    ghost use Rattle.run_files.specs.Script.{Script, IsScript};

    ghost Value = { Script };

    ghost view = { λ p. record { date = p.date; time = p.time; connected = p.connected; events = p.events.items } };

    ghost invariant = { λ p. IsScript (record { date = p.date; time = p.time; connected = p.connected; events = p.events.items }) };
}

impl Pads {
    ghost use Rattle.run_files.specs.Script.{IsScript, is_connected};

    /// The word that the timer answers as the date.
    pub fn date(&self) -> u32
        ensures { result ≡ self.now.date }
    {
        self.date
    }

    /// The time of day in seconds at which frame 0 begins, 0 to 86,399.
    pub fn time(&self) -> u32
        ensures value { result ≡ self.now.time }
        ensures range { result ≤ 86399 }
    {
        self.time
    }

    /// The connected pads: bit p is set where pad p is, 0 to 15.
    pub fn connected(&self) -> u32
        ensures value { result ≡ self.now.connected }
        ensures range { result ≤ 15 }
    {
        self.connected
    }

    /// Whether the pad is connected; none is above 3.
    pub fn is_connected(&self, pad: u32) -> bool
        ensures connected { result ≡ is_connected self.now.connected pad }
    {
        is_connected(self.connected, pad)
    }

    /// The events in the order of their frames, each of a connected pad.
    pub fn events(&self) -> &[PadEvent]
        ensures value { result.now ≡ self.now.events }
        ensures kept { IsScript self.now }
    {
        self.events.as_slice()
    }
}

impl Pads {
    ghost use Rattle.run_files.specs.PadsText.{event_of};
    ghost use Rattle.std.specs.Prelude.{◌≡◌, OnErr, Ok};
    ghost use Rattle.run_files.specs.Script.{IsEvent};
    ghost use Rattle.run_files.specs.PadsReading.{said_step, last_frame, with_event};
    ghost use Rattle.run_files.specs.inner.PadsViews.{header_view};
    ghost use Rattle.line_text.specs.Reading.{Steps};

    /// The script of that header, without events yet.
    fn of_header(alloc: Global, header: Header) -> Pads
        requires time { header.time ≤ 86399 }
        requires connected { header.connected ≤ 15 }
        ensures { result ≡ header_view header }
    {
        Pads {
            date: header.date,
            time: header.time,
            connected: header.connected,
            events: Vec::new(alloc),
        }
    }

    fn last_frame(&self) -> u32
        ensures { result ≡ last_frame 0 self.now.events }
    {
        match self.events.as_slice().last() {
            Some(event) => event.frame,
            None => 0,
        }
    }

    /// Takes a line after the first; one that it refuses changes nothing.
    fn put_line(&mut self, line: &[u8]) -> Result<(), LineErr>
        ensures made { Steps self.new result (said_step self.old (event_of self.old.connected line.now)) }
        ensures kept { OnErr result (self.new ≡ self.old) }
    {
        let Some(said) = event_of(self.connected, line) else {
            return Err(LineErr::Code(100));
        };
        let in_order = self.last_frame() <= said.frame;
        let Some(control) = control_of(said.name) else {
            return Err(LineErr::Code(if in_order { 102 } else { 100 }));
        };
        if !in_order {
            return Err(LineErr::Code(101));
        }
        let event = PadEvent {
            frame: said.frame,
            pad: said.pad,
            control,
            down: said.down,
        };
        self.put_event(event)
    }

    /// Adds an event.
    fn put_event(&mut self, event: PadEvent) -> Result<(), LineErr>
        requires event { IsEvent self.old.connected event }
        requires order { last_frame 0 self.old.events ≤ event.frame }
        ensures made { Steps self.new result (Ok (with_event self.old event)) }
        ensures kept { OnErr result (self.new ≡ self.old) }
    {
        push_event(&mut self.events, event)
    }
}

/// Adds an event to the list.
fn push_event(events: &mut Vec<PadEvent>, event: PadEvent) -> Result<(), LineErr>
    ensures pushed { OnOk result (events.new.items ≡ events.old.items ++ event ∷ []) }
    ensures kept { OnErr result (events.new.items ≡ events.old.items) }
    ensures either { (events.new.items ≡ events.old.items) ⊎ (events.new.items ≡ events.old.items ++ event ∷ []) }
    ensures memory { IfErr result (λ e. e ≡ Memory) }
{
    match events.push(event) {
        Ok(()) => Ok(()),
        Err(_) => Err(LineErr::Memory),
    }
}

/// What was read so far: nothing before the first line.
#[derive(Drop)]
struct PadsReader {
    pads: Option<Pads>,
}

impl Model for PadsReader {
    ghost use Rattle.std.specs.Prelude.{Option};
    ghost use Rattle.run_files.specs.Script.{Script};

    ghost Value = { Option Script };

    ghost view = { λ r. r.pads };
}

impl LineReader for PadsReader {
    ghost use Rattle.run_files.specs.PadsReading.{pads_step};

    ghost step = { pads_step };

    fn line(&mut self, alloc: Global, line: &[u8]) -> Result<(), LineErr> {
        match self.pads.take() {
            Some(pads) => {
                let mut pads = pads;
                let taken = pads.put_line(line);
                self.pads = Some(pads);
                taken
            }
            None => {
                let Some(header) = header_of(line) else {
                    return Err(LineErr::Code(103));
                };
                self.pads = Some(Pads::of_header(alloc, header));
                Ok(())
            }
        }
    }
}

/// The script of the lines, or the first faulty one.
#[tactic(auto, unfolding(crate::specs::PadsReading::pads_of))]
fn script_of(alloc: Global, bytes: &[u8]) -> Result<Pads, PadsErr>
    requires size { length bytes.now ≤ 268435456 }
    ensures exact { ReadsPads result (pads_of bytes.now) }
{
    let mut reader = PadsReader { pads: None };
    match read_lines(alloc, &mut reader, bytes) {
        Ok(()) => {
            let PadsReader { pads } = reader;
            match pads {
                Some(pads) => Ok(pads),
                None => Err(PadsErr::At { code: 103, line: 1 }),
            }
        }
        Err(LinesErr::At { code, line }) => Err(PadsErr::At { code, line }),
        Err(LinesErr::Memory) => Err(PadsErr::Memory),
    }
}

/// The script of a pads file of at most 268,435,456 bytes: the line `pads DATE TIME MASK`, then the events' lines. The
/// error is the first faulty line, line 1 for an empty file, or want of memory.
#[tactic(auto, using(crate::proofs::PadsWhole::is_found))]
pub fn read_pads(alloc: Global, bytes: &[u8]) -> Result<Pads, PadsErr>
    requires size { length bytes.now ≤ 268435456 }
    // What is read is what the lines tell.
    ensures found { IfOk result (λ s. IsPadsFile bytes.now s) }
    // What the lines tell is read, unless memory runs out.
    ensures only { (s : Script) → IsPadsFile bytes.now s → ReadsPads result (Ok s) }
    // The script, or the first faulty line.
    ensures exact { ReadsPads result (pads_of bytes.now) }
{
    script_of(alloc, bytes)
}
