// A run, put line by line.
ghost use Rattle.std.specs.Prelude.{ℕ, suc, ◌≡◌, None};
ghost use Rattle.kit_base.specs.Outside.{HasSinkCause};
ghost use Rattle.cpu_core.specs.Machine.{state_of};
ghost use Rattle.v32_isa.specs.Runs.{run};
ghost use Rattle.trace_core.specs.Texts.{run_text};
ghost use Rattle.trace_core.specs.Putting.{PutsText, trace_text};
ghost use Rattle.trace_core.specs.inner.Steps.{StepPuts, event_of, step_text};

use crate::line::Line;
use crate::text::{event_line, going_line, last_line};
use cpu_core::{AnswerBus, Cpu};
use kit_base::{Event, Sink, SinkErr};
use v32_isa::Stepped;

/// A run to come: the processor, the answers that its ports will give, and how many steps it does
/// at most.
#[derive(Drop)]
pub struct Trace {
    pub cpu: Cpu,
    pub answers: Vec<u32>,
    pub steps: u32,
}

fn put_line<S: Sink>(out: &mut S, line: &Line) -> Result<(), SinkErr>
    ensures puts { PutsText line.now result (S.written out.old) (S.written out.new) }
    ensures faults { HasSinkCause (S.faults out.old) (S.faults out.new) result }
{
    out.put(line.bytes())
}

/// The port operation of a step that left that event with the bus.
fn event_of(how: Stepped, made: Option<Event>) -> Option<Event>
    ensures { result ≡ event_of how made }
{
    match how {
        Stepped::Went => made,
        Stepped::Waited => Some(Event::Wait),
        _ => None,
    }
}

fn put_event<S: Sink>(out: &mut S, event: Option<Event>) -> Result<(), SinkErr>
    ensures puts { PutsText (step_text event) result (S.written out.old) (S.written out.new) }
    ensures faults { HasSinkCause (S.faults out.old) (S.faults out.new) result }
{
    match event {
        None => Ok(()),
        Some(event) => put_line(out, &event_line(event)),
    }
}

/// Does a step and puts the line of its port operation.
fn put_step<S: Sink>(cpu: &mut Cpu, bus: &mut AnswerBus, out: &mut S) -> Result<Stepped, SinkErr>
    requires { bus.old.made ≡ None }
    ensures puts { (n : ℕ) → StepPuts (run_text (run (suc n) (state_of cpu.old) bus.old.left)) result n (state_of cpu.new) bus.new.left
        (S.written out.old) (S.written out.new) }
    ensures taken { bus.new.made ≡ None }
    ensures faults { HasSinkCause (S.faults out.old) (S.faults out.new) result }
{
    let how = cpu.step(bus);
    let event = event_of(how, bus.last());
    match put_event(out, event) {
        Ok(()) => Ok(how),
        Err(error) => Err(error),
    }
}

fn put_run<S: Sink>(
    cpu: &mut Cpu,
    bus: &mut AnswerBus,
    steps: u32,
    out: &mut S,
) -> Result<(), SinkErr>
    requires { bus.old.made ≡ None }
    ensures puts { PutsText (run_text (run steps (state_of cpu.old) bus.old.left)) result (S.written out.old) (S.written out.new) }
    ensures faults { HasSinkCause (S.faults out.old) (S.faults out.new) result }
{
    let mut left = steps;
    'steps: while left > 0 {
        left -= 1;
        let how = put_step(cpu, bus, out)?;
        match last_line(how, cpu.address()) {
            Some(line) => return put_line(out, &line),
            None => {}
        }
    }
    put_line(out, &going_line())
}

impl Trace {
    /// Does the run and puts its text, each line as it comes. The error is the sink's; a front of
    /// the text was put then.
    pub fn put<S: Sink>(self, out: &mut S) -> Result<(), SinkErr>
        ensures puts { PutsText (trace_text self) result (S.written out.old) (S.written out.new) }
        ensures faults { HasSinkCause (S.faults out.old) (S.faults out.new) result }
    {
        let Trace {
            mut cpu,
            answers,
            steps,
        } = self;
        let mut bus = AnswerBus::new(answers);
        put_run(&mut cpu, &mut bus, steps, out)
    }
}
