// The run of a source by its meaning.
use crate::put::put_event;
use c_check::Program;
use c_evaluate::{Advanced, Runner};
use c_meaning::End;
use obj_mem::Frames;
use std::io;

/// Puts an end, with the first and the last token where it has a place.
fn put_end(rt: &HostRuntime, end: End) -> io::Result<()> {
    match end {
        End::Halted => println!(rt; "halted"),
        End::Fault(number) => println!(rt; "fault {number}"),
        End::Starved => println!(rt; "starved"),
        End::Stray(span) => println!(rt; "stray {} {}", span.first, span.last),
        End::Deep(span) => println!(rt; "deep {} {}", span.first, span.last),
        End::OutOfBound => println!(rt; "out of bound"),
    }
}

/// Puts each port operation of a run when it is made, the end, and the work that the run took.
fn put_run(rt: &HostRuntime, mut runner: Runner<'_>) -> io::Result<()> {
    'events: loop {
        match runner.advance() {
            Ok(Advanced::Made(event)) => put_event(rt, event)?,
            Ok(Advanced::Ended(end)) => {
                put_end(rt, end)?;
                return println!(rt; "work {}", runner.work());
            }
            Err(_) => return println!(rt; "no memory"),
        }
    }
}

/// Runs a program by its meaning, and puts what it does.
pub fn put_meaning(
    rt: &HostRuntime,
    program: &Program,
    frames: &Frames,
    answers: &[u32],
    card: Option<&[u32]>,
    bound: u32,
) -> io::Result<()> {
    match Runner::new(rt.alloc(), program, frames, answers, card, bound) {
        Ok(runner) => put_run(rt, runner),
        Err(_) => println!(rt; "no memory"),
    }
}
