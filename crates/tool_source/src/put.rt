// What is put of a run of mid code.
use crate::counting::Size;
use kit_base::Event;
use mid_evaluate::{Ending, MidRun};
use obj_mem::Cell;
use std::io;

/// Puts a port operation.
pub fn put_event(rt: &HostRuntime, event: Event) -> io::Result<()> {
    match event {
        Event::In(port, word) => println!(rt; "in {port} {word}"),
        Event::Out(port, word) => println!(rt; "out {port} {word}"),
        Event::Wait => println!(rt; "wait"),
    }
}

fn put_end(rt: &HostRuntime, end: Ending) -> io::Result<()> {
    match end {
        Ending::Halted => println!(rt; "halted"),
        Ending::Fault(number) => println!(rt; "fault {number}"),
        Ending::Starved => println!(rt; "starved"),
        Ending::Stray => println!(rt; "stray"),
        Ending::Deep => println!(rt; "deep"),
        Ending::OutOfBound => println!(rt; "out of bound"),
    }
}

/// Puts the words that a global keeps.
fn put_kept(rt: &HostRuntime, global: usize, cells: &[Cell]) -> io::Result<()> {
    for (at, cell) in cells.iter().enumerate() {
        if let Cell::Num(word) = cell {
            println!(rt; "kept {global} {at} {word}")?;
        }
    }
    Ok(())
}

/// Puts the port operations of a run, its end, the words that it keeps in globals, its work, and how large its code is.
pub fn put(rt: &HostRuntime, run: &MidRun, size: Size) -> io::Result<()> {
    for event in run.events.as_slice() {
        put_event(rt, *event)?;
    }
    put_end(rt, run.end)?;
    for (global, cells) in run.globals.as_slice().iter().enumerate() {
        put_kept(rt, global, cells.as_slice())?;
    }
    println!(rt;
        "work {} weight {} depth {}",
        run.work, size.weight, size.depth
    )
}
