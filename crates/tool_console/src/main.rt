//! Work of the processor and the devices, for the comparison of speeds in `bench/run`.
//!
//! `tool_console STEPS WORD..` runs the processor on the program of these words for so many steps, and puts how the run ended and
//! where. `tool_console clears N`, `tool_console draws N` and `tool_console mixes N` clear the screen, draw over all of it, or mix a frame of
//! sixteen looping channels so many times, and put a checksum of the pixels or the samples. Numbers are decimal, words
//! hexadecimal. It promises nothing beyond safety; what the processor and the devices do is promised by their crates.
#![tactic(auto)]

mod devices;
mod graphics;
mod ports;
mod processor;
mod sound;

use crate::devices::{checksum_after, work_of};
use crate::processor::{name_of, run, run_of};
use cpu_core::{AnswerBus, Cpu};
use std::{env, io};

fn main(rt: HostRuntime) -> io::Result<()> {
    let mut words = Vec::new(rt.alloc());
    for word in env::args(&rt)?.skip(1) {
        words.push(word)?;
    }
    if let Some(work) = work_of(&words) {
        let Some(sum) = checksum_after(rt.alloc(), work) else {
            return println!(rt; "out of memory");
        };
        return println!(rt; "{sum:08X}");
    }
    let Some((steps, program)) = run_of(rt.alloc(), &words) else {
        return println!(rt;
            "usage: tool_console STEPS WORD.., or tool_console clears, draws or mixes N"
        );
    };
    let Ok(mut cpu) = Cpu::open(rt.alloc(), program, None) else {
        return println!(rt; "out of memory");
    };
    let mut bus = AnswerBus::new(Vec::new(rt.alloc()));
    let end = name_of(run(&mut cpu, &mut bus, steps));
    let address = cpu.address();
    println!(rt; "{end} at {address:08X}")
}
