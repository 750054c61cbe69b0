//! A C source run by the definitions: by its meaning, or by its mid code as it is lowered, promoted, or settled; and that code as a text.
//!
//! `tool_source SOURCE ANSWERS none|zeros BOUND meaning|lowered|promoted|settled SIZE ..` reads a source that includes no files but the headers and a
//! file of port answers; it prints each port operation, the end and the work, and of mid code what the run keeps and how large the code is.
//! `tool_source SOURCE text lowered|promoted|settled` prints the mid code. It promises nothing beyond safety; what the runs give is promised by
//! `c_evaluate` and `mid_evaluate`, and what the text says by `mid_text`.
#![tactic(auto)]

mod counting;
mod meaning;
mod mid;
mod put;
mod reading;
mod work;

use crate::meaning::put_meaning;
use crate::mid::{put_mid, put_text};
use crate::reading::{answers_of, card_of, frames_of, program_of};
use crate::work::{How, Stage, Work, text_of, work_of};
use c_check::Program;
use obj_mem::Frames;
use std::alloc::Global;
use std::{env, fs, io};

/// What a run needs beside the program.
#[derive(Drop)]
struct Needs {
    answers: Vec<u32>,
    frames: Frames,
    card: Vec<u32>,
}

/// What the run needs beside the program; none where the answers are none, or memory ran out.
fn needs_of(alloc: Global, work: &Work<'_>, answers: &[u8]) -> Option<Needs> {
    Some(Needs {
        answers: answers_of(alloc, answers)?,
        frames: frames_of(alloc, work)?,
        card: card_of(alloc, work)?,
    })
}

fn run(rt: &HostRuntime, work: &Work<'_>, needs: &Needs, program: &Program) -> io::Result<()> {
    let (frames, answers) = (&needs.frames, needs.answers.as_slice());
    let card: Option<&[u32]> = if work.card { Some(&needs.card) } else { None };
    match work.how {
        How::Meaning => put_meaning(rt, program, frames, answers, card, work.bound),
        How::Code(stage) => put_mid(rt, program, stage, frames, answers, card, work.bound),
    }
}

/// Runs a source as is asked for.
fn run_file(rt: &HostRuntime, work: &Work<'_>) -> io::Result<()> {
    let source = fs::read(rt, work.source)?;
    let answers = fs::read(rt, work.answers)?;
    let Some(needs) = needs_of(rt.alloc(), work, &answers) else {
        return println!(rt; "no program");
    };
    match program_of(rt.alloc(), source) {
        Some(program) => run(rt, work, &needs, &program),
        None => println!(rt; "no program"),
    }
}

/// Puts the mid code of a source at a stage.
fn show_file(rt: &HostRuntime, source: &str, stage: Stage) -> io::Result<()> {
    let source = fs::read(rt, source)?;
    match program_of(rt.alloc(), source) {
        Some(program) => put_text(rt, &program, stage),
        None => println!(rt; "no program"),
    }
}

fn main(rt: HostRuntime) -> io::Result<()> {
    let mut words = Vec::new(rt.alloc());
    for word in env::args(&rt)?.skip(1) {
        words.push(word)?;
    }
    if let Some((source, stage)) = text_of(&words) {
        return show_file(&rt, source, stage);
    }
    match work_of(rt.alloc(), &words) {
        Some(work) => run_file(&rt, &work),
        None => println!(rt;
            "usage: tool_source SOURCE ANSWERS none|zeros BOUND meaning|lowered|promoted|settled SIZE .., or tool_source SOURCE text lowered|promoted|settled"
        ),
    }
}
