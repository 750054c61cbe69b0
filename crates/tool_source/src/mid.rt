// The mid code of a source, and its run.
use crate::counting::size_of;
use crate::put::put;
use crate::work::Stage;
use c_check::Program;
use kit_base::Memory;
use mid_code::Mid;
use mid_evaluate::evaluate_mid;
use mid_improve::{is_settled, settle};
use mid_lower::lower;
use mid_replace::replace;
use mid_scalars::promote;
use mid_text::write_mid;
use obj_mem::Frames;
use std::alloc::Global;
use std::io;

fn code_of(alloc: Global, program: &Program, stage: Stage) -> Result<Mid, Memory> {
    let code = lower(alloc, program)?;
    match stage {
        Stage::Lowered => Ok(code),
        Stage::Promoted => promote(alloc, code),
        Stage::Settled => settle(alloc, replace(alloc, code)?),
    }
}

/// Puts the mid code of a program at a stage.
pub fn put_text(rt: &HostRuntime, program: &Program, stage: Stage) -> io::Result<()> {
    let Ok(code) = code_of(rt.alloc(), program, stage) else {
        return println!(rt; "no memory");
    };
    match write_mid(rt.alloc(), &code) {
        Ok(text) => print!(rt; "{text}"),
        Err(_) => println!(rt; "no memory"),
    }
}

/// Puts whether code is settled.
fn put_settled(rt: &HostRuntime, code: &Mid) -> io::Result<()> {
    match is_settled(rt.alloc(), code) {
        Ok(true) => println!(rt; "settled"),
        Ok(false) => println!(rt; "not settled"),
        Err(_) => println!(rt; "no memory"),
    }
}

/// Runs a program by its mid code at a stage, and puts what it does and keeps and how large its code is, and whether settled code
/// is so.
pub fn put_mid(
    rt: &HostRuntime,
    program: &Program,
    stage: Stage,
    frames: &Frames,
    answers: &[u32],
    card: Option<&[u32]>,
    bound: u32,
) -> io::Result<()> {
    let Ok(code) = code_of(rt.alloc(), program, stage) else {
        return println!(rt; "no memory");
    };
    match evaluate_mid(rt.alloc(), &code, frames, bound, answers, card) {
        Ok(run) => put(rt, &run, size_of(code.code()))?,
        Err(_) => println!(rt; "no memory")?,
    }
    match stage {
        Stage::Settled => put_settled(rt, &code),
        Stage::Lowered | Stage::Promoted => Ok(()),
    }
}
