// The processor on a program given as words.
ghost use Rattle.std.specs.Prelude.{◌<◌, ◌≤◌, length, IfSome};

use cpu_core::{AnswerBus, Cpu, Stepped};
use line_text::{decimal_word, hexadecimal_word};
use std::alloc::Global;

const MOST_WORDS: usize = 65_536;

/// The program of these texts, 1 to 65,536 words; none where one is no word, or for want of memory.
fn program_of(alloc: Global, texts: &[String]) -> Option<Vec<u32>>
    ensures some { IfSome result (λ v. 0 < length v.items) }
    ensures room { IfSome result (λ v. length v.items ≤ 0x2000000) }
{
    let mut program = Vec::new(alloc);
    for text in texts {
        let Some(word) = hexadecimal_word(text.as_str().as_bytes()) else {
            return None;
        };
        if program.push(word).is_err() {
            return None;
        }
    }
    if program.is_empty() || program.len() > MOST_WORDS {
        return None;
    }
    Some(program)
}

/// Does at most so many steps on no port answers, and gives the last step's end.
pub fn run(cpu: &mut Cpu, bus: &mut AnswerBus, steps: u32) -> Stepped {
    for _ in 0..steps {
        match cpu.step(bus) {
            Stepped::Went | Stepped::Waited => {}
            end => return end,
        }
    }
    Stepped::Went
}

/// How a run ended.
pub fn name_of(end: Stepped) -> &'static str {
    match end {
        Stepped::Went | Stepped::Waited => "going",
        Stepped::Halted => "halted",
        Stepped::Starved => "starved",
        Stepped::Fault(_) => "fault",
        Stepped::Undecodable(_) => "undecodable",
    }
}

/// The steps and the program of the arguments.
pub fn run_of(alloc: Global, words: &[String]) -> Option<(u32, Vec<u32>)>
    ensures some { IfSome result (λ w. 0 < length w.1.items) }
    ensures room { IfSome result (λ w. length w.1.items ≤ 0x2000000) }
{
    match words {
        [steps, texts @ ..] => {
            let Some(steps) = decimal_word(steps.as_str().as_bytes()) else {
                return None;
            };
            let Some(program) = program_of(alloc, texts) else {
                return None;
            };
            Some((steps, program))
        }
        [] => None,
    }
}
