//! The processor: memory, registers and the step that does one instruction over a bus of ports.
//!
//! It promises that a step is the definition's step of `v32_isa`, instruction by instruction, on
//! the state that the processor holds, and that a step that faults, starves, halts or meets an
//! undecodable word changes nothing. It stands on `kit_base` and `v32_isa`.
#![tactic(auto)]

mod answer_bus;
mod bus;
mod copying;
mod cpu;
mod laws;
mod memory;
mod moves;
mod operations;
mod ports;
mod registers;
mod stack;
mod step;

pub use answer_bus::AnswerBus;
pub use bus::Bus;
pub use cpu::Cpu;
pub use laws::steps_make_runs;
pub use v32_isa::Stepped;
