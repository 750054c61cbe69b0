//! The instructions and ports of the console, and the machine as a definition.
//!
//! It promises that `encode` and `decode` are the table of instruction forms, both ways, and that
//! the port table is exactly the listed ports; its definitions say what one instruction does and
//! what a run on a list of port answers gives. It stands on `kit_base`.
#![tactic(auto)]

mod arithmetic;
mod decoding;
mod encoding;
mod fields;
mod instruction;
mod laws;
mod port;
mod port_table;
mod register;
mod stepped;

pub use arithmetic::{magnitude_of, one_word, two_word};
pub use decoding::decode;
pub use encoding::{Encoded, encode};
pub use instruction::{Branch, Go, Instr, Mov, One, Plain, Src, Two};
pub use laws::{
    decoding_is_inverse, longer_runs_extend, nested_runs_are_closed, no_spelling_begins_another,
    programs_stay,
};
pub use port::Port;
pub use port_table::{PortRow, answers, listens, port_by_name, port_by_number};
pub use register::{BP, CR, DR, Reg, SP, SR};
pub use stepped::Stepped;
