//! Mid code: structured code between typed trees and instructions, over places.
//!
//! The places of `Mid` are numbered temporaries, those of `Placed` are registers and slots of the frame. Contracts see a list of nodes as
//! nodes that each have what follows them. The definitions have the meaning of code, over the worlds of C programs; its weight; which
//! temporaries are live and which locals are open at a point; and what it is for a pass to keep the runs of a program. It stands on obj_mem
//! for worlds and on v32_isa for operators and the machine.
#![tactic(auto)]

mod access;
mod code;
mod function;
pub mod laws;
mod mid;
mod node;
mod operands;
mod placed;
mod placed_code;

pub use code::Code;
pub use function::Function;
pub use mid::Mid;
pub use node::{Node, Op};
pub use operands::{Stands, Uses};
pub use placed::{Choice, Spots, Where};
pub use placed_code::Placed;
