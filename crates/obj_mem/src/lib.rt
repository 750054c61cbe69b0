//! The memory of the C meaning and of mid code: objects of cells, and what a run does to them.
//!
//! A pointer is an object and an offset, never an address. Contracts see the objects as a list, and say what a read, a write, a new object
//! and the end of one do to it. The definitions also have the world that a run of a program goes over, and what is asked of it. It stands on
//! kit_base for words and port operations.
#![tactic(auto)]

mod access;
mod cell;
mod frames;
mod laws;
mod live;
mod locals;
mod object;
mod objects;
mod opening;
mod queries;
mod refusal;

pub use access::Access;
pub use cell::{Cell, ObjectKind};
pub use frames::Frames;
pub use laws::living_tells_all;
pub use locals::{end_local, fresh_local, local_cell, local_object, make_unwritten};
pub use objects::Objects;
pub use opening::{make_card, make_global, make_literals};
pub use queries::{apart, equal_pointers, further, offsets, read, step, word_of, write};
pub use refusal::Refusal;
