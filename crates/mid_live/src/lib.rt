//! Live sets of mid code, and what is live before operations and at the heads of loops.
#![tactic(auto)]

mod heads;
mod labels;
mod learn;
mod live;
mod marked;
mod marks;
mod names;
mod operations;
mod walk;
mod words;

pub use heads::{Head, told_each};
pub use labels::{Labels, at_begin, at_end, begin_less, nested, outside};
pub use learn::heads_in;
pub use live::{Kept, Live};
pub use operations::{at_return, before_op, put_uses, strike_target};
pub use walk::head_of;
