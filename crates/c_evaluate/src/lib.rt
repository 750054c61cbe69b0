//! The evaluator of the meaning of C programs.
//!
//! It promises exactly the port operations and the end of the run that c_meaning defines, for the program's bound: all at once, or one by one
//! from a runner. Activations stand in a vector, so deep recursion of the source takes no host stack. It stands on c_check for programs, on
//! c_meaning for their meaning and on obj_mem for objects.
#![tactic(auto)]

mod advance;
mod answer;
mod assigning;
mod calls;
mod cells;
mod dispatch;
mod eval;
mod exec;
mod filling;
mod frame;
mod leaf;
mod lookup;
mod machine;
mod opening;
mod operands;
mod operators;
mod quick;
mod runner;
mod setting;
mod stack;
mod statements;
mod stop;
mod store;
mod using;

pub use answer::{Advanced, Ran};
pub use runner::{Runner, evaluate};
