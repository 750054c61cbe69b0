//! The evaluator of mid code: the slow program that does what its meaning says.
//!
//! It promises exactly the run that mid_code defines: port operations, end, kept cells and work. It goes down the nodes in memory as the
//! definition does, so calls and nested nodes take host stack. It stands on mid_code for code and its meaning, and on obj_mem for objects.
#![tactic(auto)]

mod answer;
mod calls;
mod flow;
mod kept;
mod lookup;
mod nodes;
mod opening;
mod operations;
mod run;
mod setting;
mod state;
mod stop;

pub use answer::{Ending, MidRun};
pub use run::evaluate_mid;
