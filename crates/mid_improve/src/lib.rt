//! Settles mid code, and tells whether it is settled: in no function an operator whose words are known is left, or an operand that is a copy, or an operation
//! that only puts something where nothing reads it. With promotion it does so until no local of one word whose address is never taken is left either.
//!
//! It promises that what it gives is settled and does the same, and that its answer is exact. It stands on mid_code, mid_scalars, mid_fold and mid_live.
#![tactic(auto)]

mod fixpoint;
mod forward;
mod retarget;
mod runs;
mod settled;
mod sinking;
mod slots;
mod sweep;
mod table;
mod targets;
mod turns;

pub use fixpoint::settle;
pub use settled::is_settled;
pub use turns::improve;
