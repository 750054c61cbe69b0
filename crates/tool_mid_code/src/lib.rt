//! Mid code made up for tests and for measuring.
//!
//! Code without globals, blocks and loops is made mid code where it is, by a test. It promises nothing more. It stands on mid_code.
#![tactic(auto)]

mod fine;
mod made;
mod safety;
mod shapes;

pub use fine::is_fine;
pub use made::mid_of;
pub use safety::is_safe_at;
pub use shapes::{Shape, function_of, program_of, shaped};
