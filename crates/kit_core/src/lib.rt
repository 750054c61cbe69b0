//! The top call of the kit: the command of the words, its refusals in their one order, its outputs
//! and the line that is printed.
//!
//! It promises that status, files and text are those of the command, that each refusal by the
//! outside has its cause, and that a build or a play that ends well stands and does what its source means, that a watch
//! tells exactly whether its source strays, and that calls stay within the bounds that are told. It
//! stands on `build_core` for the build, on `kit_words` for the words, on `kit_tools` for the commands without a build and on `kit_base` for the outside.
#![tactic(auto)]

mod bounding;
mod build_refusal;
mod building;
mod checking;
mod following;
mod generating;
mod laws;
mod plain;
mod playing;
mod top;
mod watching;

pub use laws::runs_leave_fronts;
pub use plain::plain_pads_are_of_their_text;
pub use top::kit;
