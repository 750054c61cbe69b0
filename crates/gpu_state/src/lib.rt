//! Graphics: textures with their regions, the settings, the pixels that are left of a frame, and the screen.
//!
//! It promises that after any history of frames and of words told to its ports, each port answers what the system specification
//! says of that history, and that the screen holds the colour of each pixel after the commands that were done. Nothing after
//! opening takes memory. It stands on the history of `port_history`, the ports of `v32_isa`, the textures of `asset_pack` and
//! the rows of `pix_lanes`.
#![tactic(auto)]

mod answering;
mod drawing;
mod gpu;
mod laws;
mod painting;
mod region;
mod settings;
mod span;

pub use gpu::Gpu;
pub use laws::{other_events_leave_graphics, places_are_sums};
