//! Sound: sixteen channels over the cartridge's sounds, and the samples of a frame.
//!
//! It promises that what it keeps, what its ports answer and the 735 samples of each frame are those
//! of the definitions after what happened at the ports so far. Nothing after `open` takes memory. It
//! stands on `kit_base`, `v32_isa`, `port_history`, `asset_pack` and `word_lanes`.
#![tactic(auto)]

mod answers;
mod channel;
mod commands;
mod eights;
mod laws;
mod looped_sound;
mod mixing;
mod playing;
mod sides;
mod spu;

pub use laws::{
    frames_add_up, loops_and_positions_lie_in_sounds, others_are_nothing_to_sound,
    positions_go_step_by_step, samples_follow_each_other, sides_are_signed_and_clamped,
    sound_has_a_closed_form, what_is_selected_exists,
};
pub use spu::Spu;
