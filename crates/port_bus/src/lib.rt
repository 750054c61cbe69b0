//! The small devices behind the ports: the timer, the random numbers, the gamepads, the cartridge and the memory card.
//!
//! They keep numbers and no history. Said against the history of their ports, they promise that each answer is the one
//! that the past gives, and that each call leaves devices that stand for the past with that call added. They stand on
//! the scripts of `run_files`, the ports of `v32_isa` and the histories of `port_history`.
#![tactic(auto)]

mod controls;
mod devices;
mod events;
mod laws;

pub use devices::Devices;
pub use laws::{
    controls_follow_the_rule, other_events_leave_devices, pads_that_are_not_connected_stay_up,
};
