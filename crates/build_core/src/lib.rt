//! The build: from a project's text and the files that it names to a cartridge and a map.
//!
//! It promises that a cartridge does what the C sources of its project mean and holds the project's textures and
//! sounds (`IsBuilt`, with `IsImageOf`), which refusal comes when and why, and that no file changes.
//!
//! It stands on the front and the rules of the language (`c_front`, `c_check`), on the images of programs (`c_image`), on the texts of
//! projects and maps (`project_text`), on textures, sounds and cartridges (`asset_pack`, `cart_format`) and on the files (`kit_base`).
#![tactic(auto)]

mod assets;
mod building;
mod checked;
mod checking;
mod error;
mod fronts;
mod laws;
mod packing;
mod reading;
mod sources;

pub use building::{Built, build, build_from};
pub use checked::Checked;
pub use checking::check_sources;
pub use error::BuildErr;
pub use fronts::front;
pub use laws::{
    builds_are_due_or_refused, built_cartridges_are_read_back, images_fit_or_are_too_large,
    projects_are_accepted_or_rejected,
};
