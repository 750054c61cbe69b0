//! Rows of pixels: one colour over a row, a row copied, and a row of texture points drawn on a row of the screen.
//!
//! It promises that each row is its pixels one by one, for every length, and that the quotient by 255 is the nearest whole
//! number over the whole range in which it is used. No call takes memory. It stands on `word_lanes`.
#![tactic(auto)]

mod blend;
mod eight;
mod lanes;
mod laws;
mod pixel;
mod rows;

pub use blend::Blend;
pub use laws::quotient_is_nearest;
pub use rows::{blend_row, copy_row, fill_row};
