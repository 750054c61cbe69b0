// Words that are given back.
use mid_code::Where;
use v32_isa::Two;

/// What makes a word in register 9 that is given back right behind.
#[derive(Clone, Copy)]
pub enum Made {
    /// An operator on the words of two places.
    Both(Two, Where, Where),
    /// An operator on the word of a place and a known one.
    Known(Two, Where, u32),
}
