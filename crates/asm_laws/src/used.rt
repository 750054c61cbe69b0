// What is done with a known word.
use mid_code::Where;
use v32_isa::{Reg, Two};

/// What the operations behind one that puts a known word into register 8 do with it.
#[derive(Clone, Copy)]
pub enum Used {
    /// A register takes what an operator makes of the word of a place and the known one.
    Computed(Two, Reg, Where),
    /// A register takes the word at an address: the known word, added to that of a place where there is one.
    Loaded(Reg, Option<Where>),
    /// A register takes the word at the sum of its own word, that of another register and the known one.
    Indexed(Reg, Reg),
    /// A register takes the word at the sum of the known word, that of a place and a number.
    Offset(Reg, Where, u32),
    /// A register takes the word at the sum of the address of a global and what an operator makes of the word of a place and the known one.
    Element(Two, Reg, Where, u32),
    /// The word of a place is stored at such an address.
    Stored(Option<Where>, Where),
    /// The known word goes to a port.
    Sent(u32),
}
