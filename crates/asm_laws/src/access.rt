// Loads and stores that are done together with the operations that work out their addresses.
use mid_code::Where;

/// Where an address is counted from: the first word of a local, or the address in a place.
#[derive(Clone, Copy)]
pub enum Base {
    Local(u32),
    Place(Where),
}

/// An address that operations put into register `into`. The number that they add to that of the base they put into register `number`
/// before, and the address of a local into register `local`, where they do.
#[derive(Clone, Copy)]
pub struct Address {
    pub base: Base,
    pub offset: u32,
    pub into: u32,
    pub number: Option<u32>,
    pub local: Option<u32>,
}

/// What is done at an address.
#[derive(Clone, Copy)]
pub enum Transfer {
    /// A register takes the word there.
    Load(u32),
    /// The word of a place is stored there.
    Store(Where),
}
