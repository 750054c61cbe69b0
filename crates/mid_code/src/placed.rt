// Places of placed code.
use kit_base::Seq;

/// Where a temporary stands: in a register, or in a slot of the frame.
#[derive(Clone, Copy, Debug, PartialEq, Eq)]
pub enum Where {
    Reg(u32),
    Slot(u32),
}

/// Offsets in a function's frame: of each slot, of the first word of each local, and of further words that the emitter uses.
#[derive(Drop)]
pub struct Spots {
    pub slots: Seq<u32>,
    pub locals: Seq<u32>,
    pub own: Seq<u32>,
}

/// Where each temporary of a function stands, by its number.
#[derive(Drop)]
pub struct Choice {
    pub at: Seq<Where>,
}
