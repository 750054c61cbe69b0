// How a frame ends.

/// How a frame ends: by its 250,000th instruction, by a wait, or with the run, by a halt, a fault or an undecodable word
/// with its address. Faults are 0 read, 1 write, 2 port read, 3 port write and 6 division.
#[derive(Clone, Copy, Debug, PartialEq, Eq)]
pub enum FrameEnd {
    Full,
    Waited,
    Halted,
    Fault { number: u32, address: u32 },
    Undecodable(u32),
}
