/// How a step of the processor ended: it went on, waits for the next frame, has halted, found no
/// answer at a port, or met a fault (with its number) or an undecodable word (with its address).
#[derive(Clone, Copy, PartialEq, Eq, Debug)]
pub enum Stepped {
    Went,
    Waited,
    Halted,
    Starved,
    Fault(u32),
    Undecodable(u32),
}
