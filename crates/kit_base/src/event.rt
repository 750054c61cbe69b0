/// A port operation: an answer taken from a port, a word given to a port, the wait for the next
/// frame. The first number is the port's, the second the word.
#[derive(Clone, Copy, Debug, PartialEq, Eq)]
pub enum Event {
    In(u32, u32),
    Out(u32, u32),
    Wait,
}
