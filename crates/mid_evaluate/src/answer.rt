// What the evaluator answers.
use kit_base::{Event, Seq};
use obj_mem::Cell;

/// How a run ends.
#[derive(Clone, Copy, Debug, PartialEq, Eq)]
pub enum Ending {
    Halted,
    Fault(u32),
    Starved,
    Stray,
    Deep,
    OutOfBound,
}

/// A run: its port operations in order, its end, the cells of each global and of the card then, and its work.
#[derive(Drop)]
pub struct MidRun {
    pub events: Seq<Event>,
    pub end: Ending,
    pub globals: Seq<Seq<Cell>>,
    pub card: Seq<Cell>,
    pub work: u64,
}
