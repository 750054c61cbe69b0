// What the evaluator answers.
use c_meaning::End;
use kit_base::{Event, Seq};

/// A run: its port operations in order, and its end.
#[derive(Drop)]
pub struct Ran {
    pub events: Seq<Event>,
    pub end: End,
}

/// What a run does next: a port operation, or its end.
#[derive(Clone, Copy)]
pub enum Advanced {
    Made(Event),
    Ended(End),
}
