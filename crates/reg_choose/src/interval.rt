// Spans of temporaries.

/// A temporary and its span.
#[derive(Clone, Copy)]
pub(crate) struct Interval {
    pub(crate) temp: usize,
    pub(crate) first: u64,
    pub(crate) last: u64,
}
