// The files that a run writes.
use kit_base::FileErr;

/// One of the files that a run writes.
#[derive(Clone, Copy, Debug, PartialEq, Eq)]
pub enum Output {
    Frames,
    Samples,
    Card,
}

/// The names of the files that a run writes; that of a memory card where one is to be written.
#[derive(Clone, Copy)]
pub struct RunNames<'a> {
    pub frames: &'a str,
    pub samples: &'a str,
    pub card: Option<&'a str>,
}

/// A call on the file of an output was refused.
#[derive(Clone, Copy, Debug, PartialEq, Eq)]
pub struct Unwritten {
    pub output: Output,
    pub error: FileErr,
}
