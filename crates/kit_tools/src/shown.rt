// What a command puts.
use crate::verdict::Verdict;
use run_core::Ending;
use trace_core::Trace;
use v32_console::FrameEnd;

/// The text of a command whose outputs are done: none, `ok` of a check, that of a trace, which is made as it is printed, the line of a run
/// that ended so, none where it did not end by a fault, the line of a watch's verdict, lines that were made before, or a line that ends with a word:
/// what stands
/// before the word's eight digits, and the word.
#[derive(Drop)]
pub enum Shown {
    Nothing,
    Accepted,
    Run(Trace),
    Ended(Ending, FrameEnd),
    Watched(Verdict),
    Lines(Vec<u8>),
    Word(Vec<u8>, u32),
}
