// The work of the devices, and what it ends with.
use crate::graphics::{clears, draws};
use crate::sound::mixes;
use line_text::decimal_word;
use std::alloc::Global;

/// What is done, and how many times.
#[derive(Clone, Copy)]
pub enum Work {
    Clears(u32),
    Draws(u32),
    Mixes(u32),
}

/// The work of the arguments; none where they are none.
pub fn work_of(words: &[String]) -> Option<Work> {
    let [name, times] = words else {
        return None;
    };
    let times = decimal_word(times.as_str().as_bytes())?;
    match name.as_str() {
        "clears" => Some(Work::Clears(times)),
        "draws" => Some(Work::Draws(times)),
        "mixes" => Some(Work::Mixes(times)),
        _ => None,
    }
}

/// A checksum of words, of each and of their order.
fn checksum(words: &[u32]) -> u32 {
    let mut sum = 0u32;
    for word in words {
        sum = (sum ^ *word).wrapping_mul(0x0100_0193);
    }
    sum
}

/// Does the work, and gives the checksum of the pixels or the samples then; none for want of memory.
pub fn checksum_after(alloc: Global, work: Work) -> Option<u32> {
    match work {
        Work::Clears(times) => Some(checksum(clears(alloc, times)?.screen())),
        Work::Draws(times) => Some(checksum(draws(alloc, times)?.screen())),
        Work::Mixes(times) => Some(checksum(mixes(alloc, times)?.samples())),
    }
}
