// What a run needs.
use crate::work::Work;
use c_check::{Program, check};
use c_front::read_unit;
use kit_base::{FilesInMemory, Name, Seq};
use obj_mem::Frames;
use run_files::read_answers;
use std::alloc::Global;

/// The most bytes of a file of answers.
const ANSWERS_LIMIT: usize = 268_435_456;

/// The words of a file of answers; none where it is none, or memory ran out.
pub fn answers_of(alloc: Global, bytes: &[u8]) -> Option<Vec<u32>> {
    if bytes.len() > ANSWERS_LIMIT {
        return None;
    }
    read_answers(alloc, bytes).ok()
}

/// The checked program of a source that includes no files but the headers; none where it is none, or memory ran out.
pub fn program_of(alloc: Global, source: Vec<u8>) -> Option<Program> {
    let mut held = Vec::new(alloc);
    held.push((Name::new(alloc, "main.c").ok()?, Seq::from_vec(source)))
        .ok()?;
    if !FilesInMemory::are_distinct(&held) {
        return None;
    }
    let mut files = FilesInMemory::new(alloc, held, Vec::new(alloc));
    let parsed = read_unit(alloc, &mut files, "main.c").ok()?;
    check(alloc, &parsed.unit).ok()
}

/// The sizes of the frames.
pub fn frames_of(alloc: Global, work: &Work<'_>) -> Option<Frames> {
    Some(Frames {
        sizes: Seq::from_vec(Vec::from_slice(alloc, &work.sizes).ok()?),
    })
}

/// The words of the card; an empty list where none is connected.
pub fn card_of(alloc: Global, work: &Work<'_>) -> Option<Vec<u32>> {
    let words = if work.card { 262_144 } else { 0 };
    Vec::from_elem(alloc, 0u32, words).ok()
}
