// Sources made up for measuring, and what came of them.
use c_check::check;
use c_evaluate::evaluate;
use c_front::read_unit;
use c_meaning::End;
use kit_base::{FilesInMemory, Name, Seq};
use line_text::decimal_word;
use obj_mem::Frames;
use std::alloc::Global;

/// What the source does in its loop.
#[derive(Clone, Copy, Drop)]
pub enum Work {
    Arithmetic,
    Calls,
    Accesses,
    Blocks,
}

/// The work and the bound; none where the arguments are none.
pub fn words_of(words: &[String]) -> Option<(Work, u32)> {
    let [work, bound] = words else {
        return None;
    };
    let work = match work.as_str() {
        "arithmetic" => Work::Arithmetic,
        "calls" => Work::Calls,
        "accesses" => Work::Accesses,
        "blocks" => Work::Blocks,
        _ => return None,
    };
    let bound = decimal_word(bound.as_str().as_bytes())?;
    Some((work, bound))
}

/// A loop that goes on until the bound is used up.
fn text_of(work: Work) -> &'static [u8] {
    match work {
        Work::Arithmetic =>
            b"void main() { int a = 1; int b = 2; while (true) { a = a * 5 + b % 7; b = (a ^ b) - (a << 3); } }",
        Work::Calls =>
            b"int f(int a, int b) { return a + b; } void main() { int a = 1; while (true) a = f(a, f(a, 2)); }",
        Work::Accesses =>
            b"int[64] t; void main() { int i = 0; while (true) { t[i & 63] = t[i + 7 & 63] + i; i++; } }",
        Work::Blocks => b"void main() { while (true) { int[8] a; a[3] = 1; } }",
    }
}

/// What came of the work.
pub fn outcome(alloc: Global, work: Work, bound: u32) -> &'static str {
    match end_of(alloc, text_of(work), bound) {
        Some(End::OutOfBound) => "out of bound",
        Some(End::Halted) => "halted",
        Some(_) => "another end",
        None => "none",
    }
}

/// How the run of a source ended; none where it has no program, or memory ran out.
fn end_of(alloc: Global, source: &[u8], bound: u32) -> Option<End> {
    let bytes = Vec::from_slice(alloc, source).ok()?;
    let mut held = Vec::new(alloc);
    held.push((Name::new(alloc, "main.c").ok()?, Seq::from_vec(bytes)))
        .ok()?;
    if !FilesInMemory::are_distinct(&held) {
        return None;
    }
    let mut files = FilesInMemory::new(alloc, held, Vec::new(alloc));
    let parsed = read_unit(alloc, &mut files, "main.c").ok()?;
    let program = check(alloc, &parsed.unit).ok()?;
    let sizes = Vec::from_elem(alloc, 16, program.functions().len()).ok()?;
    let frames = Frames {
        sizes: Seq::from_vec(sizes),
    };
    let ran = evaluate(alloc, &program, &frames, &[], None, bound).ok()?;
    Some(ran.end)
}
