// What the emitter knows of the code around an operation.
ghost use Rattle.std.specs.Prelude.{◌≡◌, get_or, map, []};
ghost use Rattle.kit_base.specs.Word.{sub};
ghost use Rattle.asm_laws.specs.Live.{all_last};
ghost use Rattle.asm_laws.specs.Operations.{word_at, slot_word, local_word, arg_word};
ghost use Rattle.mid_code.specs.Functions.{function};
ghost use Rattle.mid_code.specs.View.{spots};
ghost use Rattle.mid_code.specs.States.{no_function};
ghost use Rattle.asm_emit.specs.inner.View.{frame, no_spots, whole};

use kit_base::Name;
use mid_code::{Function, Spots, Where};

/// The frame of the function whose code is written: its size, how many of its words are on the stack, and the offsets of its slots and of its locals.
/// A slot past the last of the list has its number as its offset.
#[derive(Clone, Copy)]
pub struct Scope<'a> {
    pub slots: &'a [u32],
    pub locals: &'a [u32],
    pub size: u32,
    pub depth: u32,
    /// How many registers, from the first one on, hold places between operations: 9, or 8 where register 8 is spare.
    pub registers: u32,
    /// Which of the first nine last from one stretch of nodes to the next, where block moves ask.
    pub lasting: &'a [bool],
}

/// The functions of the program with their frames and names, and the addresses of the globals.
#[derive(Clone, Copy)]
pub struct Around<'a> {
    pub functions: &'a [Function<Where>],
    pub spots: &'a [Spots],
    pub sizes: &'a [u32],
    pub registers: &'a [u32],
    pub lasting: &'a [Vec<bool>],
    pub names: &'a [Name],
    pub globals: &'a [u32],
}

/// The number at a place of a list, else another.
pub(crate) fn at_or(list: &[u32], k: u32, other: u32) -> u32
    ensures { result ≡ get_or list.now k other }
{
    match list.get(k as usize) {
        Some(n) => *n,
        None => other,
    }
}

/// What is added to the stack's top for the word at an offset.
fn word_at(s: &Scope<'_>, offset: u32) -> u32
    ensures { result ≡ word_at (frame s.now) offset }
{
    offset.wrapping_add(s.depth).wrapping_sub(s.size)
}

pub(crate) fn slot_word(s: &Scope<'_>, k: u32) -> u32
    ensures { result ≡ slot_word (frame s.now) k }
{
    word_at(s, at_or(s.slots, k, k))
}

/// What is added to the stack's top, before a call of the function, for a slot of the frame that it will have.
pub(crate) fn arg_word(s: &Scope<'_>, k: u32) -> u32
    ensures { result ≡ arg_word (frame s.now) k }
{
    at_or(s.slots, k, k).wrapping_sub(s.size).wrapping_sub(1)
}

pub(crate) fn local_word(s: &Scope<'_>, k: u32) -> u32
    ensures { result ≡ local_word (frame s.now) k }
{
    word_at(s, at_or(s.locals, k, 0))
}

fn slots_at(all: &[Spots], g: u32) -> &[u32]
    ensures { result.now ≡ (get_or (map spots all.now) g no_spots).slots }
{
    match all.get(g as usize) {
        Some(s) => s.slots.as_slice(),
        None => &[],
    }
}

fn locals_at(all: &[Spots], g: u32) -> &[u32]
    ensures { result.now ≡ (get_or (map spots all.now) g no_spots).locals }
{
    match all.get(g as usize) {
        Some(s) => s.locals.as_slice(),
        None => &[],
    }
}

/// All registers of places.
fn all_last() -> &'static [bool]
    ensures { result.now ≡ all_last }
{
    &[true, true, true, true, true, true, true, true, true]
}

fn lasting_at(all: &[Vec<bool>], g: u32) -> &[bool]
    ensures { result.now ≡ get_or (map (λ v. v.items) all.now) g all_last }
{
    match all.get(g as usize) {
        Some(v) => v.as_slice(),
        None => all_last(),
    }
}

/// The frame of a function.
pub(crate) fn scope_at<'a>(w: &Around<'a>, g: u32) -> Scope<'a>
    ensures { frame result ≡ (whole w.now).frames g }
{
    let size = at_or(w.sizes, g, 0);
    Scope {
        slots: slots_at(w.spots, g),
        locals: locals_at(w.spots, g),
        size,
        depth: size,
        registers: at_or(w.registers, g, 8),
        lasting: lasting_at(w.lasting, g),
    }
}

/// The places that take a function's arguments.
pub(crate) fn params_at<'a>(functions: &'a [Function<Where>], g: u32) -> &'a [Where]
    ensures { result.now ≡ (get_or (map function functions.now) g no_function).params }
{
    match functions.get(g as usize) {
        Some(f) => f.params.as_slice(),
        None => &[],
    }
}
