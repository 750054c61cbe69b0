// Code made mid code.
ghost use Rattle.std.specs.Prelude.{◌≡◌, ℕ, ◌+◌, ◌<◌, ◌≤◌, length, map, get_or};
ghost use Rattle.std.specs.Bool.{OnTrue};
ghost use Rattle.mid_code.specs.Functions.{function};
ghost use Rattle.mid_code.specs.Invariants.{AllOf, IsFunction, IsStart, IsMain, IsMid, IsTemporary};
ghost use Rattle.mid_code.specs.View.{code};

use crate::fine::is_fine;
use mid_code::{Code, Function, Mid};

/// Whether these are 0, 1, 2 and so on.
fn are_numbered(xs: &[u32]) -> bool
    ensures { OnTrue result ((i d : ℕ) → i < length xs.now → get_or xs.now i d ≡ 0 + i) }
{
    let mut i = 0;
    while i < xs.len() {
        if xs[i] as usize != i {
            return false;
        }
        i += 1;
    }
    true
}

/// Whether each is 1.
fn are_ones(xs: &[u32]) -> bool
    ensures { OnTrue result ((i d : ℕ) → i < length xs.now → get_or xs.now i d ≡ 1) }
{
    let mut i = 0;
    while i < xs.len() {
        if xs[i] != 1 {
            return false;
        }
        i += 1;
    }
    true
}

fn are_few(f: &Function<u32>) -> bool
    ensures { OnTrue result ((function f.now).temps + length (function f.now).locals ≤ 1000000) }
{
    f.temps <= 1_000_000 && f.locals.as_slice().len() <= (1_000_000 - f.temps) as usize
}

/// Whether the function's parameters are the temporaries from 0 on, its locals have one word each, and its nodes are fine.

fn function_fine(f: &Function<u32>, of: &Code<u32>) -> bool
    ensures { OnTrue result (IsFunction IsTemporary (code of.now) (function f.now)) }
{
    let params = f.params.as_slice();
    let locals = f.locals.as_slice();
    if !are_few(f) || !are_numbered(params) || !are_ones(locals) {
        return false;
    }
    params.len() <= f.temps as usize && is_fine(f.body.as_slice(), of, f.temps, locals.len() as u32)
}

fn functions_fine(fs: &[Function<u32>], of: &Code<u32>) -> bool
    ensures { OnTrue result (AllOf (IsFunction IsTemporary (code of.now)) (map function fs.now)) }
{
    for f in fs {
        if !function_fine(f, of) {
            return false;
        }
    }
    true
}

/// Whether the function does nothing.
fn start_fine(f: &Function<u32>, of: &Code<u32>) -> bool
    ensures { OnTrue result (IsStart IsTemporary (code of.now) (function f.now)) }
{
    if f.params.as_slice().len() > 0 || f.locals.as_slice().len() > 0 || f.result {
        return false;
    }
    f.body.as_slice().len() == 0 && function_fine(f, of)
}

fn main_fine(of: &Code<u32>) -> bool
    ensures { OnTrue result (IsMain (code of.now)) }
{
    match of.functions.as_slice().get(of.main as usize) {
        Some(f) => f.params.as_slice().len() == 0,
        None => false,
    }
}

fn code_fine(of: &Code<u32>) -> bool
    ensures { OnTrue result (IsMid (code of.now)) }
{
    if of.globals.as_slice().len() > 0 || !main_fine(of) || !start_fine(&of.start, of) {
        return false;
    }
    functions_fine(of.functions.as_slice(), of)
}

/// Mid code of this code; none where its start does anything, or it has globals, blocks or loops, parameters that are not the temporaries from 0
/// on, locals of several words, or an operation over names, ports or one word, or where it is no mid code.
pub fn mid_of(of: Code<u32>) -> Option<Mid> {
    if code_fine(&of) {
        Some(Mid::new(of))
    } else {
        None
    }
}
