// Macros are replaced, with no recursion: a chain of names may be long.
ghost use Rattle.std.specs.Prelude.{◌≡◌, ◌<◌, ◌≤◌, [], ◌∷◌, ◌++◌, List, ℕ, OnOk, IfErr, length, map, option_map, option_copied, bytes_eq, false};
ghost use Rattle.std.specs.List.{list_any};
ghost use Rattle.kit_base.specs.declared.failure.Failure.TheVariants as failures;
ghost use Rattle.c_prep.specs.Faults.{Gives};
ghost use Rattle.c_prep.specs.Macros.{macro_of, visible, body_of, replaced_at, replaced_in};
ghost use Rattle.c_prep.specs.inner.Frames.{names, macro_in, at_place, unwound, unwound_after, Goes, work};

use crate::error::StepErr;
use crate::kinds::word_in;
use crate::output::Output;
use crate::table::Macros;
use c_lex::{Kind, Token};
use indexmap::IndexSet;
use kit_base::Name;
use std::alloc::Global;

/// The expansion of a name, as far as it is not yet put.
#[derive(Clone, Copy)]
pub struct Frame<'a> {
    pub name: &'a Name,
    pub rest: &'a [Kind],
}

/// Whether a name is one of the expansions that are begun.
fn is_inside(inside: &IndexSet<&Name>, name: &Name) -> bool
    ensures { result ≡ list_any (bytes_eq name.now) (map (λ k. k.now) inside.now.keys) }
{
    inside.contains(&name)
}

/// One name more, which is not there yet.
fn enter<'a>(inside: &mut IndexSet<&'a Name>, name: &'a Name) -> Result<(), StepErr>
    requires new { list_any (bytes_eq name.now) (map (λ k. k.now) inside.old.keys) ≡ false }
    ensures names { OnOk result (map (λ k. k.now) inside.new.keys ≡ map (λ k. k.now) inside.old.keys ++ name.now ∷ []) }
    ensures memory { IfErr result (λ e. e ≡ failures.Memory) }
{
    inside.insert(name)?;
    Ok(())
}

/// The last name is gone.
fn leave(inside: &mut IndexSet<&Name>)
    ensures { (ks : List (List ℕ)) (k : List ℕ) → map (λ k. k.now) inside.old.keys ≡ ks ++ k ∷ [] → map (λ k. k.now) inside.new.keys ≡ ks }
{
    let _gone = inside.pop();
}

/// The macro of that name, unless it is inside its own expansion.
fn visible<'a>(macros: &'a Macros, inside: &IndexSet<&'a Name>, name: &'a Name) -> Option<Frame<'a>>
    ensures { option_map macro_in result ≡ visible (body_of macros.now name.now) (map (λ k. k.now) inside.now.keys) name.now }
{
    match macros.body_of(name) {
        Some(rest) => {
            if is_inside(inside, name) {
                None
            } else {
                Some(Frame { name, rest })
            }
        }
        None => None,
    }
}

/// The macro that a token names.
#[tactic(auto, unfolding(crate::specs::Macros::macro_of))]
fn macro_of<'a>(
    macros: &'a Macros,
    inside: &IndexSet<&'a Name>,
    kind: &'a Kind,
) -> Option<Frame<'a>>
    ensures { option_map macro_in result ≡ macro_of macros.now (map (λ k. k.now) inside.now.keys) kind.now }
{
    match word_in(kind) {
        Some(name) => visible(macros, inside, name),
        None => None,
    }
}

/// Puts a token, or begins the expansion of its macro.
fn place<'a>(
    macros: &'a Macros,
    frames: &mut Vec<Frame<'a>>,
    inside: &mut IndexSet<&'a Name>,
    at: &Token,
    kind: &'a Kind,
    out: &mut Output,
) -> Result<(), StepErr>
    requires counts { length frames.old.items ≤ out.old.replaced }
    requires inside { map (λ k. k.now) inside.old.keys ≡ names frames.old.items }
    ensures goes { Goes result (unwound_after macros.now at.now frames.old.items (at_place macros.now at.now (names frames.old.items) kind.now out.old))
        (unwound macros.now at.now [] frames.new.items out.new) }
    ensures counts { OnOk result (length frames.new.items ≤ out.new.replaced) }
    ensures inside { OnOk result (map (λ k. k.now) inside.new.keys ≡ names frames.new.items) }
    ensures ends { OnOk result (work out.new frames.new.items < work out.old frames.old.items) }
{
    match macro_of(macros, inside, kind) {
        Some(frame) => {
            out.count(at)?;
            enter(inside, frame.name)?;
            frames.push(frame)?;
            Ok(())
        }
        None => out.emit(at, kind),
    }
}

/// Puts all that a token of the text stands for.
fn replace_one<'a>(
    alloc: Global,
    macros: &'a Macros,
    token: &'a Token,
    out: &mut Output,
) -> Result<(), StepErr>
    ensures { Gives out.new result (replaced_at macros.now token.now out.old) }
{
    let mut frames = Vec::new(alloc);
    let mut inside = IndexSet::new(alloc);
    place(macros, &mut frames, &mut inside, token, &token.kind, out)?;
    'each: while let Some(frame) = frames.pop() {
        if let Some((next, after)) = frame.rest.split_first() {
            frames.push(Frame {
                name: frame.name,
                rest: after,
            })?;
            place(macros, &mut frames, &mut inside, token, next, out)?;
        } else {
            leave(&mut inside);
        }
    }
    Ok(())
}

/// Puts all that these tokens stand for.
pub fn replace_all(
    alloc: Global,
    macros: &Macros,
    tokens: &[Token],
    out: &mut Output,
) -> Result<(), StepErr>
    ensures { Gives out.new result (replaced_in macros.now tokens.now out.old) }
{
    let mut rest = tokens;
    'each: while let Some((token, after)) = rest.split_first() {
        replace_one(alloc, macros, token, out)?;
        rest = after;
    }
    Ok(())
}
