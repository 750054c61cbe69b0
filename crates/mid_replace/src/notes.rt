// What is noted of temporaries in a stretch of operations.
ghost use Rattle.std.specs.Prelude.{◌≡◌, OnOk, take};
ghost use Rattle.mid_replace.specs.inner.Facts.{fact_at};
ghost use Rattle.mid_replace.specs.inner.Replaced.{noted, noted_maybe, notes_kept, may_be_made, are_plain, is_maybe_plain};
ghost use Rattle.mid_replace.specs.inner.Tables.{plan_in};

use crate::fact::{Fact, is_plain, may_note};
use crate::table::{Table, base};
use kit_base::Memory;

/// What is known of a temporary.
#[derive(Clone, Copy)]
pub(crate) struct Note {
    pub(crate) temp: u32,
    pub(crate) fact: Fact,
}

/// What is known of a temporary by the latest note, or else by the table.
pub(crate) fn fact(table: &Table, notes: &[Note], temporary: u32) -> Fact
    ensures { result ≡ fact_at (plan_in table.now).base notes.now temporary }
{
    for note in notes {
        if temporary == note.temp {
            return note.fact;
        }
    }
    base(table, temporary)
}

pub(crate) fn is_maybe_plain(table: &Table, notes: &[Note], temporary: Option<u32>) -> bool
    ensures { result ≡ is_maybe_plain (fact_at (plan_in table.now).base notes.now) temporary }
{
    match temporary {
        Some(t) => is_plain(fact(table, notes, t)),
        None => true,
    }
}

pub(crate) fn are_plain(table: &Table, notes: &[Note], temporaries: &[u32]) -> bool
    ensures { result ≡ are_plain (fact_at (plan_in table.now).base notes.now) temporaries.now }
{
    for t in temporaries {
        if !is_plain(fact(table, notes, *t)) {
            return false;
        }
    }
    true
}

/// Whether that may be noted.
pub(crate) fn may_be_made(table: &Table, made: Option<Note>) -> bool
    ensures { result ≡ may_be_made (plan_in table.now) made }
{
    match made {
        Some(note) => may_note(base(table, note.temp), note.fact),
        None => true,
    }
}

#[tactic(auto, using(crate::proofs::Noting::take_least))]
fn keep_few(notes: &mut Vec<Note>)
    ensures { notes.new.items ≡ take notes_kept notes.old.items }
{
    notes.truncate(32);
}

/// Adds a note, the latest one first.
pub(crate) fn add_note(notes: &mut Vec<Note>, temp: u32, fact: Fact) -> Result<(), Memory>
    ensures { OnOk result (notes.new.items ≡ noted temp fact notes.old.items) }
{
    notes.insert(0, Note { temp, fact })?;
    keep_few(notes);
    Ok(())
}

pub(crate) fn note_maybe(notes: &mut Vec<Note>, made: Option<Note>) -> Result<(), Memory>
    ensures { OnOk result (notes.new.items ≡ noted_maybe made notes.old.items) }
{
    if let Some(made) = made {
        add_note(notes, made.temp, made.fact)?;
    }
    Ok(())
}
