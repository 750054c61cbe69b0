// Words of bits, with marks of those that may be other than 0.
ghost use Rattle.std.specs.Prelude.{◌≡◌, ◌≢◌, ◌∷◌, ℕ, ◌*◌, ◌/◌, ◌%◌, ◌<◌, ◌||◌, ◌&&◌, not, false, cond, eqb, length, get_or, replicate};
ghost use Rattle.std.specs.Prelude.{slice_set, IfOk};
ghost use Rattle.mid_live.specs.Sets.{on, room};
ghost use Rattle.mid_live.specs.inner.Words.{bit, some, held_in, IsHeld, FreshIn, spread};

use crate::marks::Marks;
use crate::words::{Held, put_bit, strike_bit, word, write};
use kit_base::Memory;
use std::alloc::Global;

/// A temporary put in. A word that is not 0 is marked already.
#[tactic(auto, using(crate::proofs::Written::put_held, crate::proofs::Written::kept_held))]
pub(crate) fn put_marked(words: &mut Vec<u64>, marks: &mut Marks, x: usize)
    requires held { IsHeld words.old.items marks.old }
    ensures held { IsHeld words.new.items marks.new }
    ensures len { length words.new.items ≡ length words.old.items }
    ensures is { (y : ℕ) → y < room words.old.items → on words.new.items y ≡ (eqb x y || on words.old.items y) }
{
    let was = word(words.as_slice(), x / 64);
    put_bit(words, x);
    if was == 0 {
        marks.put(x / 64);
    }
}

/// A temporary taken out.
#[tactic(auto, using(crate::proofs::Written::less_held, crate::proofs::Written::strike_held))]
pub(crate) fn strike_marked(words: &mut Vec<u64>, marks: &mut Marks, x: usize)
    requires held { IsHeld words.old.items marks.old }
    ensures held { IsHeld words.new.items marks.new }
    ensures len { length words.new.items ≡ length words.old.items }
    ensures is { (y : ℕ) → y < room words.old.items → on words.new.items y ≡ cond (eqb x y) false (on words.old.items y) }
{
    strike_bit(words, x);
    if word(words.as_slice(), x / 64) == 0 {
        marks.strike(x / 64);
    }
}

/// The number of the first word that is not 0, or one behind all.
#[tactic(auto, using(crate::proofs::Written::copied))]
fn first_held(words: &[u64], marks: &Marks) -> usize
    requires held { IsHeld words.now marks.now }
    ensures { (j : ℕ) → j < result → get_or words.now j 0 ≡ 0 }
{
    let mut i = marks.next(0);
    'words: while i < words.len() {
        if words[i] != 0 {
            return i;
        }
        i = marks.next(i + 1);
    }
    i
}

/// The words that are not 0 behind the first one, in ascending order.
#[tactic(auto, using(crate::proofs::Written::copied, crate::proofs::Written::copied_first))]
fn copied_behind(
    alloc: Global,
    words: &[u64],
    marks: &Marks,
    first: Held,
) -> Result<Vec<Held>, Memory>
    requires held { IsHeld words.now marks.now }
    requires inside { first.at < length words.now }
    requires word { first.word ≡ get_or words.now first.at 0 }
    requires before { (j : ℕ) → j < first.at → get_or words.now j 0 ≡ 0 }
    ensures fresh { IfOk result (λ v. FreshIn (replicate (length words.now) 0) (first ∷ v.items)) }
    ensures is { IfOk result (λ v. spread (replicate (length words.now) 0) (first ∷ v.items) ≡ words.now) }
{
    let mut found = Vec::new(alloc);
    let mut i = first.at + 1;
    'words: while i < words.len() {
        let at = i;
        i = marks.next(at + 1);
        if words[at] != 0 {
            found.push(Held {
                at,
                word: words[at],
            })?;
        }
    }
    Ok(found)
}

/// The words that are not 0, in ascending order, the first one apart, so that one word takes no memory.
#[tactic(auto, using(crate::proofs::Written::copied_nothing))]
pub(crate) fn copied(
    alloc: Global,
    words: &[u64],
    marks: &Marks,
) -> Result<(Option<Held>, Vec<Held>), Memory>
    requires held { IsHeld words.now marks.now }
    ensures fresh { IfOk result (λ v. FreshIn (replicate (length words.now) 0) (held_in v.0 v.1.items)) }
    ensures is { IfOk result (λ v. spread (replicate (length words.now) 0) (held_in v.0 v.1.items) ≡ words.now) }
{
    let at = first_held(words, marks);
    if at >= words.len() {
        return Ok((None, Vec::new(alloc)));
    }
    let first = Held {
        at,
        word: words[at],
    };
    let rest = copied_behind(alloc, words, marks, first)?;
    Ok((Some(first), rest))
}

#[tactic(auto, using(crate::proofs::Written::zeroed_none, crate::proofs::Written::zeroed_more, crate::proofs::Written::zeroed_all))]
fn zero_marked(words: &mut Vec<u64>, marks: &Marks)
    requires held { IsHeld words.old.items marks.now }
    ensures len { length words.new.items ≡ length words.old.items }
    ensures none { (j : ℕ) → get_or words.new.items j 0 ≡ 0 }
{
    let mut i = marks.next(0);
    'words: while i < words.len() {
        words[i] = 0;
        i = marks.next(i + 1);
    }
}

/// All temporaries taken out.
#[tactic(auto, using(crate::proofs::Written::zero_held, crate::proofs::Written::zero_on, crate::proofs::Written::zero_list))]
pub(crate) fn clear_marked(words: &mut Vec<u64>, marks: &mut Marks)
    requires held { IsHeld words.old.items marks.old }
    ensures held { IsHeld words.new.items marks.new }
    ensures len { length words.new.items ≡ length words.old.items }
    ensures none { (y : ℕ) → on words.new.items y ≡ false }
    ensures list { words.new.items ≡ replicate (length words.old.items) 0 }
{
    zero_marked(words, marks);
    marks.clear();
}

/// The bits of a word put in. The answer is what the word was.
#[tactic(auto, using(crate::proofs::Written::written_other))]
fn or_word(words: &mut Vec<u64>, e: Held) -> u64
    ensures len { length words.new.items ≡ length words.old.items }
    ensures was { result ≡ get_or words.old.items e.at 0 }
    ensures others { (j : ℕ) → j < length words.old.items → j ≢ e.at → get_or words.new.items j 0 ≡ get_or words.old.items j 0 }
    ensures is { (y : ℕ) → y < room words.old.items → on words.new.items y ≡ (on words.old.items y || (eqb e.at (y / 64) && bit e.word (y % 64))) }
{
    let was = word(words.as_slice(), e.at);
    write(words, e.at, was | e.word);
    was
}

/// The same in a set.
#[tactic(auto, using(crate::proofs::Written::put_held, crate::proofs::Written::kept_held))]
fn join_word(words: &mut Vec<u64>, marks: &mut Marks, e: Held)
    requires held { IsHeld words.old.items marks.old }
    ensures held { IsHeld words.new.items marks.new }
    ensures len { length words.new.items ≡ length words.old.items }
    ensures is { (y : ℕ) → y < room words.old.items → on words.new.items y ≡ (on words.old.items y || (eqb e.at (y / 64) && bit e.word (y % 64))) }
{
    if or_word(words, e) == 0 {
        marks.put(e.at);
    }
}

/// The bits of words put in.
#[tactic(auto, using(crate::proofs::Written::or_both))]
fn join_words(words: &mut Vec<u64>, marks: &mut Marks, es: &[Held])
    requires held { IsHeld words.old.items marks.old }
    ensures held { IsHeld words.new.items marks.new }
    ensures len { length words.new.items ≡ length words.old.items }
    ensures is { (y : ℕ) → y < room words.old.items → on words.new.items y ≡ (on words.old.items y || some es.now y) }
{
    for e in es {
        join_word(words, marks, *e);
    }
}

/// The same, with the first one apart.
#[tactic(auto, using(crate::proofs::Written::or_both))]
pub(crate) fn join_all(words: &mut Vec<u64>, marks: &mut Marks, first: Option<Held>, es: &[Held])
    requires held { IsHeld words.old.items marks.old }
    ensures held { IsHeld words.new.items marks.new }
    ensures len { length words.new.items ≡ length words.old.items }
    ensures is { (y : ℕ) → y < room words.old.items → on words.new.items y ≡ (on words.old.items y || some (held_in first es.now) y) }
{
    if let Some(e) = first {
        join_word(words, marks, e);
    }
    join_words(words, marks, es);
}

/// The bits of a word taken out.
#[tactic(auto, using(crate::proofs::Written::put_held, crate::proofs::Written::written_other))]
fn leave_word(words: &mut Vec<u64>, marks: &mut Marks, e: Held)
    requires held { IsHeld words.old.items marks.old }
    ensures held { IsHeld words.new.items marks.new }
    ensures len { length words.new.items ≡ length words.old.items }
    ensures is { (y : ℕ) → y < room words.old.items → on words.new.items y ≡ (on words.old.items y && not (eqb e.at (y / 64) && bit e.word (y % 64))) }
{
    let rest = word(words.as_slice(), e.at) & !e.word;
    write(words, e.at, rest);
    marks.put(e.at);
}

/// The bits of words taken out.
#[tactic(auto, using(crate::proofs::Written::neither))]
fn leave_words(words: &mut Vec<u64>, marks: &mut Marks, es: &[Held])
    requires held { IsHeld words.old.items marks.old }
    ensures held { IsHeld words.new.items marks.new }
    ensures len { length words.new.items ≡ length words.old.items }
    ensures is { (y : ℕ) → y < room words.old.items → on words.new.items y ≡ (on words.old.items y && not (some es.now y)) }
{
    for e in es {
        leave_word(words, marks, *e);
    }
}

/// The same, with the first one apart.
#[tactic(auto, using(crate::proofs::Written::neither))]
pub(crate) fn leave_all(words: &mut Vec<u64>, marks: &mut Marks, first: Option<Held>, es: &[Held])
    requires held { IsHeld words.old.items marks.old }
    ensures held { IsHeld words.new.items marks.new }
    ensures len { length words.new.items ≡ length words.old.items }
    ensures is { (y : ℕ) → y < room words.old.items → on words.new.items y ≡ (on words.old.items y && not (some (held_in first es.now) y)) }
{
    if let Some(e) = first {
        leave_word(words, marks, e);
    }
    leave_words(words, marks, es);
}

/// A word in place of another.
#[tactic(auto, using(crate::proofs::Written::put_held, crate::proofs::Written::written_other))]
fn write_word(words: &mut Vec<u64>, marks: &mut Marks, e: Held)
    requires held { IsHeld words.old.items marks.old }
    ensures held { IsHeld words.new.items marks.new }
    ensures is { words.new.items ≡ slice_set words.old.items e.at e.word }
{
    write(words, e.at, e.word);
    marks.put(e.at);
}

/// These words in their places.
fn write_words(words: &mut Vec<u64>, marks: &mut Marks, es: &[Held])
    requires held { IsHeld words.old.items marks.old }
    ensures held { IsHeld words.new.items marks.new }
    ensures is { words.new.items ≡ spread words.old.items es.now }
{
    for e in es {
        write_word(words, marks, *e);
    }
}

/// These words in their places, and 0 elsewhere.
pub(crate) fn restore_words(
    words: &mut Vec<u64>,
    marks: &mut Marks,
    first: Option<Held>,
    es: &[Held],
)
    requires held { IsHeld words.old.items marks.old }
    ensures held { IsHeld words.new.items marks.new }
    ensures is { words.new.items ≡ spread (replicate (length words.old.items) 0) (held_in first es.now) }
{
    clear_marked(words, marks);
    if let Some(e) = first {
        write_word(words, marks, e);
    }
    write_words(words, marks, es);
}
