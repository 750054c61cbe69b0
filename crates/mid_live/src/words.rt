// Words of bits, and which of them may be other than 0.
ghost use Rattle.std.specs.Prelude.{◌≡◌, ◌≢◌, ℕ, ◌+◌, ◌*◌, ◌/◌, ◌%◌, ◌<◌, ◌≤◌, ◌||◌, ◌&&◌, not, false, cond, eqb, length, get_or, replicate};
ghost use Rattle.std.specs.Prelude.{slice_set, All, IfOk, OnOk, IfSome};
ghost use Rattle.mid_code.specs.Live.{is_among};
ghost use Rattle.mid_live.specs.Sets.{on, room};
ghost use Rattle.mid_live.specs.inner.Words.{bit, some, held_in, IsHeld, FreshIn, spread};
ghost use Rattle.mid_live.specs.declared.words.Held.{Held};

use kit_base::Memory;
use std::alloc::Global;

/// A word of bits, by its number.
#[derive(Clone, Copy)]
pub(crate) struct Held {
    pub(crate) at: usize,
    pub(crate) word: u64,
}

pub(crate) fn word(ws: &[u64], i: usize) -> u64
    ensures { result ≡ get_or ws.now i 0 }
{
    if i < ws.len() { ws[i] } else { 0 }
}

#[tactic(auto, using(crate::proofs::Bits::has_is))]
pub(crate) fn has_bit(ws: &[u64], x: usize) -> bool
    ensures { result ≡ on ws.now x }
{
    (word(ws, x / 64) >> (x % 64)) & 1 == 1
}

/// A word, written where it is there.
#[tactic(auto, using(crate::proofs::Written::written_in, crate::proofs::Written::written_past, crate::proofs::Written::set_past))]
pub(crate) fn write(ws: &mut Vec<u64>, i: usize, w: u64)
    ensures len { length ws.new.items ≡ length ws.old.items }
    ensures list { ws.new.items ≡ slice_set ws.old.items i w }
    ensures is { (j : ℕ) → j < length ws.old.items → get_or ws.new.items j 0 ≡ cond (eqb j i) w (get_or ws.old.items j 0) }
{
    if i < ws.len() {
        ws[i] = w;
    }
}

pub(crate) fn put_bit(ws: &mut Vec<u64>, x: usize)
    ensures len { length ws.new.items ≡ length ws.old.items }
    ensures is { (y : ℕ) → y < room ws.old.items → on ws.new.items y ≡ (eqb x y || on ws.old.items y) }
    ensures others { (j : ℕ) → j ≢ x / 64 → get_or ws.new.items j 0 ≡ get_or ws.old.items j 0 }
{
    if x / 64 < ws.len() {
        ws[x / 64] = ws[x / 64] | 1 << (x % 64);
    }
}

pub(crate) fn strike_bit(ws: &mut Vec<u64>, x: usize)
    ensures len { length ws.new.items ≡ length ws.old.items }
    ensures is { (y : ℕ) → y < room ws.old.items → on ws.new.items y ≡ cond (eqb x y) false (on ws.old.items y) }
    ensures others { (j : ℕ) → j ≢ x / 64 → get_or ws.new.items j 0 ≡ get_or ws.old.items j 0 }
    ensures less { get_or ws.new.items (x / 64) 0 ≤ get_or ws.old.items (x / 64) 0 }
{
    if x / 64 < ws.len() {
        ws[x / 64] = ws[x / 64] & !(1 << (x % 64));
    }
}

/// A bit put in. A word that is not 0 has its bit already.
#[tactic(auto, using(crate::proofs::Written::put_held, crate::proofs::Written::kept_held))]
pub(crate) fn put_in(words: &mut Vec<u64>, held: &mut Vec<u64>, x: usize)
    requires held { IsHeld words.old.items held.old.items }
    ensures held { IsHeld words.new.items held.new.items }
    ensures len { length words.new.items ≡ length words.old.items }
    ensures is { (y : ℕ) → y < room words.old.items → on words.new.items y ≡ (eqb x y || on words.old.items y) }
{
    let was = word(words.as_slice(), x / 64);
    put_bit(words, x);
    if was == 0 {
        put_bit(held, x / 64);
    }
}

/// A bit taken out.
#[tactic(auto, using(crate::proofs::Written::less_held, crate::proofs::Written::strike_held))]
pub(crate) fn strike_from(words: &mut Vec<u64>, held: &mut Vec<u64>, x: usize)
    requires held { IsHeld words.old.items held.old.items }
    ensures held { IsHeld words.new.items held.new.items }
    ensures len { length words.new.items ≡ length words.old.items }
    ensures is { (y : ℕ) → y < room words.old.items → on words.new.items y ≡ cond (eqb x y) false (on words.old.items y) }
{
    strike_bit(words, x);
    if word(words.as_slice(), x / 64) == 0 {
        strike_bit(held, x / 64);
    }
}

/// No bit stands from this one on and below the answer.
fn next_bit(held: &[u64], i: usize) -> usize
    requires few { i ≤ 0x1000_0000 }
    ensures from { i ≤ result }
    ensures few { result ≤ i + 64 }
    ensures none { (j : ℕ) → i ≤ j → j < result → on held.now j ≡ false }
{
    let w = word(held, i / 64) >> (i % 64);
    if w == 0 {
        64 * (i / 64 + 1)
    } else {
        i + w.trailing_zeros() as usize
    }
}

/// No bit of words with bits for them stands from this one on and below the answer. It is the next bit, where a held word is the next one that is not 0.
pub(crate) fn next_held(words: &[u64], held: &[u64], i: usize) -> usize
    requires held { IsHeld words.now held.now }
    requires few { i ≤ 0x800_0000 }
    ensures from { i ≤ result }
    ensures few { result ≤ i + 4224 }
    ensures none { (j : ℕ) → i ≤ j → j < result → on words.now j ≡ false }
{
    let w = word(words, i / 64) >> (i % 64);
    if w == 0 {
        let next = next_bit(held, i / 64 + 1);
        next_bit(words, 64 * next)
    } else {
        i + w.trailing_zeros() as usize
    }
}

#[tactic(auto, using(crate::proofs::Written::zeroed_none, crate::proofs::Written::zeroed_more, crate::proofs::Written::zeroed_all))]
fn zero_words(words: &mut Vec<u64>, held: &[u64])
    requires held { IsHeld words.old.items held.now }
    ensures len { length words.new.items ≡ length words.old.items }
    ensures none { (j : ℕ) → get_or words.new.items j 0 ≡ 0 }
{
    let mut i = next_bit(held, 0);
    'words: while i < words.len() {
        words[i] = 0;
        i = next_bit(held, i + 1);
    }
}

fn zero_all(ws: &mut Vec<u64>)
    ensures len { length ws.new.items ≡ length ws.old.items }
{
    let mut i = 0;
    'words: while i < ws.len() {
        ws[i] = 0;
        i += 1;
    }
}

/// All bits taken out.
#[tactic(auto, using(crate::proofs::Written::zero_held, crate::proofs::Written::zero_on, crate::proofs::Written::zero_list))]
pub(crate) fn clear_words(words: &mut Vec<u64>, held: &mut Vec<u64>)
    requires held { IsHeld words.old.items held.old.items }
    ensures held { IsHeld words.new.items held.new.items }
    ensures len { length words.new.items ≡ length words.old.items }
    ensures none { (y : ℕ) → on words.new.items y ≡ false }
    ensures list { words.new.items ≡ replicate (length words.old.items) 0 }
{
    zero_words(words, held.as_slice());
    zero_all(held);
}

#[tactic(auto, using(crate::proofs::Bits::is_bit_is))]
fn is_bit(w: u64, b: usize) -> bool
    requires inside { b < 64 }
    ensures { result ≡ bit w b }
{
    (w >> b) & 1 == 1
}

/// The numbers of the bits of a word, from one that it has to the next.
#[tactic(auto, using(crate::proofs::Written::placed_bits))]
fn push_bits(found: &mut Vec<u32>, at: usize, w: u64) -> Result<(), Memory>
    requires few { at < 0x400_0000 }
    ensures { OnOk result ((y : ℕ) → is_among found.new.items y ≡ (is_among found.old.items y || (eqb at (y / 64) && bit w (y % 64)))) }
{
    let one = [w];
    let mut b = next_bit(&one, 0);
    'bits: while b < 64 {
        let k = b;
        b = next_bit(&one, k + 1);
        if is_bit(w, k) {
            found.push((64 * at + k) as u32)?;
        }
    }
    Ok(())
}

/// The numbers of the bits of a word that other words have not.
#[tactic(auto, using(crate::proofs::Written::push_none, crate::proofs::Written::push_some))]
fn push_left(found: &mut Vec<u32>, e: Held, words: &[u64]) -> Result<(), Memory>
    requires few { e.at < 0x400_0000 }
    ensures { OnOk result ((y : ℕ) → is_among found.new.items y
        ≡ (is_among found.old.items y || ((eqb e.at (y / 64) && bit e.word (y % 64)) && not (on words.now y)))) }
{
    let left = e.word & !word(words, e.at);
    if left == 0 {
        return Ok(());
    }
    push_bits(found, e.at, left)?;
    Ok(())
}

/// Those whose bits stand in words and not in others, behind those found before.
#[tactic(auto, using(crate::proofs::Written::less_turn))]
fn push_gone(found: &mut Vec<u32>, es: &[Held], words: &[u64]) -> Result<(), Memory>
    requires few { All (λ (e : Held). e.at < 0x400_0000) es.now }
    ensures { OnOk result ((y : ℕ) → is_among found.new.items y ≡ (is_among found.old.items y || (some es.now y && not (on words.now y)))) }
{
    for e in es {
        push_left(found, *e, words)?;
    }
    Ok(())
}

/// Those whose bits stand in the first words and not in the others.
#[tactic(auto, using(crate::proofs::Written::less_turn))]
pub(crate) fn gone_from(
    alloc: Global,
    first: Option<Held>,
    es: &[Held],
    words: &[u64],
) -> Result<Vec<u32>, Memory>
    requires first { IfSome first (λ e. e.at < 0x400_0000) }
    requires few { All (λ (e : Held). e.at < 0x400_0000) es.now }
    ensures { IfOk result (λ v. (y : ℕ) → is_among v.items y ≡ (some (held_in first es.now) y && not (on words.now y))) }
{
    let mut found = Vec::new(alloc);
    if let Some(e) = first {
        push_left(&mut found, e, words)?;
    }
    push_gone(&mut found, es, words)?;
    Ok(found)
}
