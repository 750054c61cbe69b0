// A set of temporaries that is changed in place, and what it was at some point.
use crate::marked::{
    clear_marked, copied, join_all, leave_all, put_marked, restore_words, strike_marked,
};
use crate::marks::Marks;
use crate::words::{Held, gone_from, has_bit};
use kit_base::Memory;
use std::alloc::Global;
use std::marker::Model;

/// A set of temporaries, by words of bits. What a change or a copy of it takes is told by the words that are not 0.
#[derive(Drop)]
pub struct Live {
    words: Vec<u64>,
    marks: Marks,
}

impl Model for Live {
    ghost use Rattle.std.specs.Prelude.{ℕ, List};

    ghost Value = { List ℕ };

    ghost use Rattle.mid_live.specs.inner.Words.{IsHeld};

    ghost view = { λ s. s.words.items };

    ghost invariant = { λ s. IsHeld s.words.items s.marks };
}

/// What a set was. Its first word that is not 0 stands apart from the others, so that a copy of few temporaries takes no memory of its own.
#[derive(Drop)]
pub struct Kept {
    len: usize,
    first: Option<Held>,
    others: Vec<Held>,
}

impl Model for Kept {
    ghost use Rattle.std.specs.Prelude.{ℕ, List, replicate, ◌≤◌};

    ghost Value = { List ℕ };

    ghost use Rattle.mid_live.specs.inner.Words.{held_in, FreshIn, spread};

    ghost view = { λ k. spread (replicate k.len 0) (held_in k.first k.others.items) };

    ghost invariant = { λ k. (k.len ≤ 0x400_0000) × FreshIn (replicate k.len 0) (held_in k.first k.others.items) };
}

ghost use Rattle.std.specs.Prelude.{◌≡◌, ℕ, ◌<◌, ◌≤◌, ◌||◌, ◌&&◌, not, false, cond, eqb, length, IfOk};
ghost use Rattle.mid_code.specs.Live.{is_among};
ghost use Rattle.mid_live.specs.Sets.{on, room};

impl Live {
    /// A set of none of so many temporaries. Want of memory is also the answer for more than 2^32 of them.
    pub fn none(alloc: Global, count: usize) -> Result<Live, Memory>
        ensures room { IfOk result (λ s. count ≤ room s) }
        ensures is { IfOk result (λ s. (y : ℕ) → on s y ≡ false) }
    {
        if count > 0xffff_ffff {
            return Err(Memory);
        }
        let mut words = Vec::new(alloc);
        words.resize(count / 64 + 1, 0)?;
        let marks = Marks::none(alloc, words.len())?;
        Ok(Live { words, marks })
    }

    /// Whether a temporary is in the set.
    pub fn has(&self, x: usize) -> bool
        ensures { result ≡ on self.now x }
    {
        has_bit(self.words.as_slice(), x)
    }

    /// Puts a temporary in.
    pub fn put(&mut self, x: usize)
        ensures len { length self.new ≡ length self.old }
        ensures is { (y : ℕ) → y < room self.old → on self.new y ≡ (eqb x y || on self.old y) }
    {
        put_marked(&mut self.words, &mut self.marks, x);
    }

    /// Takes a temporary out.
    pub fn strike(&mut self, x: usize)
        ensures len { length self.new ≡ length self.old }
        ensures is { (y : ℕ) → y < room self.old → on self.new y ≡ cond (eqb x y) false (on self.old y) }
    {
        strike_marked(&mut self.words, &mut self.marks, x);
    }

    /// Takes all out.
    pub fn clear(&mut self)
        ensures len { length self.new ≡ length self.old }
        ensures is { (y : ℕ) → on self.new y ≡ false }
    {
        clear_marked(&mut self.words, &mut self.marks);
    }

    /// Puts in what another set had.
    pub fn join(&mut self, other: &Kept)
        ensures len { length self.new ≡ length self.old }
        ensures is { (y : ℕ) → y < room self.old → on self.new y ≡ (on self.old y || on other.now y) }
    {
        let others = other.others.as_slice();
        join_all(&mut self.words, &mut self.marks, other.first, others);
    }

    /// Takes out what another set had.
    pub fn leave(&mut self, other: &Kept)
        ensures len { length self.new ≡ length self.old }
        ensures is { (y : ℕ) → y < room self.old → on self.new y ≡ (on self.old y && not (on other.now y)) }
    {
        let others = other.others.as_slice();
        leave_all(&mut self.words, &mut self.marks, other.first, others);
    }

    /// Makes it what another set was, which may have room for fewer or for more.
    pub fn set_to(&mut self, other: &Kept)
        ensures len { length self.new ≡ length self.old }
        ensures is { (y : ℕ) → y < room self.old → on self.new y ≡ on other.now y }
    {
        self.clear();
        self.join(other);
    }

    /// Makes it what it was.
    pub fn restore(&mut self, was: &Kept)
        requires len { length self.old ≡ length was.now }
        ensures { self.new ≡ was.now }
    {
        let others = was.others.as_slice();
        restore_words(&mut self.words, &mut self.marks, was.first, others);
    }

    /// What the set is now.
    pub fn kept(&self, alloc: Global) -> Result<Kept, Memory>
        ensures { IfOk result (λ k. k ≡ self.now) }
    {
        let len = self.words.len();
        let (first, others) = copied(alloc, self.words.as_slice(), &self.marks)?;
        Ok(Kept { len, first, others })
    }
}

impl Kept {
    /// A set of none.
    pub fn none(alloc: Global) -> Kept
        ensures { (y : ℕ) → on result y ≡ false }
    {
        Kept {
            len: 0,
            first: None,
            others: Vec::new(alloc),
        }
    }

    /// The temporaries of this set that are not in the other one.
    pub fn less(&self, alloc: Global, other: &Live) -> Result<Vec<u32>, Memory>
        ensures { IfOk result (λ v. (y : ℕ) → is_among v.items y ≡ (on self.now y && not (on other.now y))) }
    {
        let others = self.others.as_slice();
        let found = gone_from(alloc, self.first, others, other.words.as_slice())?;
        Ok(found)
    }
}
