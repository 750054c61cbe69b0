// The memory of the processor: RAM, the program and the memory card.
use std::marker::Model;

#[derive(Drop)]
pub struct Memory {
    ram: Vec<u32>,
    program: Vec<u32>,
    card: Option<Vec<u32>>,
}

impl Model for Memory {
    ghost use Rattle.cpu_core.specs.Space.{Space, IsSized, words_of};

    ghost Value = { Space };

    ghost view = { λ m. record { ram = m.ram.items; program = m.program.items; card = words_of m.card } };

    ghost invariant = { λ m. IsSized (record { ram = m.ram.items; program = m.program.items; card = words_of m.card }) };
}

ghost use Rattle.std.specs.Prelude.{◌≡◌, ◌≤◌, ◌<◌, length, true, false, IfOk, All, nat_lt, slice_get, slice_set};
ghost use Rattle.std.specs.Option.{option_map, ForSome};
ghost use Rattle.v32_isa.specs.State.{word_at, is_writable_at, stored};
ghost use Rattle.v32_isa.specs.Runs.{opening_memory};
ghost use Rattle.cpu_core.specs.Space.{IsSized, memory_of, memory_state, words_of};

use std::alloc::{AllocError, Global};

impl Memory {
    /// RAM of zeros, the program and the card.
    pub fn open(
        alloc: Global,
        program: Vec<u32>,
        card: Option<Vec<u32>>,
    ) -> Result<Memory, AllocError>
        requires some_program { 0 < length program.items }
        requires program_room { length program.items ≤ 0x2000000 }
        requires card_room { ForSome card (λ c. length c.items ≡ 0x40000) }
        ensures program { IfOk result (λ m. m.program ≡ program.items) }
        ensures card { IfOk result (λ m. m.card ≡ words_of card) }
        ensures memory { IfOk result (λ m. memory_of m ≡ opening_memory program.items (words_of card)) }
    {
        let ram = zeros(alloc, 0x40_0000)?;
        Ok(Memory { ram, program, card })
    }

    /// The word at an address, where it can be read. RAM is tried first.
    #[inline(always)]
    pub fn read(&self, address: u32) -> Option<u32>
        ensures { result ≡ word_at (memory_state self.now) address }
    {
        if let Some(word) = word_of(&self.ram, address) {
            return Some(word);
        }
        if let Some(word) = word_of(&self.program, address.wrapping_sub(0x2000_0000)) {
            return Some(word);
        }
        match &self.card {
            Some(card) => word_of(card, address.wrapping_sub(0x3000_0000)),
            None => None,
        }
    }

    /// The same, for the words of instructions: the program is tried first.
    #[inline(always)]
    pub fn fetch(&self, address: u32) -> Option<u32>
        ensures { result ≡ word_at (memory_state self.now) address }
    {
        match word_of(&self.program, address.wrapping_sub(0x2000_0000)) {
            Some(word) => Some(word),
            None => self.read(address),
        }
    }

    /// Stores a word at an address, where it can be written, and says whether it was.
    #[inline(always)]
    pub fn write(&mut self, address: u32, word: u32) -> bool
        ensures done { result ≡ is_writable_at (memory_state self.old) address }
        ensures after { result ≡ true → memory_state self.new ≡ stored (memory_state self.old) address word }
        ensures kept { result ≡ false → memory_state self.new ≡ memory_state self.old }
    {
        if put_word(&mut self.ram, address, word) {
            return true;
        }
        let Some(card) = &mut self.card else {
            return false;
        };
        put_word(card, address.wrapping_sub(0x3000_0000), word)
    }

    /// The card's words.
    pub fn card(&self) -> Option<&[u32]>
        ensures words { option_map (λ c. c.now) result ≡ self.now.card }
        ensures sized { IsSized self.now }
    {
        match &self.card {
            Some(card) => Some(card.as_slice()),
            None => None,
        }
    }
}

/// So many words, all 0.
fn zeros(alloc: Global, n: usize) -> Result<Vec<u32>, AllocError>
    ensures len { IfOk result (λ v. length v.items ≡ n) }
    ensures zero { IfOk result (λ v. All (λ w. w ≡ 0) v.items) }
{
    Vec::from_elem(alloc, 0u32, n)
}

#[inline(always)]
fn word_of(words: &[u32], place: u32) -> Option<u32>
    ensures { result ≡ slice_get words.now place }
{
    words.get(place as usize).copied()
}

/// Puts a word at a place, where there is one, and says whether there was.
#[inline(always)]
fn put_word(words: &mut Vec<u32>, place: u32, word: u32) -> bool
    ensures done { result ≡ nat_lt place (length words.old.items) }
    ensures after { result ≡ true → words.new.items ≡ slice_set words.old.items place word }
    ensures kept { result ≡ false → words.new.items ≡ words.old.items }
{
    let place = place as usize;
    if place >= words.len() {
        return false;
    }
    words[place] = word;
    true
}
