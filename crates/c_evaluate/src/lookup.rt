// What is read of a program and of the sizes of its frames.
ghost use Rattle.std.specs.Prelude.{◌≡◌, slice_get, option_map, ◌+◌, leb, length};
ghost use Rattle.c_types.specs.View.{function, ctype};
ghost use Rattle.obj_mem.specs.Stores.{ram_words, words_here};
ghost use Rattle.c_meaning.specs.Setting.{words, literal_at, literal_words, card_at, result_of};
ghost use Rattle.c_meaning.specs.Expressions.{params_of};
ghost use Rattle.c_types.specs.Parts.{part_type};
ghost use Rattle.c_evaluate.specs.inner.SettingView.{setting_of};
ghost use Rattle.c_types.specs.View.{or_void};

use crate::setting::Setting;
use c_types::{CType, TFunction, part_type, wrapped_size};
use obj_mem::Cell;

impl<'a> Setting<'a> {
    /// The words of a type.
    pub(crate) fn words(&self, ty: &CType) -> u32
        ensures { result ≡ words (setting_of self.now) (ctype ty.now) }
    {
        wrapped_size(self.checked.layouts(), ty)
    }

    /// The type of a part of an array, a structure or a union; none where there is no such part.
    pub(crate) fn part_type(&self, ty: &'a CType, k: usize) -> Option<&'a CType>
        ensures { or_void result ≡ part_type (setting_of self.now).layouts (ctype ty.now) k }
    {
        part_type(self.checked.layouts(), ty, k)
    }

    pub(crate) fn function(&self, f: u32) -> Option<&'a TFunction>
        ensures { option_map (λ g. function g.now) result ≡ slice_get (setting_of self.now).functions f }
    {
        self.checked.functions().get(f as usize)
    }

    /// The type of a parameter.
    pub(crate) fn parameter(&self, f: u32, k: usize) -> Option<&'a CType>
        ensures { option_map (λ ty. ctype ty.now) result ≡ slice_get (params_of (slice_get (setting_of self.now).functions f)) k }
    {
        match self.function(f) {
            None => None,
            Some(g) => g.params.as_slice().get(k),
        }
    }

    /// The type of what a function gives.
    pub(crate) fn result_of(&self, f: Option<u32>) -> Option<&'a CType>
        ensures { or_void result ≡ result_of (setting_of self.now) f }
    {
        match f {
            None => None,
            Some(number) => match self.function(number) {
                None => None,
                Some(g) => Some(&g.result),
            },
        }
    }

    /// The words of a local of a function.
    pub(crate) fn local_words(&self, f: Option<u32>, k: u32) -> u32
        ensures { result ≡ words_here (setting_of self.now).sizes f k }
    {
        let Some(number) = f else {
            return 0;
        };
        match self.function(number) {
            None => 0,
            Some(g) => match g.locals.as_slice().get(k as usize) {
                None => 0,
                Some(words) => *words,
            },
        }
    }

    /// The words of the locals of a function.
    pub(crate) fn locals(&self, f: u32) -> &'a [u32]
        ensures { result.now ≡ (setting_of self.now).sizes.locals f }
    {
        match self.function(f) {
            None => &[],
            Some(g) => g.locals.as_slice(),
        }
    }

    /// How many locals a function has.
    pub(crate) fn local_count(&self, f: u32) -> usize
        ensures { result ≡ length ((setting_of self.now).sizes.locals f) }
    {
        match self.function(f) {
            None => 0,
            Some(g) => g.locals.as_slice().len(),
        }
    }

    pub(crate) fn frame(&self, f: u32) -> u32
        ensures { result ≡ (setting_of self.now).sizes.frame f }
    {
        match self.frames.get(f as usize) {
            None => 0,
            Some(words) => *words,
        }
    }

    /// Where a text literal stands.
    pub(crate) fn literal_at(&self, number: u32) -> Cell
        ensures { result ≡ literal_at (setting_of self.now) number }
    {
        Cell::Ptr {
            object: self.checked.globals().len() as u64 + u64::from(number),
            offset: 0,
        }
    }

    /// The words of a text literal, with its 0.
    pub(crate) fn literal_words(&self, number: u32) -> usize
        ensures { result ≡ literal_words (setting_of self.now) number }
    {
        match self.checked.literals().get(number as usize) {
            None => 0,
            Some(text) => text.bytes().len() + 1,
        }
    }

    /// Where the card stands.
    pub(crate) fn card_at(&self) -> Cell
        ensures { result ≡ card_at (setting_of self.now) }
    {
        Cell::Ptr {
            object: self.checked.globals().len() as u64 + self.checked.literals().len() as u64,
            offset: 0,
        }
    }

    /// Whether there is room for one more frame beside `used` words of frames.
    #[tactic(auto, using(crate::proofs::Wrapping::room_capped))]
    pub(crate) fn has_room(&self, f: u32, used: u32) -> bool
        ensures { result ≡ leb (used + ((setting_of self.now).sizes.frame f + 2) + (setting_of self.now).sizes.globals) ram_words }
    {
        u64::from(used) + u64::from(self.frame(f)) + 2 + u64::from(self.globals) <= 4_194_304
    }
}
