// What the lowering reads of a program, beside the tree that it goes over.
ghost use Rattle.std.specs.Prelude.{◌≡◌, ◌≤◌, ◌+◌, length, sum_by};
ghost use Rattle.c_types.specs.View.{ctype, function};
ghost use Rattle.c_types.specs.Parts.{part_type};
ghost use Rattle.c_types.specs.View.{or_void};
ghost use Rattle.lower_trees.specs.inner.MaybeTypes.{or_none};

use c_types::{CType, Layout, TFunction, part_type, wrapped_size};
use kit_base::Name;
use std::alloc::Global;

/// The structures and unions, the functions and the text literals by their numbers. The texts have at most 4,000,000 words.
#[derive(Drop)]
pub struct Reading<'a> {
    pub alloc: Global,
    pub layouts: &'a [Layout],
    pub functions: &'a [TFunction],
    pub literals: &'a [Name],
    ghost texts: { sum_by (λ t. length t + 1) literals.now ≤ 4000000 },
}

impl<'a> Reading<'a> {
    ghost use Rattle.lower_trees.specs.Shape.{words, literal_words, params_of, result_of};
    ghost use Rattle.lower_trees.specs.View.{shape_of};

    pub(crate) fn words(&self, ty: &CType) -> u32
        ensures { result ≡ words (shape_of self.now) (ctype ty.now) }
    {
        wrapped_size(self.layouts, ty)
    }

    /// The words of a type, or of none.
    pub(crate) fn words_or(&self, ty: Option<&CType>) -> u32
        ensures { result ≡ words (shape_of self.now) (or_void ty.entry) }
    {
        match ty {
            None => 0,
            Some(ty) => self.words(ty),
        }
    }

    /// The type of a part of an array, a structure or a union; none where there is no such part.
    pub(crate) fn part(&self, ty: Option<&'a CType>, k: usize) -> Option<&'a CType>
        ensures { or_void result ≡ part_type (shape_of self.now).layouts (or_void ty.entry) k }
    {
        match ty {
            None => None,
            Some(ty) => part_type(self.layouts, ty, k),
        }
    }

    /// The words of a text literal, with its 0.
    pub(crate) fn literal_words(&self, number: u32) -> u32
        ensures { result ≡ literal_words (shape_of self.now) number }
    {
        match self.literals.get(number as usize) {
            None => 0,
            Some(text) => text.bytes().len() as u32 + 1,
        }
    }

    /// The types of the parameters of a function; none where there is no such function.
    pub(crate) fn params(&self, f: u32) -> Option<&'a [CType]>
        ensures { or_none result ≡ params_of (shape_of self.now) f }
    {
        match self.functions.get(f as usize) {
            None => None,
            Some(g) => Some(g.params.as_slice()),
        }
    }

    /// The type of what a function gives; none where there is no such function.
    pub(crate) fn result(&self, f: u32) -> Option<&'a CType>
        ensures { or_void result ≡ result_of (shape_of self.now) f }
    {
        match self.functions.get(f as usize) {
            None => None,
            Some(g) => Some(&g.result),
        }
    }
}
