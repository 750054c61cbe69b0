// What is read of a program and of the sizes of its frames.
ghost use Rattle.std.specs.Prelude.{◌≡◌, ◌+◌, IfNone, IfSome, leb};
ghost use Rattle.obj_mem.specs.declared.cell.Cell.TheVariants.{Ptr};
ghost use Rattle.obj_mem.specs.Stores.{words_here, ram_words};
ghost use Rattle.mid_code.specs.Functions.{function, nodes};
ghost use Rattle.mid_code.specs.States.{function_at, no_function};
ghost use Rattle.mid_evaluate.specs.View.{code_of, sizes};

use crate::setting::Setting;
use mid_code::{Function, Node};
use obj_mem::Cell;

fn pointer(object: u64) -> Cell
    ensures { result ≡ Ptr object 0 }
{
    Cell::Ptr { object, offset: 0 }
}

impl<'a> Setting<'a> {
    #[tactic(auto, using(crate::proofs::Ends::none_there, crate::proofs::Ends::one_there))]
    fn function(&self, f: u32) -> Option<&'a Function<u32>>
        ensures none { IfNone result (function_at (code_of self.now) f ≡ no_function) }
        ensures some { IfSome result (λ g. function_at (code_of self.now) f ≡ function g.now) }
    {
        self.of.functions.as_slice().get(f as usize)
    }

    /// The places of a function's arguments.
    pub(crate) fn params(&self, f: u32) -> &'a [u32]
        ensures { result.now ≡ (function_at (code_of self.now) f).params }
    {
        match self.function(f) {
            None => &[],
            Some(g) => g.params.as_slice(),
        }
    }

    /// The words of a function's locals.
    pub(crate) fn locals(&self, f: u32) -> &'a [u32]
        ensures { result.now ≡ (function_at (code_of self.now) f).locals }
    {
        match self.function(f) {
            None => &[],
            Some(g) => g.locals.as_slice(),
        }
    }

    /// A function's nodes.
    pub(crate) fn body(&self, f: u32) -> &'a [Node<u32>]
        ensures { nodes result.now ≡ (function_at (code_of self.now) f).body }
    {
        match self.function(f) {
            None => &[],
            Some(g) => g.body.as_slice(),
        }
    }

    /// The words of a local of a function.
    pub(crate) fn local_words(&self, f: Option<u32>, k: u32) -> u32
        ensures { result ≡ words_here (sizes self.now) f k }
    {
        let Some(number) = f else {
            return 0;
        };
        match self.locals(number).get(k as usize) {
            None => 0,
            Some(words) => *words,
        }
    }

    pub(crate) fn frame(&self, f: u32) -> u32
        ensures { result ≡ (sizes self.now).frame f }
    {
        match self.frames.get(f as usize) {
            None => 0,
            Some(words) => *words,
        }
    }

    /// Where a text literal stands.
    pub(crate) fn literal_at(&self, number: u32) -> Cell
        ensures { result ≡ Ptr ((sizes self.now).first_literal + number) 0 }
    {
        pointer(self.of.globals.as_slice().len() as u64 + u64::from(number))
    }

    /// Where the card stands.
    pub(crate) fn card_at(&self) -> Cell
        ensures { result ≡ Ptr (sizes self.now).card 0 }
    {
        let globals = self.of.globals.as_slice().len() as u64;
        pointer(globals + self.of.literals.as_slice().len() as u64)
    }

    /// Whether there is room for one more frame beside `used` words of frames.
    pub(crate) fn has_room(&self, f: u32, used: u32) -> bool
        ensures { result ≡ leb (used + ((sizes self.now).frame f + 2) + (sizes self.now).globals) ram_words }
    {
        u64::from(used) + (u64::from(self.frame(f)) + 2) + u64::from(self.globals) <= 4_194_304
    }
}
