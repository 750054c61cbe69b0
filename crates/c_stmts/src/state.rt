// What the statements of a function change.
ghost use Rattle.std.specs.Prelude.{◌≡◌, ◌+◌, ◌≤◌, ◌<◌, ◌^◌, ◌++◌, ◌∷◌, [], true, length, OnOk, IfOk, OnErr};
ghost use Rattle.c_types.specs.View.{ctype};
ghost use Rattle.c_stmts.specs.State.{opened, left, made, is_new, declare, sized};
ghost use Rattle.c_stmts.specs.View.{st};

use crate::scopes::{close, declare, is_new};
use crate::sizes::Sizes;
use c_exprs::{CheckErr, Scope, Texts};
use c_types::CType;
use kit_base::{Memory, Name};
use std::alloc::Global;

/// The open scopes, the innermost last; the sizes of the call's objects, by their numbers; the words of those that are variables, not
/// parameters; the texts of the unit so far.
#[derive(Drop)]
pub struct State {
    pub scopes: Vec<Scope>,
    pub(crate) sizes: Sizes,
    pub(crate) used: u32,
    pub texts: Texts,
}

impl State {
    /// The state before a function: no scope is open, and there is no object.
    pub fn new(alloc: Global, texts: Texts) -> State
        ensures start { st result ≡ record { scopes = []; sizes = []; used = 0; texts = texts } }
    {
        State {
            scopes: Vec::new(alloc),
            sizes: Sizes::new(alloc),
            used: 0,
            texts,
        }
    }

    /// Opens a scope. The error is want of memory.
    pub fn open(&mut self, alloc: Global) -> Result<(), Memory>
        ensures opened { OnOk result (st self.new ≡ opened (st self.old)) }
    {
        self.scopes.push(Scope::new(alloc))?;
        Ok(())
    }

    /// Whether the innermost scope does not have the name.
    pub fn is_new(&self, name: &Name) -> bool
        ensures new { result ≡ is_new name.now (st self.now) }
    {
        is_new(name, &self.scopes)
    }

    /// Declares a parameter as the next object, where there are fewer than 2^32, in the innermost scope, under a name that this does not have, with
    /// its size in words. The error is want of memory, and then the state is of no further use.
    pub fn add_object(
        &mut self,
        alloc: Global,
        name: &Name,
        size: u32,
        ty: CType,
    ) -> Result<(), Memory>
        requires new { is_new name.now (st self.old) ≡ true }
        requires room { length (st self.old).sizes < 2 ^ 32 }
        ensures added { OnOk result (st self.new ≡ record {
          scopes = declare name.now (record { number = length (st self.old).sizes; ty = ctype ty }) (st self.old).scopes;
          sizes = (st self.old).sizes ++ size
              ∷ [];
          used = (st self.old).used;
          texts = (st self.old).texts;
        }) }
    {
        let number = self.sizes.next();
        declare(alloc, &mut self.scopes, name, number, ty)?;
        self.sizes.add(size)
    }

    /// Keeps the size in words of the next object, which is a variable. The error is want of memory.
    pub(crate) fn add_variable(&mut self, size: u32) -> Result<(), Memory>
        requires words { (st self.old).used + size ≤ 1000000 }
        requires room { length (st self.old).sizes < 2 ^ 32 }
        ensures sized { OnOk result (st self.new ≡ sized size (st self.old)) }
    {
        self.sizes.add(size)?;
        self.used += size;
        Ok(())
    }

    /// Closes the innermost scope, and gives the numbers of its objects in the order of their declarations. The error is want of
    /// memory.
    pub fn close(&mut self, alloc: Global) -> Result<Vec<u32>, Memory>
        ensures made { IfOk result (λ r. r.items ≡ made (st self.old)) }
        ensures left { OnOk result (st self.new ≡ left (st self.old)) }
    {
        close(alloc, &mut self.scopes)
    }

    /// The sizes of the objects, by their numbers, and the texts.
    pub fn into_parts(self) -> (Vec<u32>, Texts)
        ensures sizes { result.0.items ≡ (st self).sizes }
        ensures texts { result.1 ≡ (st self).texts }
    {
        let State {
            scopes: _,
            sizes,
            used: _,
            texts,
        } = self;
        (sizes.into_vec(), texts)
    }
}

/// An answer, behind which the state is that before a function without texts, where it is a refusal.
pub(crate) fn kept_state<T: Drop>(
    alloc: Global,
    state: &mut State,
    answer: Result<T, CheckErr>,
) -> Result<T, CheckErr>
    ensures same { result ≡ answer }
    ensures kept { OnOk result (st state.new ≡ st state.old) }
    ensures refused { OnErr result (st state.new ≡ record { scopes = []; sizes = []; used = 0; texts = [] }) }
{
    match answer {
        Ok(found) => Ok(found),
        Err(error) => {
            *state = State::new(alloc, Texts::new(alloc));
            Err(error)
        }
    }
}
