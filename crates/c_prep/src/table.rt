// The table of macros.
ghost use Rattle.std.specs.Prelude.{◌≡◌, ◌++◌, ◌∷◌, [], false, is_some, option_copied, Ok};
ghost use Rattle.c_prep.specs.Faults.{Gives};
ghost use Rattle.c_prep.specs.Kinds.{kinds_of};
ghost use Rattle.c_prep.specs.Macros.{body_of, defined, undefined};

use crate::error::{Fault, StepErr, fault_at};
use crate::kinds::{copied_kinds, same_kinds};
use c_lex::{Kind, Token};
use indexmap::IndexMap;
use kit_base::{Name, Seq};
use std::alloc::Global;
use std::marker::Model;

/// Macros with the kinds of their tokens, in the order of their definitions.
#[derive(Drop)]
pub struct Macros {
    table: IndexMap<Name, Seq<Kind>>,
}

impl Model for Macros {
    ghost use Rattle.std.specs.Prelude.{ℕ, List};
    ghost use Rattle.c_lex.specs.declared.token.Kind.{Kind};

    ghost Value = { List (List ℕ × List Kind) };

    ghost view = { λ m. m.table.entries };
}

impl Macros {
    pub fn new(alloc: Global) -> Macros
        ensures { result ≡ [] }
    {
        Macros {
            table: IndexMap::new(alloc),
        }
    }

    /// What a macro of that name stands for.
    pub fn body_of(&self, name: &Name) -> Option<&[Kind]>
        ensures { option_copied result ≡ body_of self.now name.now }
    {
        match self.table.get(name) {
            Some(body) => Some(body.as_slice()),
            None => None,
        }
    }

    pub fn is_defined(&self, name: &Name) -> bool
        ensures { result ≡ is_some (body_of self.now name.now) }
    {
        self.body_of(name).is_some()
    }

    /// Adds a macro that there is not yet.
    fn add(&mut self, alloc: Global, name: &Name, body: &[Token]) -> Result<(), StepErr>
        requires { is_some (body_of self.old name.now) ≡ false }
        ensures { Gives self.new result (Ok (self.old ++ (name.now, kinds_of body.now) ∷ [])) }
    {
        let key = name.copy()?;
        let kinds = copied_kinds(alloc, body)?;
        self.table.insert(key, Seq::from_vec(kinds))?;
        Ok(())
    }

    /// Defines a macro, in the directive of that `#`.
    pub fn define(
        &mut self,
        alloc: Global,
        hash: &Token,
        name: &Name,
        body: &[Token],
    ) -> Result<(), StepErr>
        ensures { Gives self.new result (defined hash.now name.now (kinds_of body.now) self.old) }
    {
        match self.body_of(name) {
            Some(old) => {
                if same_kinds(old, body) {
                    Ok(())
                } else {
                    Err(StepErr::Cause(fault_at(Fault::Redefined, hash)))
                }
            }
            None => self.add(alloc, name, body),
        }
    }

    pub fn undefine(&mut self, name: &Name)
        ensures { self.new ≡ undefined name.now self.old }
    {
        let _taken = self.table.shift_remove(name);
    }
}
