// What names mean.
ghost use Rattle.std.specs.Prelude.{◌≡◌, [], ◌∷◌, ◌++◌, None, IfOk, OnOk, OnErr, map, option_map, option_copied};
ghost use Rattle.indexmap.specs.IndexMap.{values};
ghost use Rattle.c_exprs.specs.Env.{find, find_in};
ghost use Rattle.c_exprs.specs.View.{local, decl, scope, names, bodies};

use c_rules::Counted;
use c_types::{CType, Layout};
use indexmap::IndexMap;
use kit_base::{Memory, Name, Seq};
use std::alloc::{AllocError, Global};

/// An object of a function's call: its number there, and its type.
#[derive(Drop)]
pub struct Local {
    pub number: u32,
    pub ty: CType,
}

/// What a name of the unit is declared as: a type, with its elements, an enumerator, an object with its number, a function.
#[derive(Drop)]
pub enum Decl {
    Alias(Counted),
    Constant(u32),
    Object(u32, CType),
    Function(Seq<CType>, CType),
}

/// The names of the unit so far: the layouts of structures and unions with whether each is declared whole, what names are declared as,
/// and the numbers of the functions with a body in the whole unit.
#[derive(Drop)]
pub struct Globals {
    pub layouts: Vec<Layout>,
    pub whole: Vec<bool>,
    names: IndexMap<Name, Decl>,
    bodies: IndexMap<Name, u32>,
}

/// The objects that one scope declares, in the order of their declarations.
#[derive(Drop)]
pub struct Scope {
    names: IndexMap<Name, Local>,
}

impl Globals {
    /// A unit of which nothing is declared yet.
    pub fn new(alloc: Global) -> Globals
        ensures layouts { result.layouts.items ≡ [] }
        ensures whole { result.whole.items ≡ [] }
        ensures names { names result ≡ [] }
        ensures bodies { bodies result ≡ [] }
    {
        Globals {
            layouts: Vec::new(alloc),
            whole: Vec::new(alloc),
            names: IndexMap::new(alloc),
            bodies: IndexMap::new(alloc),
        }
    }

    /// What a name is declared as.
    pub fn find(&self, name: &Name) -> Option<&Decl>
        ensures found { option_map (λ d. decl d.now) result ≡ find name.now (names self.now) }
    {
        self.names.get(name)
    }

    /// The number of a function that has a body.
    pub fn body(&self, name: &Name) -> Option<u32>
        ensures found { result ≡ find name.now (bodies self.now) }
    {
        self.bodies.get(name).copied()
    }

    /// Declares a name that is not declared yet; it goes last. The error is want of memory.
    pub fn declare(&mut self, name: Name, meaning: Decl) -> Result<(), Memory>
        requires new { find name (names self.old) ≡ None }
        ensures declared { OnOk result (names self.new ≡ names self.old ++ (name, decl meaning) ∷ []) }
        ensures refused { OnErr result (names self.new ≡ names self.old) }
        ensures layouts { self.new.layouts ≡ self.old.layouts }
        ensures whole { self.new.whole ≡ self.old.whole }
        ensures bodies { bodies self.new ≡ bodies self.old }
    {
        self.names.insert(name, meaning)?;
        Ok(())
    }

    /// Numbers a function with a body that has no number yet; it goes last. The error is want of memory.
    pub fn set_body(&mut self, name: Name, number: u32) -> Result<(), Memory>
        requires new { find name (bodies self.old) ≡ None }
        ensures numbered { OnOk result (bodies self.new ≡ bodies self.old ++ (name, number) ∷ []) }
        ensures refused { OnErr result (bodies self.new ≡ bodies self.old) }
        ensures layouts { self.new.layouts ≡ self.old.layouts }
        ensures whole { self.new.whole ≡ self.old.whole }
        ensures names { names self.new ≡ names self.old }
    {
        self.bodies.insert(name, number)?;
        Ok(())
    }
}

impl Scope {
    /// A scope that declares nothing yet.
    pub fn new(alloc: Global) -> Scope
        ensures empty { scope result ≡ [] }
    {
        Scope {
            names: IndexMap::new(alloc),
        }
    }

    /// The object of that name.
    pub fn find(&self, name: &Name) -> Option<&Local>
        ensures found { option_map (λ l. local l.now) result ≡ find name.now (scope self.now) }
    {
        self.names.get(name)
    }

    /// Declares an object under a name that the scope does not have yet; it goes last. The error is want of memory.
    pub fn add(&mut self, name: Name, object: Local) -> Result<(), Memory>
        requires new { find name (scope self.old) ≡ None }
        ensures added { OnOk result (scope self.new ≡ scope self.old ++ (name, local object) ∷ []) }
        ensures refused { OnErr result (scope self.new ≡ scope self.old) }
    {
        self.names.insert(name, object)?;
        Ok(())
    }

    /// The numbers of the objects, in the order of their declarations. The error is want of memory.
    pub fn numbers(&self, alloc: Global) -> Result<Vec<u32>, Memory>
        ensures numbers { IfOk result (λ r. r.items ≡ map (λ e. e.1.number) (scope self.now)) }
    {
        let numbers = self.object_numbers(alloc)?;
        Ok(numbers)
    }

    fn object_numbers(&self, alloc: Global) -> Result<Vec<u32>, AllocError>
        ensures { IfOk result (λ r. r.items ≡ map (λ l. l.number) (values self.now.names)) }
    {
        self.names.values().map(|l| l.number).collect(alloc)
    }
}

/// The object of that name in the innermost scope that has it; the innermost scope comes last.
pub fn find_local<'a>(name: &Name, scopes: &'a [Scope]) -> Option<&'a Local>
    ensures found { option_map (λ l. local l.now) result ≡ find_in name.now (map scope scopes.now) }
{
    let mut rest = scopes;
    'out: while let Some((scope, around)) = rest.split_last() {
        if let Some(local) = scope.find(name) {
            return Some(local);
        }
        rest = around;
    }
    None
}
