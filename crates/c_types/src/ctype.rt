// Types.
ghost use Rattle.std.specs.Prelude.{◌≡◌, ◌<◌, IfOk, IfSome};
ghost use Rattle.std.specs.Bool.{OnTrue};
ghost use Rattle.c_types.specs.Ctype.{ctype};
ghost use Rattle.c_types.specs.Runs.{IsRun};
ghost use Rattle.c_types.specs.Derivations.{derive, repeated};

use kit_base::Memory;
use std::alloc::Global;
use std::marker::Model;
use std::rc::Rc;

/// The type that a pointer leads to, or of an array's elements, which contracts see as that type. Where the outermost derivation of the
/// type is repeated it tells how often, and of which type it is made so, so that deep types are compared in leaps.
#[cycle(types)]
#[derive(Drop)]
pub struct Underlying {
    ty: CType,
    times: u32,
    to: CType,
}

/// A type. Enumerations are numbered by themselves, structures and unions together by their place in the list of layouts; an array
/// has its number of elements. The type below a pointer or an array is shared by all that were made from it, so that a copy
/// takes no memory, however deep the type is.
#[cycle(types)]
pub enum CType {
    Void,
    Int,
    Bool,
    Enum(u32),
    Struct(u32),
    Union(u32),
    Pointer(Rc<Underlying>),
    Array(Rc<Underlying>, u32),
}

/// A step from a type to one that is made of it: to a pointer to it, or to an array of so many.
#[derive(Clone, Copy)]
pub enum Derivation {
    Pointer,
    Array(u32),
}

/// How a type is made of one further down: by so many times the same derivation.
#[derive(Clone, Copy)]
pub struct Run<'a> {
    pub derivation: Derivation,
    pub times: u32,
    pub to: &'a CType,
}

impl Model for Underlying {
    ghost use Rattle.c_types.specs.Types.{Ty};
    ghost use Rattle.c_types.specs.inner.TypeCodes.{type_code};

    ghost Value = { Ty };

    ghost coded = { type_code };

    ghost use Rattle.c_types.specs.Ctype.{ctype};
    ghost use Rattle.c_types.specs.Runs.{IsRun};
    ghost use Rattle.c_types.specs.inner.Heights.{height};

    ghost view = { λ u. ctype u.ty };

    ghost invariant = { λ u. IsRun (ctype u.ty) u.times (ctype u.to) };

    ghost size = { height };

    ghost use Rattle.c_types.specs.inner.FurtherDown.{falls};

    ghost size_decreases = { λ u run. falls u.ty u.to u.times run };
}

// A loop, so that a deep type does not run out of stack. It ends at the first type below that others share.
impl Drop for CType {
    fn drop(mut self) {
        loop {
            let below = match self {
                CType::Pointer(to) => Rc::into_inner(to),
                CType::Array(of, _) => Rc::into_inner(of),
                CType::Void | CType::Int | CType::Bool => return,
                CType::Enum(_) | CType::Struct(_) | CType::Union(_) => return,
            };
            match below {
                Some(last) => {
                    let Underlying { ty, .. } = last;
                    self = ty;
                }
                None => return,
            }
        }
    }
}

/// The same type once more, which shares what is below it and takes no memory. The error is a type that is shared too often to be
/// counted, which is told as want of memory.
pub fn copy_type(ty: &CType) -> Result<CType, Memory>
    ensures same { IfOk result (λ r. ctype r ≡ ctype ty.now) }
{
    match ty {
        CType::Void => Ok(CType::Void),
        CType::Int => Ok(CType::Int),
        CType::Bool => Ok(CType::Bool),
        CType::Enum(number) => Ok(CType::Enum(*number)),
        CType::Struct(number) => Ok(CType::Struct(*number)),
        CType::Union(number) => Ok(CType::Union(*number)),
        CType::Pointer(to) => Ok(CType::Pointer(to.clone()?)),
        CType::Array(of, len) => Ok(CType::Array(of.clone()?, *len)),
    }
}

/// Whether they are the same derivation.
#[inline(always)]
pub fn same_derivation(a: Derivation, b: Derivation) -> bool
    ensures same { OnTrue result (a ≡ b) }
{
    match (a, b) {
        (Derivation::Pointer, Derivation::Pointer) => true,
        (Derivation::Array(one), Derivation::Array(other)) => one == other,
        (Derivation::Pointer, Derivation::Array(_)) | (Derivation::Array(_), Derivation::Pointer) =>
            false,
    }
}

/// The outermost derivation of a type, and the type that it is made of by it.
#[inline(always)]
fn outermost(ty: &CType) -> Option<(Derivation, &Underlying)>
    ensures made { IfSome result (λ r. ctype ty.now ≡ derive r.0 r.1.now) }
{
    match ty {
        CType::Pointer(to) => Some((Derivation::Pointer, to)),
        CType::Array(of, len) => Some((Derivation::Array(*len), of)),
        CType::Void | CType::Int | CType::Bool => None,
        CType::Enum(_) | CType::Struct(_) | CType::Union(_) => None,
    }
}

/// How often the outermost derivation of a type is repeated that is made by this one, and of which type it is made so; no times where it is not.
#[tactic(auto, using(crate::proofs::Leaps::once_more, crate::proofs::Leaps::for_two, crate::proofs::Leaps::untold))]
fn repetition(derivation: Derivation, of: &Underlying) -> Result<(u32, CType), Memory>
    ensures run { IfOk result (λ r. IsRun (derive derivation of.now) r.0 (ctype r.1)) }
{
    if let Some(run) = of.run() {
        if same_derivation(run.derivation, derivation) && run.times < u32::MAX {
            return Ok((run.times + 1, copy_type(run.to)?));
        }
    }
    if let Some((other, below)) = outermost(of.ty()) {
        if same_derivation(other, derivation) {
            return Ok((2, copy_type(below.ty())?));
        }
    }
    Ok((0, CType::Void))
}

/// The type, so that pointers to it and arrays of it can share it. The error is want of memory.
pub fn shared(alloc: Global, ty: CType) -> Result<Rc<Underlying>, Memory>
    ensures same { IfOk result (λ r. r.value ≡ ctype ty) }
{
    Ok(Rc::new(alloc, Underlying::new(ty)?)?)
}

impl Underlying {
    #[tactic(auto, using(crate::proofs::Leaps::untold))]
    fn new(ty: CType) -> Result<Underlying, Memory>
        ensures same { IfOk result (λ u. u ≡ ctype ty) }
    {
        let (times, to) = match outermost(&ty) {
            Some((derivation, of)) => repetition(derivation, of)?,
            None => (0, CType::Void),
        };
        Ok(Underlying { ty, times, to })
    }

    /// The type itself.
    #[inline(always)]
    pub fn ty(&self) -> &CType
        ensures same { ctype result.now ≡ self.now }
    {
        &self.ty
    }

    /// How it is made of a type further down, where its outermost derivation is repeated.
    #[inline(always)]
    #[tactic(auto, using(crate::proofs::Leaps::told))]
    pub fn run(&self) -> Option<Run<'_>>
        ensures made { IfSome result (λ r. self.now ≡ repeated r.times r.derivation (ctype r.to.now)) }
    {
        if self.times == 0 {
            return None;
        }
        let (derivation, _) = outermost(&self.ty)?;
        Some(Run {
            derivation,
            times: self.times,
            to: &self.to,
        })
    }
}
