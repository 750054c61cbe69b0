// Types made from others.
ghost use Rattle.std.specs.Prelude.{◌≡◌, IfOk};
ghost use Rattle.c_types.specs.Types.{PointerY, ArrayY};
ghost use Rattle.c_types.specs.View.{ctype};
ghost use Rattle.c_types.specs.Kinds.{decayed};

use c_types::{CType, copy_type, shared};
use kit_base::Memory;
use std::alloc::Global;

/// The type of a pointer to this one. The error is want of memory.
pub fn pointer_to(alloc: Global, ty: &CType) -> Result<CType, Memory>
    ensures pointer { IfOk result (λ r. ctype r ≡ PointerY (ctype ty.now)) }
{
    Ok(CType::Pointer(shared(alloc, copy_type(ty)?)?))
}

/// The type of an array of `len` elements of this type, without regard to any rule. The error is want of memory.
pub fn array_of(alloc: Global, of: &CType, len: u32) -> Result<CType, Memory>
    ensures array { IfOk result (λ r. ctype r ≡ ArrayY (ctype of.now) len) }
{
    Ok(CType::Array(shared(alloc, copy_type(of)?)?, len))
}

/// The type of a value: an array's is a pointer to its first element. The error is that of `copy_type`.
pub fn decayed(ty: &CType) -> Result<CType, Memory>
    ensures value { IfOk result (λ r. ctype r ≡ decayed (ctype ty.now)) }
{
    match ty {
        CType::Array(of, _) => Ok(CType::Pointer(of.clone()?)),
        CType::Void
        | CType::Int
        | CType::Bool
        | CType::Enum(_)
        | CType::Struct(_)
        | CType::Union(_)
        | CType::Pointer(_) => copy_type(ty),
    }
}
