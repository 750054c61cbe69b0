// The rule of an object.
ghost use Rattle.std.specs.Prelude.{◌≡◌, ◌+◌, ◌≤◌, map, IfOk};
ghost use Rattle.c_types.specs.View.{ctype, layout};
ghost use Rattle.c_stmts.specs.State.{object_size};

use c_rules::{Code, type_size};
use c_types::{CType, Layout};

/// The size in words of an object of this type, behind objects of `used` words, where all may have at most `limit`. A name that is
/// not new is Twice; a type without a size is WrongType or InfiniteType; too many words are TooLarge.
#[tactic(auto, unfolding(crate::specs::State::object_size, crate::specs::State::object_rule, c_rules::specs::Nodes::size_rule, c_rules::specs::Sizes::fits))]
pub fn object_size(
    layouts: &[Layout],
    whole: &[bool],
    limit: u32,
    used: u64,
    fresh: bool,
    ty: &CType,
) -> Result<u32, Code>
    requires limit { limit ≤ 4194304 }
    ensures size { result ≡ object_size (map layout layouts.now) whole.now limit used fresh (ctype ty.now) }
    ensures room { IfOk result (λ n. used + n ≤ limit) }
{
    if !fresh {
        return Err(Code::Twice);
    }
    let words = type_size(layouts, whole, ty)?;
    if used > limit as u64 || used + words as u64 > limit as u64 {
        return Err(Code::TooLarge);
    }
    Ok(words)
}
