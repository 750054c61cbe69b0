// The arithmetic of constants.
ghost use Rattle.std.specs.Prelude.{◌≡◌};
ghost use Rattle.kit_base.specs.Word.{mul};
ghost use Rattle.c_rules.specs.Constants.{constant_unary, constant_binary};

use c_tree::{BinOp, UnOp};
use kit_base::{
    div_word, is_below, mod_word, negate, shift_word, word_of_bool, wrap_add, wrap_sub,
};

/// The constant that an operator before a constant makes; none for `*` and `&`.
pub fn constant_unary(op: UnOp, a: u32) -> Option<u32>
    ensures constant { result ≡ constant_unary op a }
{
    match op {
        UnOp::Minus => Some(negate(a)),
        UnOp::Plus => Some(a),
        UnOp::Not => Some(word_of_bool(a == 0)),
        UnOp::Flip => Some(!a),
        UnOp::Deref => None,
        UnOp::Address => None,
    }
}

/// The constant that an operator between two constants makes; none at a division by 0. Sums wrap, order, quotients and remainders
/// are signed, a shift goes by a signed count.
pub fn constant_binary(op: BinOp, a: u32, b: u32) -> Option<u32>
    ensures constant { result ≡ constant_binary op a b }
{
    let word = match op {
        BinOp::Mul => a.wrapping_mul(b),
        BinOp::Div => return div_word(a, b),
        BinOp::Mod => return mod_word(a, b),
        BinOp::Add => wrap_add(a, b),
        BinOp::Sub => wrap_sub(a, b),
        BinOp::Shl => shift_word(a, b),
        BinOp::Shr => shift_word(a, negate(b)),
        BinOp::Less => word_of_bool(is_below(a, b)),
        BinOp::LessEq => word_of_bool(!is_below(b, a)),
        BinOp::More => word_of_bool(is_below(b, a)),
        BinOp::MoreEq => word_of_bool(!is_below(a, b)),
        BinOp::Equal => word_of_bool(a == b),
        BinOp::NotEqual => word_of_bool(a != b),
        BinOp::BitAnd => a & b,
        BinOp::BitXor => a ^ b,
        BinOp::BitOr => a | b,
        BinOp::AndAlso => word_of_bool(a != 0 && b != 0),
        BinOp::OrElse => word_of_bool(a != 0 || b != 0),
    };
    Some(word)
}
