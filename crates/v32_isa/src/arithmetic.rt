// What instructions compute.
ghost use Rattle.std.specs.Prelude.{◌≡◌, Some};
ghost use Rattle.kit_base.specs.Word.{smaller, larger, magnitude};
ghost use Rattle.v32_isa.specs.Arithmetic.{one_of, two_of};

use crate::instruction::{One, Two};
use kit_base::{
    div_word, is_below, mod_word, negate, shift_word, word_of_bool, wrap_add, wrap_sub,
};

#[inline(always)]
fn min_word(a: u32, b: u32) -> u32
    ensures { result ≡ smaller a b }
{
    if is_below(a, b) { a } else { b }
}

#[inline(always)]
fn max_word(a: u32, b: u32) -> u32
    ensures { result ≡ larger a b }
{
    if is_below(a, b) { b } else { a }
}

/// The signed magnitude; that of 0x80000000 is itself.
#[inline(always)]
pub fn magnitude_of(a: u32) -> u32
    ensures { result ≡ magnitude a }
{
    if is_below(a, 0) { negate(a) } else { a }
}

/// The word that an instruction with two operands computes; none at a division by 0.
#[inline(always)]
pub fn two_word(op: Two, x: u32, y: u32) -> Option<u32>
    ensures { result ≡ two_of op x y }
{
    let word = match op {
        Two::IEQ => word_of_bool(x == y),
        Two::INE => word_of_bool(x != y),
        Two::IGT => word_of_bool(is_below(y, x)),
        Two::IGE => word_of_bool(!is_below(x, y)),
        Two::ILT => word_of_bool(is_below(x, y)),
        Two::ILE => word_of_bool(!is_below(y, x)),
        Two::AND => x & y,
        Two::OR => x | y,
        Two::XOR => x ^ y,
        Two::SHL => shift_word(x, y),
        Two::IADD => wrap_add(x, y),
        Two::ISUB => wrap_sub(x, y),
        Two::IMUL => x.wrapping_mul(y),
        Two::IDIV => return div_word(x, y),
        Two::IMOD => return mod_word(x, y),
        Two::IMIN => min_word(x, y),
        Two::IMAX => max_word(x, y),
    };
    Some(word)
}

/// The word that an instruction on one register computes; none for those that work on memory.
#[inline(always)]
pub fn one_word(op: One, x: u32) -> Option<u32>
    ensures { result ≡ one_of op x }
{
    match op {
        One::PUSH => None,
        One::POP => None,
        One::CMPS => None,
        One::CIB => Some(word_of_bool(x != 0)),
        One::NOT => Some(u32::MAX - x),
        One::BNOT => Some(word_of_bool(x == 0)),
        One::ISGN => Some(negate(x)),
        One::IABS => Some(magnitude_of(x)),
    }
}
