// Words of 32 bits, with their signed reading.
ghost use Rattle.std.specs.Prelude.{◌≡◌, ◌≢◌, SomeIff};
ghost use Rattle.kit_base.specs.Word.{signed as signed_of, add, sub, quotient, remainder, shifted, below, bool_word, negated};

/// The word as a signed number, -2,147,483,648 to 2,147,483,647.
pub fn signed(w: u32) -> i32
    ensures { result ≡ signed_of w }
{
    w.cast_signed()
}

/// The sum, without its carry.
pub fn wrap_add(a: u32, b: u32) -> u32
    ensures { result ≡ add a b }
{
    a.wrapping_add(b)
}

/// The difference, without its borrow.
#[inline(always)]
pub fn wrap_sub(a: u32, b: u32) -> u32
    ensures { result ≡ sub a b }
{
    a.wrapping_sub(b)
}

/// The word with its sign changed; that of 0x80000000 is itself.
#[inline(always)]
pub fn negate(a: u32) -> u32
    ensures { result ≡ negated a }
{
    wrap_sub(0, a)
}

/// Whether `a` is less than `b`, both signed.
#[inline(always)]
#[tactic(auto, using(crate::proofs::Words::word_facts), unfolding(crate::specs::Word::below))]
pub fn is_below(a: u32, b: u32) -> bool
    ensures { result ≡ below a b }
{
    a.cast_signed() < b.cast_signed()
}

/// 1 for yes, 0 for no.
#[inline(always)]
pub fn word_of_bool(b: bool) -> u32
    ensures { result ≡ bool_word b }
{
    if b { 1 } else { 0 }
}

/// The signed quotient, rounded towards zero. That of 0x80000000 by -1 is 0x80000000; by 0 there
/// is none.
#[tactic(auto, using(crate::proofs::Words::word_facts), unfolding(crate::specs::Word::quotient))]
pub fn div_word(a: u32, b: u32) -> Option<u32>
    ensures { SomeIff result (b ≢ 0) (quotient a b) }
{
    if b == 0 {
        return None;
    }
    Some(
        a.cast_signed()
            .wrapping_div(b.cast_signed())
            .cast_unsigned(),
    )
}

/// The signed remainder, with the sign of the dividend. That of 0x80000000 by -1 is 0; by 0 there
/// is none.
#[tactic(auto, using(crate::proofs::Words::word_facts), unfolding(crate::specs::Word::remainder))]
pub fn mod_word(a: u32, b: u32) -> Option<u32>
    ensures { SomeIff result (b ≢ 0) (remainder a b) }
{
    if b == 0 {
        return None;
    }
    Some(
        a.cast_signed()
            .wrapping_rem(b.cast_signed())
            .cast_unsigned(),
    )
}

/// The word shifted by a signed count: left by 0 to 31, right with zeros by -1 to -31; any other
/// count gives 0.
#[tactic(auto, using(crate::proofs::Words::word_facts), unfolding(crate::specs::Word::shifted))]
pub fn shift_word(a: u32, count: u32) -> u32
    ensures { result ≡ shifted a count }
{
    if count < 32 {
        return a << count;
    }
    let back = 0u32.wrapping_sub(count);
    if back < 32 { a >> back } else { 0 }
}
