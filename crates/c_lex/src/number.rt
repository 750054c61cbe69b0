// Numbers.

ghost use Rattle.std.specs.Prelude.{◌≡◌, ◌≤◌, ◌^◌, length, take, take_while, min, not, nat_lt, option_map};
ghost use Rattle.std.specs.Char.{is_ascii_digit, is_ascii_hexdigit};
ghost use Rattle.c_lex.specs.Numbers.{begins_hex, number_len, number_value};
ghost use Rattle.c_lex.specs.Found.{number_found};
ghost use Rattle.c_lex.specs.declared.token.Kind.TheVariants as k;

use kit_base::value_in;

pub fn begins_hex(bytes: &[u8]) -> bool
    ensures { result ≡ begins_hex bytes.now }
{
    match bytes {
        [b'0', b'x', h, ..] => h.is_ascii_hexdigit(),
        _ => false,
    }
}

fn hex_len(bytes: &[u8]) -> usize
    ensures { result ≡ length (take_while is_ascii_hexdigit bytes.now) }
{
    bytes.iter().take_while(|b| b.is_ascii_hexdigit()).count()
}

fn decimal_len(bytes: &[u8]) -> usize
    ensures { result ≡ length (take_while is_ascii_digit bytes.now) }
{
    bytes.iter().take_while(|b| b.is_ascii_digit()).count()
}

/// How many bytes at the front are one number, where a digit stands there.
#[tactic(auto, unfolding(crate::specs::Numbers::number_len))]
pub fn number_len(bytes: &[u8]) -> usize
    ensures value { result ≡ number_len bytes.now }
    ensures within { result ≤ length bytes.now }
{
    if begins_hex(bytes) {
        2 + hex_len(&bytes[2..])
    } else {
        decimal_len(bytes)
    }
}

const LIMIT: u64 = 4_294_967_296;

/// The value of a number, or 2^32 where it is greater.
#[tactic(auto, unfolding(crate::specs::Numbers::number_value))]
fn number_value(text: &[u8]) -> u64
    ensures { result ≡ min (number_value text.now) (2 ^ 32) }
{
    if begins_hex(text) {
        value_in(16, &text[2..])
    } else {
        value_in(10, text)
    }
}

/// The number at the front, and its length.
#[tactic(auto, unfolding(crate::specs::Found::number_found))]
pub fn number_found(bytes: &[u8]) -> Option<(usize, u32)>
    ensures { option_map (λ x. (x.0, k.Number x.1)) result ≡ number_found bytes.now }
{
    let (text, rest) = bytes.split_at(number_len(bytes));
    let value = number_value(text);
    if value >= LIMIT || rest.first() == Some(&b'.') {
        return None;
    }
    Some((text.len(), value as u32))
}

/// Whether the number at the front is above the greatest.
pub fn is_too_great(bytes: &[u8]) -> bool
    ensures value { result ≡ not (nat_lt (number_value (take (number_len bytes.now) bytes.now)) (2 ^ 32)) }
{
    number_value(&bytes[..number_len(bytes)]) >= LIMIT
}
