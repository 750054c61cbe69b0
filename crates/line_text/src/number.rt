// Numbers in texts.
ghost use Rattle.std.specs.Prelude.{◌≡◌, length};
ghost use Rattle.std.specs.List.{list_all};
ghost use Rattle.line_text.specs.Numbers.{is_digit, is_hexadecimal_digit, begins_zero, decimal_word, hexadecimal_word, is_printable, all_printable};

use kit_base::value_in;

const LIMIT: u64 = 4_294_967_296;

fn begins_zero(digits: &[u8]) -> bool
    ensures { result ≡ begins_zero digits.now }
{
    match digits {
        [b'0', _, ..] => true,
        _ => false,
    }
}

fn all_digits(text: &[u8]) -> bool
    ensures { result ≡ list_all is_digit text.now }
{
    text.iter().all(|b| b.is_ascii_digit())
}

fn all_hexadecimal(text: &[u8]) -> bool
    ensures { result ≡ list_all is_hexadecimal_digit text.now }
{
    text.iter().all(|b| is_hexadecimal(*b))
}

fn is_hexadecimal(b: u8) -> bool
    ensures { result ≡ is_hexadecimal_digit b }
{
    b.is_ascii_digit() || (b'A' <= b && b <= b'F') || (b'a' <= b && b <= b'f')
}

/// The word of a decimal: digits alone, without a needless leading zero, below 2^32.
#[tactic(auto, unfolding(crate::specs::Numbers::decimal_word))]
pub fn decimal_word(text: &[u8]) -> Option<u32>
    ensures { result ≡ decimal_word text.now }
{
    if text.len() == 0 || begins_zero(text) || !all_digits(text) {
        return None;
    }
    let value = value_in(10, text);
    if value >= LIMIT {
        return None;
    }
    Some(value as u32)
}

/// The word of hexadecimal digits of either case, one or more, below 2^32.
#[tactic(auto, unfolding(crate::specs::Numbers::hexadecimal_word))]
pub fn hexadecimal_word(text: &[u8]) -> Option<u32>
    ensures { result ≡ hexadecimal_word text.now }
{
    if text.len() == 0 || !all_hexadecimal(text) {
        return None;
    }
    let value = value_in(16, text);
    if value >= LIMIT {
        return None;
    }
    Some(value as u32)
}

fn all_printable(bytes: &[u8]) -> bool
    ensures { result ≡ all_printable bytes.now }
{
    bytes.iter().all(|b| 32 <= *b && *b < 127)
}

/// Whether there are 1 to `most` bytes, all of them printable ASCII, 0x20 to 0x7E.
pub fn is_printable(bytes: &[u8], most: usize) -> bool
    ensures { result ≡ is_printable most bytes.now }
{
    bytes.len() > 0 && bytes.len() <= most && all_printable(bytes)
}
