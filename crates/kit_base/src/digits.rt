// Digits, written and read.
ghost use Rattle.std.specs.Prelude.{◌≡◌, ◌<◌, ◌^◌, min};
ghost use Rattle.kit_base.specs.Digits.{digit_value, hex_digit, value_in, word_digits};

const LIMIT: u64 = 4_294_967_296;

/// The upper-case hexadecimal digit of a number below 16.
pub fn hex_digit(d: u32) -> u8
    requires { d < 16 }
    ensures { result ≡ hex_digit d }
{
    if d < 10 {
        b'0' + d as u8
    } else {
        b'A' + (d - 10) as u8
    }
}

/// The eight upper-case hexadecimal digits of a word, the highest first.
#[tactic(auto, unfolding(crate::specs::Digits::word_digits))]
pub fn word_digits(n: u32) -> [u8; 8]
    ensures { result ≡ word_digits n }
{
    [
        hex_digit(n / 0x1000_0000 % 16),
        hex_digit(n / 0x100_0000 % 16),
        hex_digit(n / 0x10_0000 % 16),
        hex_digit(n / 0x1_0000 % 16),
        hex_digit(n / 0x1000 % 16),
        hex_digit(n / 0x100 % 16),
        hex_digit(n / 0x10 % 16),
        hex_digit(n % 16),
    ]
}

/// The value of a decimal or hexadecimal digit, of either case. Of a byte that is no digit it says
/// nothing of use.
pub fn digit_value(b: u8) -> u8
    ensures { result ≡ digit_value b }
{
    if b < b':' {
        b.saturating_sub(b'0')
    } else if b < b'a' {
        b.saturating_sub(55)
    } else {
        b - 87
    }
}

/// The number that the digits write in a base, or 2^32 where it is greater.
pub fn value_in(base: u8, digits: &[u8]) -> u64
    ensures { result ≡ min (value_in base digits.now) (2 ^ 32) }
{
    let mut value: u64 = 0;
    for digit in digits {
        value = (value * u64::from(base) + u64::from(digit_value(*digit))).min(LIMIT);
    }
    value
}
