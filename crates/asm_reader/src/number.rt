// Numbers.
ghost use Rattle.std.specs.Prelude.{◌≡◌, option_map};
ghost use Rattle.std.specs.Char.{is_ascii_digit, is_ascii_hexdigit};
ghost use Rattle.std.specs.List.{list_all};
ghost use Rattle.kit_base.specs.Digits.{value_in};
ghost use Rattle.asm_reader.specs.Numbers.{hexadecimal_digits, limited, number_token};

use crate::token::Token;
use kit_base::value_in;

const LIMIT: u64 = 4_294_967_296;

/// The number that the digits write, below 2^32.
#[tactic(auto, unfolding(crate::specs::Numbers::limited))]
fn magnitude(base: u8, digits: &[u8]) -> Option<u32>
    ensures { result ≡ limited (value_in base digits.now) }
{
    let value = value_in(base, digits);
    if value >= LIMIT {
        return None;
    }
    Some(value as u32)
}

fn all_decimal(text: &[u8]) -> bool
    ensures { result ≡ list_all is_ascii_digit text.now }
{
    text.iter().all(|b| b.is_ascii_digit())
}

fn all_hexadecimal(text: &[u8]) -> bool
    ensures { result ≡ list_all is_ascii_hexdigit text.now }
{
    text.iter().all(|b| b.is_ascii_hexdigit())
}

/// The digits behind `0x`.
#[tactic(auto, unfolding(crate::specs::Numbers::hexadecimal_digits))]
fn hexadecimal_digits(text: &[u8]) -> Option<&[u8]>
    ensures { option_map (λ r. r.now) result ≡ hexadecimal_digits text.now }
{
    let (zero, rest) = text.split_first()?;
    let (x, digits) = rest.split_first()?;
    if *zero == b'0' && *x == b'x' && digits.len() > 0 && all_hexadecimal(digits) {
        Some(digits)
    } else {
        None
    }
}

/// The number that the text spells, behind a `-` or not.
#[tactic(auto, unfolding(crate::specs::Numbers::number_token))]
pub fn number_token(negative: bool, text: &[u8]) -> Token
    ensures { result ≡ number_token negative text.now }
{
    if let Some(digits) = hexadecimal_digits(text) {
        return Token::Number(negative, magnitude(16, digits));
    }
    if all_decimal(text) {
        Token::Number(negative, magnitude(10, text))
    } else {
        Token::Stray
    }
}
