// Number words.
ghost use Rattle.std.specs.Prelude.{◌≡◌, ◌≤◌, ◌+◌, ◌*◌, ◌-◌, min};
ghost use Rattle.kit_words.specs.Number.{number_of};

/// One more than the greatest number that a command takes.
const TOO_LARGE: u32 = 10_000_001;

/// The number of decimal digits, or 10,000,001 where it is that or more.
#[tactic(auto, using(crate::proofs::Numbers::cut_number))]
pub fn number_of(digits: &[u8]) -> u32
    ensures { result ≡ min (number_of digits.now) 10000001 }
{
    let mut number = 0u32;
    let mut rest = digits;
    'digits: while let Some((first, after)) = rest.split_first() {
        let next = number * 10 + u32::from(first.saturating_sub(48));
        number = next.min(TOO_LARGE);
        rest = after;
    }
    number
}
