// Numbers in upper-case hexadecimal.
ghost use Rattle.std.specs.Prelude.{◌≡◌, ◌≤◌, length};
ghost use Rattle.trace_core.specs.Digits.{without_zeros};

/// The digits without the zeros at the front, at most `most` of them.
pub fn without_zeros(most: u32, digits: &[u8]) -> &[u8]
    ensures digits { result.now ≡ without_zeros most digits.now }
    ensures size { length result.now ≤ length digits.now }
{
    if most == 0 {
        return digits;
    }
    match digits {
        [b'0', rest @ ..] => without_zeros(most - 1, rest),
        _ => digits,
    }
}
