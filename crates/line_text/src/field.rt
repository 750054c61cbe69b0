// Fields with one space between.
ghost use Rattle.std.specs.Prelude.{◌≡◌, option_map, position};
ghost use Rattle.line_text.specs.Fields.{is_space, field_at};

fn space_at(text: &[u8]) -> Option<usize>
    ensures { result ≡ position is_space text.now }
{
    text.iter().position(|b| *b == b' ')
}

/// What stands before the first space, and what stands after it; none where there is no space.
#[tactic(auto, unfolding(crate::specs::Fields::field_at))]
pub fn field_at(text: &[u8]) -> Option<(&[u8], &[u8])>
    ensures { option_map (λ x. (x.0.now, x.1.now)) result ≡ field_at text.now }
{
    let at = space_at(text)?;
    Some((&text[..at], &text[at + 1..]))
}
