// Laws of the definitions.
ghost use Rattle.std.specs.Prelude.{ℕ, ◌≡◌, ◌≤◌, ◌+◌, ◌/◌};
ghost use Rattle.pix_lanes.specs.Pixels.{nearest_quotient};

/// The quotient that the rows compute, by sums and shifts alone, is n / 255 rounded to nearest, over the whole range of a product
/// of two parts.
pub fn quotient_is_nearest()
    ensures nearest { (n : ℕ) → n ≤ 65025 → (n + 128 + (n + 128) / 256) / 256 ≡ nearest_quotient n }
{}
