// Counts of what went wrong.
ghost use Rattle.std.specs.Prelude.{◌≤◌};
ghost use Rattle.kit_base.specs.Counts.{Rose};

/// One more, up to the last value.
pub fn risen(count: u64) -> u64
    ensures rose { Rose count result }
    ensures later { count ≤ result }
{
    count.saturating_add(1)
}
