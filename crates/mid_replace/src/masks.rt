// Sets of locals as bits. Locals whose numbers differ by a multiple of 32 share a bit.
ghost use Rattle.std.specs.Prelude.{◌≡◌};

use crate::fact::Fact;

/// The set of one local.
pub(crate) fn bit(local: u32) -> u32 {
    1 << (local % 32)
}

/// Those whose address a temporary may hold.
pub(crate) fn mask(masks: &[u32], temporary: u32) -> u32 {
    let i = temporary as usize;
    if i < masks.len() { masks[i] } else { 0 }
}

/// Adds some to those of a temporary, and says whether one of them is new.
pub(crate) fn add_mask(masks: &mut [u32], temporary: u32, more: u32) -> bool {
    let i = temporary as usize;
    if i >= masks.len() {
        return false;
    }
    let before = masks[i];
    masks[i] = before | more;
    masks[i] != before
}

/// Those whose address a temporary of which this is known may hold.
pub(crate) fn known_mask(masks: &[u32], known: Fact, temporary: u32) -> u32 {
    match known {
        Fact::Plain => 0,
        Fact::Word(_) => 0,
        Fact::Place(local, _) => bit(local),
        Fact::Any => mask(masks, temporary),
    }
}
