// Choices without slots.
ghost use Rattle.std.specs.Prelude.{◌≡◌, ◌↔◌, Bool, true};
ghost use Rattle.mid_code.specs.Safe.{IsRegister, AllPlaces};

use mid_code::Where;

fn is_register(w: Where) -> bool
    ensures { (result ≡ true) ↔ IsRegister w }
{
    match w {
        Where::Reg(_) => true,
        Where::Slot(_) => false,
    }
}

fn all_registers(at: &[Where]) -> bool
    ensures { (result ≡ true) ↔ AllPlaces IsRegister at.now }
{
    for w in at {
        if !is_register(*w) {
            return false;
        }
    }
    true
}

/// Whether there is a slot in the given choice, or none in the other one.
pub(crate) fn adds_no_slot(given: &[Where], other: &[Where]) -> bool
    ensures { result ≡ true → AllPlaces IsRegister given.now → AllPlaces IsRegister other.now }
{
    !all_registers(given) || all_registers(other)
}
