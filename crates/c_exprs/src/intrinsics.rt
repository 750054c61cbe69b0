// The functions that every unit has.
ghost use Rattle.std.specs.Prelude.{◌≡◌, is_some};
ghost use Rattle.std.specs.Str.{bytes_eq};
ghost use Rattle.c_exprs.specs.Intrinsics.{intrinsic};

/// The functions that every unit has, which are the console's own: `int port_in(PORT)`, `void port_out(PORT, word)`,
/// `void wait_frame()`, `void halt()` and `int* card_memory()`.
#[derive(Clone, Copy, Debug, PartialEq, Eq)]
pub enum Intrinsic {
    PortIn,
    PortOut,
    WaitFrame,
    Halt,
    CardMemory,
}

fn is_word(name: &[u8], word: &str) -> bool
    ensures { result ≡ bytes_eq name.now word.now }
{
    name == word.as_bytes()
}

/// The function of that name.
#[tactic(auto, unfolding(crate::specs::Intrinsics::intrinsic))]
pub(crate) fn intrinsic_of(name: &[u8]) -> Option<Intrinsic>
    ensures { result ≡ intrinsic name.now }
{
    if is_word(name, "port_in") {
        Some(Intrinsic::PortIn)
    } else if is_word(name, "port_out") {
        Some(Intrinsic::PortOut)
    } else if is_word(name, "wait_frame") {
        Some(Intrinsic::WaitFrame)
    } else if is_word(name, "halt") {
        Some(Intrinsic::Halt)
    } else if is_word(name, "card_memory") {
        Some(Intrinsic::CardMemory)
    } else {
        None
    }
}

/// Whether a name is that of a function that every unit has.
pub fn is_intrinsic(name: &[u8]) -> bool
    ensures intrinsic { result ≡ is_some (intrinsic name.now) }
{
    intrinsic_of(name).is_some()
}
