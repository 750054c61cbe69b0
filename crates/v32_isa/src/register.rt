// The sixteen registers.
ghost use Rattle.std.specs.Prelude.{◌≡◌, ◌<◌, SomeIff};

use std::marker::Model;

/// The number of the register that counts in MOVS, SETS and CMPS.
pub const CR: u32 = 11;

/// The number of the source register of MOVS, SETS and CMPS.
pub const SR: u32 = 12;

/// The number of the destination register of MOVS, SETS and CMPS.
pub const DR: u32 = 13;

/// The number of the base pointer's register.
pub const BP: u32 = 14;

/// The number of the stack pointer's register.
pub const SP: u32 = 15;

/// A register, 0 to 15. Registers 11 to 15 are also named CR, SR, DR, BP and SP.
#[derive(Clone, Copy, PartialEq, Eq, PartialOrd, Ord, Debug)]
pub struct Reg {
    index: u32,
}

impl Model for Reg {
    ghost use Rattle.std.specs.Prelude.{ℕ, ◌<◌};

    ghost Value = { ℕ };

    ghost view = { λ r. r.index };

    ghost invariant = { λ r. r.index < 16 };

    ghost inverse = { λ n. record { index = n } };
}

impl Reg {
    /// The register of that number; none above 15.
    pub fn new(n: u32) -> Option<Reg>
        ensures { SomeIff result (n < 16) n }
    {
        if n < 16 { Some(Reg { index: n }) } else { None }
    }

    /// The register of a number that is known to be one.
    pub fn at(n: u32) -> Reg
        requires { n < 16 }
        ensures { result ≡ n }
    {
        Reg { index: n }
    }

    pub fn number(&self) -> u32
        ensures value { result ≡ self.now }
        ensures range { result < 16 }
    {
        self.index
    }
}
