// The numbers that an instruction can name as a port.
ghost use Rattle.std.specs.Prelude.{◌≡◌, ◌<◌, SomeIff};

use std::marker::Model;

/// A port number, 0 to 16,383. The console has devices behind some of them only.
#[derive(Clone, Copy, PartialEq, Eq, PartialOrd, Ord, Debug)]
pub struct Port {
    index: u32,
}

impl Model for Port {
    ghost use Rattle.std.specs.Prelude.{ℕ, ◌<◌};

    ghost Value = { ℕ };

    ghost view = { λ p. p.index };

    ghost invariant = { λ p. p.index < 16384 };

    ghost inverse = { λ n. record { index = n } };
}

impl Port {
    /// The port of that number; none above 16,383.
    pub fn new(n: u32) -> Option<Port>
        ensures { SomeIff result (n < 16384) n }
    {
        if n < 16384 {
            Some(Port { index: n })
        } else {
            None
        }
    }

    /// The port of a number that is known to be one.
    pub fn at(n: u32) -> Port
        requires { n < 16384 }
        ensures { result ≡ n }
    {
        Port { index: n }
    }

    pub fn number(&self) -> u32
        ensures value { result ≡ self.now }
        ensures range { result < 16384 }
    {
        self.index
    }
}
