// A line in a buffer of its own.
ghost use Rattle.std.specs.Prelude.{◌≡◌, ◌≤◌, ◌<◌, ◌+◌, ◌++◌, [], ◌∷◌, length};
ghost use Rattle.std.specs.Fmt.{decimal};

use std::marker::Model;

/// A line, at most 32 bytes.
#[derive(Drop)]
pub struct Line {
    bytes: [u8; 32],
    used: usize,
}

impl Model for Line {
    ghost use Rattle.std.specs.Prelude.{ℕ, List, ◌≤◌, take};

    ghost Value = { List ℕ };

    ghost view = { λ l. take l.used l.bytes };

    ghost invariant = { λ l. l.used ≤ 32 };
}

impl Line {
    pub fn new() -> Line
        ensures { result ≡ [] }
    {
        Line {
            bytes: [0; 32],
            used: 0,
        }
    }

    pub fn bytes(&self) -> &[u8]
        ensures { result.now ≡ self.now }
    {
        &self.bytes[..self.used]
    }

    fn push(&mut self, byte: u8)
        requires { length self.old < 32 }
        ensures text { self.new ≡ self.old ++ byte ∷ [] }
        ensures size { length self.new ≡ length self.old + 1 }
    {
        self.bytes[self.used] = byte;
        self.used += 1;
    }

    /// Adds a text that there is room for.
    pub fn push_all(&mut self, text: &[u8])
        requires { length self.old + length text.now ≤ 32 }
        ensures text { self.new ≡ self.old ++ text.now }
        ensures size { length self.new ≡ length self.old + length text.now }
    {
        'bytes: for byte in text {
            self.push(*byte);
        }
    }

    /// Adds a number in decimal that there is room for.
    #[tactic(auto, using(crate::proofs::Decimals::decimals))]
    pub fn push_decimal(&mut self, number: u32)
        requires { length self.old + length (decimal number) ≤ 32 }
        ensures text { self.new ≡ self.old ++ decimal number }
        ensures size { length self.new ≡ length self.old + length (decimal number) }
    {
        if number < 10 {
            self.push(b'0' + number as u8);
            return;
        }
        self.push_decimal(number / 10);
        self.push(b'0' + (number % 10) as u8);
    }
}
