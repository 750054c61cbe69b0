// Where a reader stands in a text.

ghost use Rattle.std.specs.Prelude.{◌≡◌, ◌+◌, ◌<◌, ◌^◌, length};
ghost use Rattle.c_lex.specs.Reading.{past_gap, past_token, token_of};

use crate::token::{Kind, Token};

#[derive(Clone, Copy, Debug)]
pub struct Place {
    pub file: u32,
    pub line: u32,
    pub byte: u32,
    pub first: bool,
}

impl Place {
    pub fn past_gap(self, gap: &[u8]) -> Place
        requires line { self.line + length gap.now < 2 ^ 32 }
        requires byte { self.byte + length gap.now < 2 ^ 32 }
        ensures { result ≡ past_gap self gap.now }
    {
        let lines = gap.iter().filter(|b| **b == b'\n').count();
        Place {
            file: self.file,
            line: self.line + lines as u32,
            byte: self.byte + gap.len() as u32,
            first: self.first || gap == b"\n".as_slice(),
        }
    }

    pub fn past_token(self, len: usize) -> Place
        requires byte { self.byte + len < 2 ^ 32 }
        ensures { result ≡ past_token self len }
    {
        Place {
            file: self.file,
            line: self.line,
            byte: self.byte + len as u32,
            first: false,
        }
    }

    pub fn token(self, len: usize, kind: Kind) -> Token
        requires byte { self.byte + len < 2 ^ 32 }
        ensures { result ≡ token_of self len kind }
    {
        Token {
            kind,
            file: self.file,
            line: self.line,
            start: self.byte,
            end: self.byte + len as u32,
            first: self.first,
        }
    }
}
