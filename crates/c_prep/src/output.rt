// What was put so far.
ghost use Rattle.std.specs.Prelude.{◌≡◌, ◌≤◌, [], length};
ghost use Rattle.c_prep.specs.Faults.{Gives};
ghost use Rattle.c_prep.specs.Macros.{emitted, counted};

use crate::error::{Fault, StepErr, fault_at};
use crate::kinds::copied_kind;
use c_lex::{Kind, Token};
use std::alloc::Global;
use std::marker::Model;

/// The tokens so far, at most 200,000, and how many names were replaced.
#[derive(Drop)]
pub struct Output {
    tokens: Vec<Token>,
    replaced: u32,
}

impl Model for Output {
    ghost use Rattle.std.specs.Prelude.{◌≤◌, length};
    ghost use Rattle.c_prep.specs.Macros.{Put};

    ghost Value = { Put };

    ghost view = { λ o. record { tokens = o.tokens.items; replaced = o.replaced } };

    ghost invariant = { λ o. length o.tokens.items ≤ 200000 };
}

const TOKENS: usize = 200_000;

const REPLACED: u32 = 1_000_000;

impl Output {
    pub fn new(alloc: Global) -> Output
        ensures { result ≡ record { tokens = []; replaced = 0 } }
    {
        Output {
            tokens: Vec::new(alloc),
            replaced: 0,
        }
    }

    /// Puts a token of that kind at that place.
    pub fn emit(&mut self, at: &Token, kind: &Kind) -> Result<(), StepErr>
        ensures { Gives self.new result (emitted at.now kind.now self.old) }
    {
        if self.tokens.len() >= TOKENS {
            return Err(StepErr::Cause(fault_at(Fault::TooManyTokens, at)));
        }
        self.tokens.push(Token {
            kind: copied_kind(kind)?,
            file: at.file,
            line: at.line,
            start: at.start,
            end: at.end,
            first: at.first,
        })?;
        Ok(())
    }

    /// Counts a name that is replaced.
    pub fn count(&mut self, at: &Token) -> Result<(), StepErr>
        ensures { Gives self.new result (counted at.now self.old) }
    {
        if self.replaced >= REPLACED {
            return Err(StepErr::Cause(fault_at(Fault::TooManyTokens, at)));
        }
        self.replaced += 1;
        Ok(())
    }

    pub fn into_tokens(self) -> Vec<Token>
        ensures tokens { result.items ≡ self.tokens }
        ensures few { length result.items ≤ 200000 }
    {
        let Output { tokens, .. } = self;
        tokens
    }
}
