// The texts of a unit, which are the literals of its program.
ghost use Rattle.std.specs.Prelude.{◌≡◌, ◌≤◌, ◌<◌, [], length, OnOk, OnErr};
ghost use Rattle.c_exprs.specs.Faults.{text_words, with_text};
ghost use Rattle.kit_base.specs.Gives.{Gives};

use crate::error::{CheckErr, Fault};
use c_rules::Code;
use c_tree::Span;
use kit_base::Name;
use std::alloc::Global;
use std::marker::Model;

/// The texts so far, in the order of reading, and how many words they take.
#[derive(Drop)]
pub struct Texts {
    items: Vec<Name>,
    words: u32,
    ghost counted: { words ≡ text_words items.items },
    ghost few: { words ≤ 4000000 },
}

impl Model for Texts {
    ghost use Rattle.std.specs.Prelude.{List, ℕ};

    ghost Value = { List (List ℕ) };

    ghost view = { λ t. t.items.items };
}

impl Texts {
    /// No texts.
    pub fn new(alloc: Global) -> Texts
        ensures none { result ≡ [] }
    {
        Texts {
            items: Vec::new(alloc),
            words: 0,
        }
    }

    /// Adds a text of a node of this span, and gives its number. A text has a word for each byte and a last word 0; the error is
    /// TooLarge where all have over 4,000,000 words with it.
    #[tactic(auto, using(crate::proofs::Maps::length_words), unfolding(crate::specs::Faults::with_text))]
    pub fn add(&mut self, text: &Name, span: Span) -> Result<u32, CheckErr>
        ensures added { Gives (λ k. (k, self.new)) result (with_text span self.old text.now) }
        ensures short { OnOk result (length text.now < 4000000) }
    {
        let long = text.bytes().len();
        if long >= 4_000_000 || self.words + (long as u32 + 1) > 4_000_000 {
            return Err(CheckErr::Cause(Fault {
                code: Code::TooLarge,
                span,
            }));
        }
        let number = self.items.len() as u32;
        self.items.push(text.copy()?)?;
        self.words += long as u32 + 1;
        Ok(number)
    }

    pub fn as_slice(&self) -> &[Name]
        ensures texts { result.now ≡ self.now }
    {
        self.items.as_slice()
    }

    pub fn into_vec(self) -> Vec<Name>
        ensures texts { result.items ≡ self }
    {
        let Texts { items, words: _ } = self;
        items
    }
}

/// An answer, behind which there are no texts where it is a refusal.
pub fn kept_texts<T: Drop>(
    alloc: Global,
    texts: &mut Texts,
    answer: Result<T, CheckErr>,
) -> Result<T, CheckErr>
    ensures same { result ≡ answer }
    ensures kept { OnOk result (texts.new ≡ texts.old) }
    ensures refused { OnErr result (texts.new ≡ []) }
{
    match answer {
        Ok(found) => Ok(found),
        Err(error) => {
            *texts = Texts::new(alloc);
            Err(error)
        }
    }
}
