// Where the tokens of a unit stand.
ghost use Rattle.std.specs.Prelude.{◌≡◌, option_map};
ghost use Rattle.c_front.specs.Names.{name_of, token_at};

use c_lex::Token;
use c_tree::Span;
use kit_base::{Name, Seq};

/// Where the tokens of a unit stand: its source's name, the names of the files read, each at its number,
/// and the tokens in order, each with the number of its file and its line.
#[derive(Drop)]
pub struct Places {
    pub source: Name,
    pub names: Seq<Name>,
    pub tokens: Seq<Token>,
}

/// The name of the file of that number, or the source's where there is none.
pub fn name_of<'a>(source: &'a Name, names: &'a [Name], file: u32) -> &'a Name
    ensures { result.now ≡ name_of source.now names.now file }
{
    names.get(file as usize).unwrap_or(source)
}

/// The token of that number, and the last one at their end and behind it.
fn token_at(tokens: &[Token], number: u32) -> Option<&Token>
    ensures { option_map (λ t. t.now) result ≡ token_at tokens.now number }
{
    let last = tokens.len().saturating_sub(1);
    tokens.get(last.min(number as usize))
}

impl Places {
    ghost use Rattle.c_front.specs.Places.{place_at};

    /// The file and the line, counted from 1, of the token of that number. At the end of the tokens they
    /// are those of the last, and line 1 of the source where there are no tokens.
    pub fn place_at(&self, token: u32) -> (&Name, u32)
        ensures at { (result.0.now, result.1) ≡ place_at self.now token }
    {
        match token_at(self.tokens.as_slice(), token) {
            Some(found) => {
                let name = name_of(&self.source, self.names.as_slice(), found.file);
                (name, found.line)
            }
            None => (&self.source, 1),
        }
    }

    /// The file and the line of the first token of a span.
    pub fn place_of(&self, span: Span) -> (&Name, u32)
        ensures at { (result.0.now, result.1) ≡ place_at self.now span.first }
    {
        self.place_at(span.first)
    }
}
