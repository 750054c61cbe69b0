// The lines of a file's tokens, each taken from those that are still to be read.
ghost use Rattle.std.specs.Prelude.{◌≡◌, ◌≤◌, ◌<◌, ◌++◌, ◌∷◌, ◌||◌, ℕ, List, not, length, IfOk, IfSome, OnOk};
ghost use Rattle.c_prep.specs.declared.conditions.Condition.{Condition};
ghost use Rattle.c_prep.specs.Conditions.{skips};
ghost use Rattle.c_prep.specs.Lines.{begins_directive, lines_of};
ghost use Rattle.c_prep.specs.Files.{Including, Progress, lines_at};
ghost use Rattle.c_prep.specs.inner.Inner.{ArePlaced, lines_left};

use crate::directive::begins_directive;
use c_lex::{Token, Tokens};
use kit_base::Memory;
use std::alloc::Global;

/// The line that this token begins.
fn line_from(alloc: Global, first: Token, tokens: &mut Tokens<'_>) -> Result<Vec<Token>, Memory>
    ensures parts { IfOk result (λ l. first ∷ tokens.old ≡ l.items ++ tokens.new) }
    ensures line { IfOk result (λ l. lines_of (first ∷ tokens.old) ≡ l.items ∷ lines_of tokens.new) }
    ensures less { OnOk result (length tokens.new ≤ length tokens.old) }
{
    let mut line = Vec::new(alloc);
    line.push(first)?;
    'each: while let Some(token) = tokens.next_in_line(alloc)? {
        line.push(token)?;
    }
    Ok(line)
}

/// Whether the line that this token begins does anything: in a part that is skipped directives alone do.
fn is_kept(token: &Token, skipped: bool) -> bool
    ensures { result ≡ (not skipped || begins_directive token.now) }
{
    !skipped || begins_directive(token)
}

/// The next line, or, in a part that is skipped, the next that is a directive. No token of another line is held.
pub fn next_line(
    alloc: Global,
    tokens: &mut Tokens<'_>,
    skipped: bool,
) -> Result<Option<Vec<Token>>, Memory>
    ensures told { (include : Including) (p : Progress) (cs : List Condition) → skips cs ≡ skipped
        → IfOk result (λ o. lines_at include (lines_of tokens.old) p cs ≡ lines_at include (lines_left o tokens.new) p cs) }
    ensures less { IfOk result (λ o. IfSome o (λ l. length tokens.new < length tokens.old)) }
    ensures placed { (n : ℕ) → ArePlaced n tokens.old → IfOk result (λ o. IfSome o (λ l. ArePlaced n l.items)) }
    ensures others { (n : ℕ) → ArePlaced n tokens.old → IfOk result (λ o. IfSome o (λ l. ArePlaced n tokens.new)) }
{
    'each: while let Some(token) = tokens.next(alloc)? {
        if is_kept(&token, skipped) {
            return Ok(Some(line_from(alloc, token, tokens)?));
        }
    }
    Ok(None)
}
