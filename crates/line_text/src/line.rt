// The first line of a text, and the lines after it.
ghost use Rattle.std.specs.Prelude.{◌≡◌, ◌≤◌, ◌<◌, length, IfSome, IfNone, ◌∷◌, []};
ghost use Rattle.line_text.specs.Lines.{lines_of, without_return};

/// A line that was ended by a newline, without the return before it.
#[tactic(auto, using(crate::proofs::Splitting::returns_at, crate::proofs::Splitting::no_return_at, crate::proofs::Splitting::empty_at))]
fn without_return(line: &[u8]) -> &[u8]
    ensures { result.now ≡ without_return line.now }
{
    let Some((last, front)) = line.split_last() else {
        return line;
    };
    if *last == b'\r' { front } else { line }
}

/// The first line, less its end (LF or CR LF), and what stands after it; none at the end of the text.
#[tactic(auto, using(crate::proofs::Splitting::splitting))]
pub fn first_line(bytes: &[u8]) -> Option<(&[u8], &[u8])>
    ensures some { IfSome result (λ x. lines_of bytes.now ≡ x.0.now ∷ lines_of x.1.now) }
    ensures none { IfNone result (lines_of bytes.now ≡ []) }
    ensures shorter { IfSome result (λ x. length x.1.now < length bytes.now) }
{
    if bytes.len() == 0 {
        return None;
    }
    let mut at = 0;
    let mut rest = bytes;
    'each: while let Some((b, after)) = rest.split_first() {
        if *b == b'\n' {
            return Some((without_return(&bytes[..at]), after));
        }
        at += 1;
        rest = after;
    }
    Some((bytes, rest))
}
