// What stands between tokens.

ghost use Rattle.std.specs.Prelude.{◌≡◌, ◌≤◌, ◌+◌, ◌==◌, not, length, take_while, IsTrue, IfSome};
ghost use Rattle.c_lex.specs.Gaps.{splice_len, closes, close_at, comment_len, gap_len};

fn splice_len(bytes: &[u8]) -> usize
    ensures value { result ≡ splice_len bytes.now }
    ensures within { result ≤ length bytes.now + 1 }
{
    match bytes {
        [b'\n', ..] => 2,
        [b'\r', b'\n', ..] => 3,
        _ => 0,
    }
}

fn closes(bytes: &[u8]) -> bool
    ensures value { result ≡ closes bytes.now }
    ensures long { IsTrue result → 2 ≤ length bytes.now }
{
    matches!(bytes, [b'*', b'/', ..])
}

/// How many bytes up to and with the next end of a comment.
#[tactic(auto, using(crate::proofs::Closing::goes_on, crate::proofs::Closing::closed, crate::proofs::Closing::at_end))]
fn close_at(bytes: &[u8]) -> Option<usize>
    ensures value { result ≡ close_at bytes.now }
    ensures within { IfSome result (λ n. n ≤ length bytes.now) }
{
    let mut at = 0;
    let mut rest = bytes;
    'each: while let Some((_, after)) = rest.split_first() {
        if closes(rest) {
            return Some(at + 2);
        }
        at += 1;
        rest = after;
    }
    None
}

fn line_len(bytes: &[u8]) -> usize
    ensures value { result ≡ length (take_while (λ b. not (b == 10)) bytes.now) }
    ensures within { result ≤ length bytes.now }
{
    bytes.iter().take_while(|b| **b != b'\n').count()
}

fn comment_len(bytes: &[u8]) -> usize
    ensures value { result ≡ comment_len bytes.now }
    ensures within { result ≤ length bytes.now + 1 }
{
    match bytes {
        [b'/', rest @ ..] => 2 + line_len(rest),
        [b'*', rest @ ..] => match close_at(rest) {
            Some(len) => 2 + len,
            None => 0,
        },
        _ => 0,
    }
}

/// How many bytes at the front are one gap; 0 where none stands there.
#[tactic(auto, unfolding(crate::specs::Gaps::gap_len))]
pub fn gap_len(bytes: &[u8]) -> usize
    ensures value { result ≡ gap_len bytes.now }
    ensures within { result ≤ length bytes.now }
{
    match bytes {
        [] => 0,
        [b' ' | b'\t' | b'\r' | b'\n', ..] => 1,
        [b'\\', rest @ ..] => splice_len(rest),
        [b'/', rest @ ..] => comment_len(rest),
        [_, ..] => 0,
    }
}
