// Marks.
ghost use Rattle.std.specs.Prelude.{◌≡◌, ◌≤◌, length, map, take, option_map, IfSome};
ghost use Rattle.c_lex.specs.Marks.{listed, marks, mark_at, mark_of, mark_of_len, spelled_in};
ghost use Rattle.c_lex.specs.inner.Seconds.{goes_on, is_second};

use crate::token::Punct;

const MARKS: [(&str, Punct); 46] = [
    ("{", Punct::OpenBrace),
    ("}", Punct::CloseBrace),
    ("(", Punct::OpenParen),
    (")", Punct::CloseParen),
    ("[", Punct::OpenBracket),
    ("]", Punct::CloseBracket),
    (";", Punct::Semicolon),
    (",", Punct::Comma),
    (".", Punct::Dot),
    ("->", Punct::Arrow),
    ("?", Punct::Question),
    (":", Punct::Colon),
    ("#", Punct::Hash),
    ("=", Punct::Assign),
    ("+=", Punct::PlusAssign),
    ("-=", Punct::MinusAssign),
    ("*=", Punct::StarAssign),
    ("/=", Punct::SlashAssign),
    ("%=", Punct::PercentAssign),
    ("<<=", Punct::ShlAssign),
    (">>=", Punct::ShrAssign),
    ("&=", Punct::AndAssign),
    ("|=", Punct::OrAssign),
    ("^=", Punct::XorAssign),
    ("||", Punct::OrOr),
    ("&&", Punct::AndAnd),
    ("|", Punct::Or),
    ("^", Punct::Xor),
    ("&", Punct::And),
    ("==", Punct::EqualEqual),
    ("!=", Punct::NotEqual),
    ("<", Punct::Less),
    ("<=", Punct::LessEqual),
    (">", Punct::Greater),
    (">=", Punct::GreaterEqual),
    ("<<", Punct::Shl),
    (">>", Punct::Shr),
    ("+", Punct::Plus),
    ("-", Punct::Minus),
    ("*", Punct::Star),
    ("/", Punct::Slash),
    ("%", Punct::Percent),
    ("!", Punct::Bang),
    ("~", Punct::Tilde),
    ("++", Punct::PlusPlus),
    ("--", Punct::MinusMinus),
];

fn spelled_in(entries: &[(&'static str, Punct)], text: &[u8]) -> Option<Punct>
    ensures { result ≡ spelled_in text.now (map listed entries.now) }
{
    for entry in entries {
        if text == entry.0.as_bytes() {
            return Some(entry.1);
        }
    }
    None
}

/// The mark that is spelled so.
#[tactic(auto, unfolding(crate::specs::Marks::mark_of))]
pub fn mark_of(text: &[u8]) -> Option<Punct>
    ensures value { result ≡ mark_of text.now }
{
    spelled_in(&MARKS, text)
}

/// The mark of that length at the front.
fn mark_of_len(len: usize, bytes: &[u8]) -> Option<(usize, Punct)>
    ensures value { result ≡ mark_of_len len bytes.now }
    ensures within { IfSome result (λ x. x.0 ≤ length bytes.now) }
{
    if bytes.len() < len {
        return None;
    }
    let mark = mark_of(&bytes[..len])?;
    Some((len, mark))
}

#[tactic(auto, unfolding(crate::specs::Marks::mark_at, crate::specs::Marks::mark_up_to))]
fn longest_at(bytes: &[u8]) -> Option<(usize, Punct)>
    ensures value { result ≡ mark_at bytes.now }
    ensures within { IfSome result (λ x. x.0 ≤ length bytes.now) }
{
    if let Some(found) = mark_of_len(3, bytes) {
        return Some(found);
    }
    if let Some(found) = mark_of_len(2, bytes) {
        return Some(found);
    }
    mark_of_len(1, bytes)
}

fn is_second(b: u8) -> bool
    ensures { result ≡ is_second b }
{
    b == b'=' || b == b'>' || b == b'<' || b == b'|' || b == b'&' || b == b'+' || b == b'-'
}

/// Whether a mark of several bytes may stand at the front.
fn goes_on(bytes: &[u8]) -> bool
    ensures { result ≡ goes_on bytes.now }
{
    match bytes {
        [_, b, ..] => is_second(*b),
        _ => false,
    }
}

/// The longest mark at the front, and its length.
#[tactic(auto, using(crate::proofs::Seconds::short_mark))]
pub fn mark_at(bytes: &[u8]) -> Option<(usize, Punct)>
    ensures value { result ≡ mark_at bytes.now }
    ensures within { IfSome result (λ x. x.0 ≤ length bytes.now) }
{
    if goes_on(bytes) {
        longest_at(bytes)
    } else {
        mark_of_len(1, bytes)
    }
}
