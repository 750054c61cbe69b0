// The words of the language, which names are.
ghost use Rattle.std.specs.Prelude.{◌≡◌};
ghost use Rattle.std.specs.List.{list_all};
ghost use Rattle.c_check.specs.Words.{is_letter, is_word, is_word_byte};

fn is_letter(b: u8) -> bool
    ensures { result ≡ is_letter b }
{
    b.is_ascii_alphabetic() || b == b'_'
}

fn is_word_byte(b: u8) -> bool
    ensures { result ≡ is_word_byte b }
{
    is_letter(b) || b.is_ascii_digit()
}

fn all_word_bytes(bytes: &[u8]) -> bool
    ensures { result ≡ list_all is_word_byte bytes.now }
{
    bytes.iter().all(|b| is_word_byte(*b))
}

/// Whether the bytes are a letter or `_`, then letters, digits and `_`.
pub(crate) fn is_word(bytes: &[u8]) -> bool
    ensures { result ≡ is_word bytes.now }
{
    match bytes.split_first() {
        Some((first, rest)) => is_letter(*first) && all_word_bytes(rest),
        None => false,
    }
}
