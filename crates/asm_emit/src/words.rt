// Numbers and bytes in memory are words. These walk for the proof alone, since what a number in memory is limited to is known of a number at hand.
ghost use Rattle.mid_code.specs.Invariants.{AllOf};
ghost use Rattle.asm_emit.specs.inner.Words.{IsWord, AreWords, TextsAreWords};

use kit_base::Name;

/// A number in memory is a word.
fn word(number: u32)
    ensures { IsWord number }
{
    let _ = number;
}

fn byte(b: u8)
    ensures { IsWord b }
{
    let _ = b;
}

fn bytes(text: &[u8])
    ensures { AreWords text.now }
{
    for b in text {
        byte(*b);
    }
}

pub fn sizes_are_words(sizes: &[u32])
    ensures sizes { AreWords sizes.now }
{
    for size in sizes {
        word(*size);
    }
}

pub fn texts_are_words(texts: &[Name])
    ensures texts { TextsAreWords texts.now }
{
    for text in texts {
        bytes(text.bytes());
    }
}
