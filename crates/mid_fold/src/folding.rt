// Operations whose words are known.
ghost use Rattle.std.specs.Prelude.{◌≡◌};
ghost use Rattle.mid_fold.specs.Lasting.{one_known, two_known};
ghost use Rattle.mid_fold.specs.inner.Listed.{op_folded, or_word};

use crate::known::word_in;
use mid_code::Op;
use v32_isa::{One, Two, one_word, two_word};

/// What an operator makes of a word, where that is known and it makes one.
#[inline]
pub fn one_known(o: One, x: Option<u32>) -> Option<u32>
    ensures { result ≡ one_known o x }
{
    match x {
        None => None,
        Some(x) => one_word(o, x),
    }
}

/// What an operator makes of two words, where both are known. A division or remainder by 0 makes none.
#[inline]
pub fn two_known(o: Two, x: Option<u32>, y: Option<u32>) -> Option<u32>
    ensures { result ≡ two_known o x y }
{
    match x {
        None => None,
        Some(x) => match y {
            None => None,
            Some(y) => two_word(o, x, y),
        },
    }
}

/// Puts a constant in the place of an operation, where there is a word for it.
fn put_word(t: u32, o: &mut Op<u32>, word: Option<u32>)
    ensures { o.new ≡ or_word t o.old word }
{
    if let Some(word) = word {
        *o = Op::Const(t, word);
    }
}

/// Puts in the place of an operation the one that stands for it.
pub(crate) fn fold_op(words: &[(u32, u32)], o: &mut Op<u32>)
    ensures { o.new ≡ op_folded words.now o.old }
{
    match o {
        Op::Move(t, a) => {
            let t = *t;
            let word = word_in(words, *a);
            put_word(t, o, word);
        }
        Op::One(by, t, a) => {
            let t = *t;
            let word = one_known(*by, word_in(words, *a));
            put_word(t, o, word);
        }
        Op::Two(by, t, a, b) => {
            let t = *t;
            let word = two_known(*by, word_in(words, *a), word_in(words, *b));
            put_word(t, o, word);
        }
        _ => {}
    }
}
