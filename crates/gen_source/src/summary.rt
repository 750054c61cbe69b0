// The line that tells of a program made up from a number.
ghost use Rattle.std.specs.Prelude.{◌≡◌, IfOk};
ghost use Rattle.gen_source.specs.Summary.{summary_end, summary_front};

use kit_base::{Memory, join_pieces, word_digits};
use std::alloc::Global;

/// The front of the line that tells of a program made up from a number, up to its last word: that number of functions, and how many tokens its
/// source stands for. The error is want of memory.
#[tactic(auto, unfolding(crate::specs::Summary::summary_front))]
pub fn summary_front(alloc: Global, functions: u32, tokens: u32) -> Result<Vec<u8>, Memory>
    ensures { IfOk result (λ v. v.items ≡ summary_front functions tokens) }
{
    let functions = format!(in alloc; "{}", functions)?;
    let tokens = format!(in alloc; "{}", tokens)?;
    Ok(join_pieces(
        alloc,
        &[
            b"functions ",
            functions.as_bytes(),
            b" tokens ",
            tokens.as_bytes(),
            b" out 0x",
        ],
    )?)
}

/// Its end: the clear colour at the end of the program's run, in eight digits of upper-case hexadecimal, and LF.
#[tactic(auto, unfolding(kit_base::specs::Digits::word_digits))]
pub fn summary_end(color: u32) -> [u8; 9]
    ensures { result ≡ summary_end color }
{
    let [a, b, c, d, e, f, g, h] = word_digits(color);
    [a, b, c, d, e, f, g, h, b'\n']
}
