// Texts and characters.
ghost use Rattle.std.specs.Prelude.{◌≡◌, IfOk, option_map};
ghost use Rattle.quoted_text.specs.declared.quoted.Within.TheVariants.{Plain};
ghost use Rattle.quoted_text.specs.Quoted.{escaped, escape_turn, turn_of, quoted_at};

use kit_base::{Memory, Seq, digit_value};
use std::alloc::Global;

/// Where one is behind the first quote.
#[derive(Clone, Copy, Debug, PartialEq, Eq)]
pub enum Within {
    Plain,
    Escape,
    High,
    Low(u8),
}

/// What a byte does there.
#[derive(Clone, Copy, Debug, PartialEq, Eq)]
pub enum Turn {
    Ends,
    Fails,
    Goes(Within),
    Gives(u8),
}

#[tactic(auto, unfolding(crate::specs::Quoted::escaped))]
fn escaped(b: u8) -> Option<u8>
    ensures { result ≡ escaped b }
{
    match b {
        b'n' => Some(b'\n'),
        b't' => Some(b'\t'),
        b'r' => Some(b'\r'),
        b'0' => Some(0),
        b'\\' => Some(b'\\'),
        b'\'' => Some(b'\''),
        b'"' => Some(b'"'),
        _ => None,
    }
}

fn escape_turn(b: u8) -> Turn
    ensures { result ≡ escape_turn b (escaped b) }
{
    match escaped(b) {
        Some(given) => Turn::Gives(given),
        None => {
            if b == b'x' {
                Turn::Goes(Within::High)
            } else {
                Turn::Fails
            }
        }
    }
}

#[tactic(auto, unfolding(crate::specs::Quoted::turn_of))]
fn plain_turn(quote: u8, b: u8) -> Turn
    ensures { result ≡ turn_of quote Plain b }
{
    if b == quote {
        return Turn::Ends;
    }
    match b {
        b'\n' => Turn::Fails,
        b'\\' => Turn::Goes(Within::Escape),
        _ => Turn::Gives(b),
    }
}

#[tactic(auto, unfolding(crate::specs::Quoted::turn_of))]
fn turn_of(quote: u8, within: Within, b: u8) -> Turn
    ensures { result ≡ turn_of quote within b }
{
    match within {
        Within::Plain => plain_turn(quote, b),
        Within::Escape => escape_turn(b),
        Within::High => {
            if b.is_ascii_hexdigit() {
                Turn::Goes(Within::Low(digit_value(b)))
            } else {
                Turn::Fails
            }
        }
        Within::Low(high) => {
            if high < 16 && b.is_ascii_hexdigit() {
                Turn::Gives(high * 16 + digit_value(b))
            } else {
                Turn::Fails
            }
        }
    }
}

/// The bytes that stand behind the first quote, and what stands after its end.
#[tactic(auto, using(crate::proofs::Quoting::quoting))]
pub fn quoted_at(alloc: Global, quote: u8, bytes: &[u8]) -> Result<Option<(Seq<u8>, &[u8])>, Memory>
    ensures read { IfOk result (λ o. option_map (λ r. (r.0, r.1.now)) o ≡ quoted_at quote Plain bytes.now) }
{
    let mut out = Vec::new(alloc);
    let mut rest = bytes;
    let mut within = Within::Plain;
    'each: while let Some((b, after)) = rest.split_first() {
        match turn_of(quote, within, *b) {
            Turn::Ends => return Ok(Some((Seq::from_vec(out), after))),
            Turn::Fails => return Ok(None),
            Turn::Goes(next) => within = next,
            Turn::Gives(byte) => {
                out.push(byte)?;
                within = Within::Plain;
            }
        }
        rest = after;
    }
    Ok(None)
}
