// Pieces of text: fixed ones, numbers, and lists of numbers.
ghost use Rattle.std.specs.Prelude.{◌≡◌, ◌++◌, ◌∷◌, [], OnOk};
ghost use Rattle.std.specs.String.{string_bytes};
ghost use Rattle.std.specs.Fmt.{decimal};
ghost use Rattle.mid_text.specs.Text.{further, commas, enclosed};

use kit_base::Memory;

/// Adds a piece of text.
pub(crate) fn put(out: &mut String, piece: &str) -> Result<(), Memory>
    ensures { OnOk result (string_bytes out.new ≡ string_bytes out.old ++ piece.now) }
{
    out.push_str(piece)?;
    Ok(())
}

/// Adds a number in decimal.
pub(crate) fn put_number(out: &mut String, n: u64) -> Result<(), Memory>
    ensures { OnOk result (string_bytes out.new ≡ string_bytes out.old ++ decimal n) }
{
    write!(out, "{n}")?;
    Ok(())
}

/// Adds `, N`.
fn put_further(out: &mut String, n: u64) -> Result<(), Memory>
    ensures { OnOk result (string_bytes out.new ≡ string_bytes out.old ++ further (n ∷ [])) }
{
    put(out, ", ")?;
    put_number(out, n)
}

pub(crate) fn put_one(out: &mut String, a: u32) -> Result<(), Memory>
    ensures { OnOk result (string_bytes out.new ≡ string_bytes out.old ++ commas (a ∷ [])) }
{
    put_number(out, u64::from(a))
}

pub(crate) fn put_two(out: &mut String, a: u32, b: u32) -> Result<(), Memory>
    ensures { OnOk result (string_bytes out.new ≡ string_bytes out.old ++ commas (a ∷ b ∷ [])) }
{
    put_one(out, a)?;
    put_further(out, u64::from(b))
}

pub(crate) fn put_three(out: &mut String, a: u32, b: u32, c: u32) -> Result<(), Memory>
    ensures { OnOk result (string_bytes out.new ≡ string_bytes out.old ++ commas (a ∷ b ∷ c ∷ [])) }
{
    put_two(out, a, b)?;
    put_further(out, u64::from(c))
}

fn put_all_further(out: &mut String, ns: &[u32]) -> Result<(), Memory>
    ensures { OnOk result (string_bytes out.new ≡ string_bytes out.old ++ further ns.now) }
{
    'numbers: for n in ns {
        put_further(out, u64::from(*n))?;
    }
    Ok(())
}

fn put_commas(out: &mut String, ns: &[u32]) -> Result<(), Memory>
    ensures { OnOk result (string_bytes out.new ≡ string_bytes out.old ++ commas ns.now) }
{
    match ns.split_first() {
        None => Ok(()),
        Some((n, rest)) => {
            put_one(out, *n)?;
            put_all_further(out, rest)
        }
    }
}

/// Adds numbers in parentheses.
pub(crate) fn put_enclosed(out: &mut String, ns: &[u32]) -> Result<(), Memory>
    ensures { OnOk result (string_bytes out.new ≡ string_bytes out.old ++ enclosed ns.now) }
{
    put(out, "(")?;
    put_commas(out, ns)?;
    put(out, ")")
}

fn put_further_bytes(out: &mut String, bytes: &[u8]) -> Result<(), Memory>
    ensures { OnOk result (string_bytes out.new ≡ string_bytes out.old ++ further bytes.now) }
{
    'bytes: for byte in bytes {
        put_further(out, u64::from(*byte))?;
    }
    Ok(())
}

/// Adds bytes as numbers in parentheses.
pub(crate) fn put_bytes(out: &mut String, bytes: &[u8]) -> Result<(), Memory>
    ensures { OnOk result (string_bytes out.new ≡ string_bytes out.old ++ enclosed bytes.now) }
{
    put(out, "(")?;
    if let Some((first, rest)) = bytes.split_first() {
        put_number(out, u64::from(*first))?;
        put_further_bytes(out, rest)?;
    }
    put(out, ")")
}
