// The labels of emitted code.
ghost use Rattle.std.specs.Prelude.{◌≡◌, IfOk, get_or, [], OnOk};
ghost use Rattle.asm_laws.specs.Names.{jump_label, literal_label, function_label};

use kit_base::{Memory, Name, word_digits};
use std::alloc::Global;

/// `l_0x` and eight upper-case digits.
#[tactic(auto, unfolding(asm_items::specs::Written::number_text))]
pub(crate) fn jump_label(alloc: Global, n: u32) -> Result<Name, Memory>
    ensures { IfOk result (λ name. name ≡ jump_label n) }
{
    let mut bytes = Vec::from_slice(alloc, b"l_0x")?;
    bytes.extend_from_slice(&word_digits(n))?;
    Name::from_bytes(alloc, &bytes)
}

/// `t_0x` and eight upper-case digits.
#[tactic(auto, unfolding(asm_items::specs::Written::number_text))]
pub(crate) fn literal_label(alloc: Global, n: u32) -> Result<Name, Memory>
    ensures { IfOk result (λ name. name ≡ literal_label n) }
{
    let mut bytes = Vec::from_slice(alloc, b"t_0x")?;
    bytes.extend_from_slice(&word_digits(n))?;
    Name::from_bytes(alloc, &bytes)
}

/// The bytes of a function's name; none past the last.
fn name_of(names: &[Name], f: u32) -> &[u8]
    ensures { result.now ≡ get_or names.now f [] }
{
    match names.get(f as usize) {
        Some(name) => name.bytes(),
        None => &[],
    }
}

pub(crate) fn function_label(alloc: Global, names: &[Name], f: u32) -> Result<Name, Memory>
    ensures { IfOk result (λ name. name ≡ function_label names.now f) }
{
    let mut bytes = Vec::from_slice(alloc, b"f_")?;
    bytes.extend_from_slice(name_of(names, f))?;
    Name::from_bytes(alloc, &bytes)
}
