// Names and texts.
ghost use Rattle.std.specs.Prelude.{◌≡◌, ◌↔◌, List, ℕ, IfOk, IsTrue, IsUtf8};
ghost use Rattle.std.specs.Hash as fed;
ghost use Rattle.std.specs.Str.{bytes_eq};
ghost use Rattle.std.specs.Cmp.Rules.{comparing, hashing};
ghost use Rattle.std.proofs.Common.{rules};
ghost use Rattle.kit_base.specs.Spread.{number_of};

use std::alloc::{AllocError, AllocFailed, Global};
use std::hash::{Hash, Hasher};
use std::marker::Model;
use std::rc::Rc;

/// Memory ran out.
#[derive(Clone, Copy, Debug, PartialEq, Eq, thiserror::Error)]
#[error("out of memory")]
pub struct Memory;

impl From<AllocError> for Memory {
    fn from(_: AllocError) -> Self {
        Memory
    }
}

impl<T: Drop> From<AllocFailed<T>> for Memory {
    fn from(_: AllocFailed<T>) -> Self {
        Memory
    }
}

/// The bytes of a name and a number made of them, by which a table finds the name.
#[derive(Drop)]
struct Shared {
    number: u64,
    bytes: Vec<u8>,
}

/// A text or a name, any bytes, that contracts see as the list of its bytes. Its copies share them. It is hashed by a number that
/// was made of the bytes with the name, in constant time.
#[derive(Drop)]
pub struct Name {
    shared: Rc<Shared>,
}

impl Model for Name {
    ghost Value = { List ℕ };

    ghost view = { λ n. n.shared.value.bytes.items };

    ghost invariant = { λ n. n.shared.value.number ≡ number_of n.shared.value.bytes.items };
}

/// Names of equal bytes are equal.
impl PartialEq for Name {
    ghost eq = { bytes_eq };

    ghost laws = { Prim.search (comparing, rules) };

    fn eq(&self, other: &Name) -> bool {
        self.shared.number == other.shared.number && self.shared.bytes == other.shared.bytes
    }
}

impl Eq for Name {
    ghost laws = { Prim.search (comparing, rules) };
}

impl Hash for Name {
    ghost hash_input = { λ n. fed.u64 (number_of n) };

    ghost respects_eq = { Prim.search (hashing, rules) };

    fn hash<H: Hasher>(&self, state: &mut H) {
        state.write_u64(self.shared.number);
    }
}

/// The number that a name of these bytes keeps.
fn number_of(bytes: &[u8]) -> u64
    ensures number { result ≡ number_of bytes.now }
{
    let mut number = 14_695_981_039_346_656_037u64;
    for b in bytes {
        number = (number ^ u64::from(*b)).wrapping_mul(1_099_511_628_211);
    }
    number
}

impl Name {
    /// The name of that text. The error is want of memory.
    pub fn new(alloc: Global, text: &str) -> Result<Name, Memory>
        ensures { IfOk result (λ n. n ≡ text.now) }
    {
        Name::from_bytes(alloc, text.as_bytes())
    }

    /// The name of these bytes, which need be no text. The error is want of memory.
    pub fn from_bytes(alloc: Global, bytes: &[u8]) -> Result<Name, Memory>
        ensures { IfOk result (λ n. n ≡ bytes.now) }
    {
        let number = number_of(bytes);
        let bytes = Vec::from_slice(alloc, bytes)?;
        Ok(Name {
            shared: Rc::new(alloc, Shared { number, bytes })?,
        })
    }

    pub fn bytes(&self) -> &[u8]
        ensures { result.now ≡ self.now }
    {
        &self.shared.bytes
    }

    /// Whether the bytes are UTF-8.
    pub fn is_text(&self) -> bool
        ensures { IsTrue result ↔ IsUtf8 self.now }
    {
        str::from_utf8(&self.shared.bytes).is_ok()
    }

    pub fn as_str(&self) -> &str
        requires { IsUtf8 self.now }
        ensures { result.now ≡ self.now }
    {
        match str::from_utf8(&self.shared.bytes) {
            Ok(text) => text,
            Err(_) => unreachable!(),
        }
    }

    /// The same name once more, in constant time: its bytes are shared. The error is want of memory.
    pub fn copy(&self) -> Result<Name, Memory>
        ensures { IfOk result (λ n. n ≡ self.now) }
    {
        Ok(Name {
            shared: Rc::clone(&self.shared)?,
        })
    }
}
