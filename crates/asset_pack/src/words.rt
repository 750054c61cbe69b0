// Words as bytes, and words files.
ghost use Rattle.std.specs.Prelude.{◌≡◌, ◌≤◌, ◌+◌, ◌*◌, ◌++◌, length, IfOk, OnOk, OnErr, List, ℕ, Ok};
ghost use Rattle.kit_base.specs.Gives.{Gives};
ghost use Rattle.asset_pack.specs.Words.{word_text, words_text, word_at, words_of, AreWords, AddsFront};
ghost use Rattle.asset_pack.specs.Texts.{words_file_text, IsProgram};
ghost use Rattle.asset_pack.specs.Tests.{head};
ghost use Rattle.asset_pack.specs.Reading.{words_at, words_in, body};

use crate::error::AssetErr;
use crate::front::{count, file_fault, front_fault};
use crate::kind::Kind;
use byteorder::{ByteOrder, LittleEndian};
use kit_base::Memory;
use std::alloc::{AllocError, Global};

/// The word whose first byte is at that place.
pub fn word_at(bytes: &[u8], place: usize) -> u32
    requires { place + 4 ≤ length bytes.now }
    ensures { result ≡ word_at place bytes.now }
{
    LittleEndian::read_u32(&bytes[place..])
}

/// The `count` words of these bytes, four bytes each, the lowest first. The error is want of memory.
#[tactic(auto, using(crate::proofs::Chunks::read_each))]
pub fn words_of(alloc: Global, bytes: &[u8], count: usize) -> Result<Vec<u32>, AllocError>
    requires { length bytes.now ≡ 4 * count }
    ensures { IfOk result (λ v. v.items ≡ words_of bytes.now) }
{
    let mut words = vec![in alloc; 0u32; count]?;
    LittleEndian::read_u32_into(bytes, &mut words);
    Ok(words)
}

/// The words of the file of that kind at the front, and the bytes after it.
#[tactic(auto, using(crate::proofs::Accepted::heads), unfolding(crate::specs::Reading::words_at, crate::specs::Reading::body))]
pub(crate) fn words_at(
    alloc: Global,
    kind: Kind,
    bytes: &[u8],
) -> Result<(Vec<u32>, &[u8]), AssetErr>
    ensures { Gives (λ x. (x.0.items, x.1.now)) result (words_at kind bytes.now) }
{
    if let Some(e) = front_fault(kind, bytes) {
        return Err(AssetErr::Cause(e));
    }
    let count = count(kind, bytes);
    let (text, rest) = bytes[kind.head()..].split_at(4 * count);
    let words = words_of(alloc, text, count)?;
    Ok((words, rest))
}

/// Adds a word.
pub fn put_word(out: &mut Vec<u8>, word: u32) -> Result<(), Memory>
    ensures text { OnOk result (out.new.items ≡ out.old.items ++ word_text word) }
    ensures refused { OnErr result (out.new.items ≡ out.old.items) }
{
    let mut bytes = [0; 4];
    LittleEndian::write_u32(&mut bytes, word);
    out.extend_from_slice(&bytes)?;
    Ok(())
}

/// Adds words.
pub fn put_words(out: &mut Vec<u8>, words: &[u32]) -> Result<(), Memory>
    ensures text { OnOk result (out.new.items ≡ out.old.items ++ words_text words.now) }
    ensures refused { OnErr result (AddsFront out.old.items (words_text words.now) out.new.items) }
    ensures fits { AreWords words.now }
{
    'each: for word in words {
        put_word(out, *word)?;
    }
    Ok(())
}

/// Adds a file of words: a signature, its sizes, the words.
#[tactic(auto, using(crate::proofs::Laid::laid, crate::proofs::Refused::none_put))]
pub(crate) fn put_file(
    out: &mut Vec<u8>,
    signature: &[u8],
    sizes: &[u32],
    words: &[u32],
) -> Result<(), Memory>
    ensures text { OnOk result (out.new.items ≡ out.old.items ++ (signature.now ++ (words_text sizes.now ++ words_text words.now))) }
    ensures refused { OnErr result (AddsFront out.old.items (signature.now ++ (words_text sizes.now ++ words_text words.now)) out.new.items) }
    ensures fits { AreWords words.now }
{
    out.extend_from_slice(signature)?;
    put_words(out, sizes)?;
    put_words(out, words)?;
    Ok(())
}

/// Adds a words file. There are at most 33,554,432 words.
#[tactic(auto, unfolding(crate::specs::Texts::words_file_text))]
pub fn put_words_file(out: &mut Vec<u8>, words: &[u32]) -> Result<(), Memory>
    requires { length words.now ≤ 33554432 }
    ensures text { OnOk result (out.new.items ≡ out.old.items ++ words_file_text words.now) }
    ensures refused { OnErr result (AddsFront out.old.items (words_file_text words.now) out.new.items) }
    ensures fits { IsProgram words.now }
{
    put_file(out, b"V32-VBIN", &[words.len() as u32], words)
}

/// The words of the words file at the front, and the bytes after it. The error is the first test
/// that fails.
pub fn words_front(alloc: Global, bytes: &[u8]) -> Result<(Vec<u32>, &[u8]), AssetErr>
    ensures { Gives (λ x. (x.0.items, x.1.now)) result (words_at Kind.Words bytes.now) }
{
    words_at(alloc, Kind::Words, bytes)
}

/// The words of a whole file of that kind.
#[tactic(auto, using(crate::proofs::Accepted::whole), unfolding(crate::specs::Reading::words_in, crate::specs::Reading::words_at))]
fn words_in(alloc: Global, kind: Kind, bytes: &[u8]) -> Result<Vec<u32>, AssetErr>
    ensures { Gives (λ v. v.items) result (words_in kind bytes.now) }
{
    if let Some(e) = file_fault(kind, bytes) {
        return Err(AssetErr::Cause(e));
    }
    let (words, _) = words_at(alloc, kind, bytes)?;
    Ok(words)
}

/// The words of a words file. The error is the first test that fails, or want of memory.
#[tactic(auto, using(crate::proofs::Found::program_found, crate::proofs::Found::program_only))]
pub fn read_words(alloc: Global, bytes: &[u8]) -> Result<Vec<u32>, AssetErr>
    // What is read is spelled so, each byte of it.
    ensures found { IfOk result (λ v. IsProgram v.items × (bytes.now ≡ words_file_text v.items)) }
    // What is spelled so is read, unless memory runs out.
    ensures only { (ws : List ℕ) → IsProgram ws → bytes.now ≡ words_file_text ws → Gives (λ v. v.items) result (Ok ws) }
    // The value by the places of its fields, where no test fails, else the first that fails.
    ensures exact { Gives (λ v. v.items) result (words_in Kind.Words bytes.now) }
{
    words_in(alloc, Kind::Words, bytes)
}

/// The words file of these words, at most 33,554,432. The error is want of memory.
pub fn write_words(alloc: Global, words: &[u32]) -> Result<Vec<u8>, Memory>
    requires { length words.now ≤ 33554432 }
    ensures text { IfOk result (λ v. v.items ≡ words_file_text words.now) }
    ensures fits { IfOk result (λ _. IsProgram words.now) }
{
    let mut out = Vec::with_capacity(alloc, 12 + 4 * words.len())?;
    put_words_file(&mut out, words)?;
    Ok(out)
}
