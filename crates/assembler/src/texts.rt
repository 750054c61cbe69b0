// A text to words, a piece of it after another, so that its items need not be kept.
ghost use Rattle.std.specs.Prelude.{◌≡◌, ◌≤◌, ◌<◌, ◌+◌, ◌++◌, [], true, IfErr, IfOk, IfSome, drop, length, not};
ghost use Rattle.std.specs.List.{take_while};
ghost use Rattle.std.specs.Option.{option_map_or};
ghost use Rattle.kit_base.specs.Gives.{IfCause};
ghost use Rattle.asm_reader.specs.Parted.{parted};
ghost use Rattle.asm_reader.specs.Reading.{is_newline};
ghost use Rattle.assembler.specs.Labels.{address_of, are_words};
ghost use Rattle.assembler.specs.Texts.{AreWordsOf, IsTextRefusal};
ghost use Rattle.assembler.specs.inner.Parts.{AreMore, AreOf, ReadsMore, filled, part_word, words_on};

use crate::assembling::assemble;
use crate::labels::Labels;
use crate::parts::put_parts;
use crate::placement::put_label;
use crate::sizes::MOST_WORDS;
use asm_items::{AsmItem, Imm};
use asm_reader::{AsmErr, read_asm};
use either::Either;
use kit_base::{Memory, Name, Seq};
use std::alloc::Global;

/// What stands for the words of a program, and its labels with their addresses.
#[derive(Drop)]
struct Parts {
    words: Vec<Imm>,
    labels: Vec<(Name, u32)>,
}

/// Adds what stands for the words of items, and their labels. Whether the words are at most the greatest number.
#[tactic(auto, using(crate::proofs::Parted::parting))]
fn take(parts: &mut Parts, items: &[AsmItem]) -> Result<bool, Memory>
    requires { length parts.old.words.items ≤ 33554432 }
    ensures { IfOk result (λ fits. fits ≡ true
        → AreMore parts.old.words.items parts.old.labels.items items.now parts.new.words.items parts.new.labels.items) }
{
    let mut rest = items;
    'each: while let Some((item, after)) = rest.split_first() {
        let address = 0x2000_0000 + parts.words.len() as u32;
        put_label(&mut parts.labels, item, address)?;
        put_parts(&mut parts.words, item)?;
        if parts.words.len() as u64 > MOST_WORDS {
            return Ok(false);
        }
        rest = after;
    }
    Ok(true)
}

/// Adds what stands for a piece of a text. Whether it reads as items, and these fit.
fn take_piece(alloc: Global, parts: &mut Parts, piece: &[u8]) -> Result<bool, Memory>
    requires { length parts.old.words.items ≤ 33554432 }
    ensures { IfOk result (λ fits. fits ≡ true
        → ReadsMore piece.now parts.old.words.items parts.old.labels.items parts.new.words.items parts.new.labels.items) }
{
    match read_asm(alloc, piece) {
        Ok(items) => take(parts, &items),
        Err(AsmErr::Cause(_)) => Ok(false),
        Err(AsmErr::Memory) => Err(Memory),
    }
}

/// How many bytes stand before the first LF.
fn line_len(bytes: &[u8]) -> usize
    ensures value { result ≡ length (take_while (λ b. not (is_newline b)) bytes.now) }
    ensures within { result ≤ length bytes.now }
{
    bytes.iter().take_while(|b| !(**b == b'\n')).count()
}

/// The place of the first LF from a place on, or that behind the last byte.
fn line_end(bytes: &[u8], from: usize) -> usize
    requires { from ≤ length bytes.now }
    ensures value { result ≡ from + length (take_while (λ b. not (is_newline b)) (drop from bytes.now)) }
    ensures within { result ≤ length bytes.now }
{
    let (_, tail) = bytes.split_at(from);
    from + line_len(tail)
}

/// The least number of bytes of a piece, but for the last one.
const PIECE: usize = 65_536;

/// A piece of the text that ends where a line does, and, where an LF ends it, the text after that.
#[tactic(auto, using(crate::proofs::Pieces::more, crate::proofs::Pieces::last, crate::proofs::Pieces::shorter))]
fn first_piece(bytes: &[u8]) -> (&[u8], Option<&[u8]>)
    ensures parts { parted is_newline bytes.now ≡ parted is_newline result.0.now ++ option_map_or (λ r. parted is_newline r.now) result.1 [] }
    ensures shorter { IfSome result.1 (λ r. length r.now < length bytes.now) }
{
    let least = if bytes.len() < PIECE {
        bytes.len()
    } else {
        PIECE
    };
    let (piece, rest) = bytes.split_at(line_end(bytes, least));
    match rest.split_first() {
        Some((_, after)) => (piece, Some(after)),
        None => (piece, None),
    }
}

/// What stands for the words of a text, with its labels; none where it does not read as items, or these do not fit.
#[tactic(auto, using(crate::proofs::Pieces::goes_on))]
fn parts_of_text(alloc: Global, text: &[u8]) -> Result<Option<Parts>, Memory>
    ensures are { IfOk result (λ o. IfSome o (λ p. AreOf text.now p.words.items p.labels.items)) }
    ensures few { IfOk result (λ o. IfSome o (λ p. length p.words.items ≤ 33554432)) }
{
    let mut parts = Parts {
        words: Vec::new(alloc),
        labels: Vec::new(alloc),
    };
    let mut left = Some(text);
    'each: while let Some(rest) = left {
        let (piece, after) = first_piece(rest);
        if !take_piece(alloc, &mut parts, piece)? {
            return Ok(None);
        }
        left = after;
    }
    Ok(Some(parts))
}

/// The table of labels; none where one of them stands twice.
#[tactic(auto, using(crate::proofs::Known::filled_on, crate::proofs::Known::filled_end))]
fn table_of<'a>(alloc: Global, labels: &'a [(Name, u32)]) -> Result<Option<Labels<'a>>, Memory>
    ensures { IfOk result (λ o. IfSome o (λ t. filled [] labels.now ≡ Some t)) }
{
    let mut table = Labels::new(alloc);
    let mut rest = labels;
    'each: while let Some(((name, address), after)) = rest.split_first() {
        if !table.add(name, *address as u64)? {
            return Ok(None);
        }
        rest = after;
    }
    Ok(Some(table))
}

/// The word that a part is, where it is no unknown label.
#[tactic(auto, using(crate::proofs::Lookups::is_word))]
fn part_word(labels: &Labels<'_>, part: &Imm) -> Option<u32>
    requires { are_words labels.now ≡ true }
    ensures { result ≡ part_word labels.now part.now }
{
    match part {
        Either::Left(word) => Some(*word),
        Either::Right(name) => Some(labels.address_of(name)? as u32),
    }
}

/// The words that parts are; none where a label is unknown.
#[tactic(auto, using(crate::proofs::Known::word_on, crate::proofs::Known::words_end))]
fn placed_words(
    alloc: Global,
    labels: &Labels<'_>,
    parts: &[Imm],
) -> Result<Option<Vec<u32>>, Memory>
    requires { are_words labels.now ≡ true }
    ensures { IfOk result (λ o. IfSome o (λ v. words_on labels.now [] parts.now ≡ Some v.items)) }
{
    let mut words = Vec::new(alloc);
    let mut rest = parts;
    'each: while let Some((part, after)) = rest.split_first() {
        match part_word(labels, part) {
            Some(word) => words.push(word)?,
            None => return Ok(None),
        }
        rest = after;
    }
    Ok(Some(words))
}

/// The words of a text; none where it has none.
#[tactic(auto, using(crate::proofs::Known::are_addresses, crate::proofs::Known::are_words_of))]
fn words_of_text(alloc: Global, text: &[u8]) -> Result<Option<Vec<u32>>, Memory>
    ensures { IfOk result (λ o. IfSome o (λ v. AreWordsOf text.now v.items)) }
{
    match parts_of_text(alloc, text)? {
        Some(parts) => match table_of(alloc, &parts.labels)? {
            Some(table) => placed_words(alloc, &table, &parts.words),
            None => Ok(None),
        },
        None => Ok(None),
    }
}

/// The words of a text of assembly, each label being the address of the item after it. Refused are, with the number of the first faulty line, what
/// `read_asm` refuses, and, with the number of the first faulty item, what `assemble` refuses of its items. Want of memory is the one other error. Its
/// items are not kept, but where it is refused.
#[tactic(auto, using(crate::proofs::Known::few, crate::proofs::Known::from_items, crate::proofs::Known::unread, crate::proofs::Known::faulty))]
pub fn assemble_text(alloc: Global, text: &[u8]) -> Result<Seq<u32>, AsmErr>
    ensures words { IfOk result (λ w. AreWordsOf text.now w) }
    ensures few { IfOk result (λ w. length w ≤ 33554432) }
    ensures refused { IfErr result (IfCause (IsTextRefusal text.now)) }
{
    if let Some(words) = words_of_text(alloc, text)? {
        return Ok(Seq::from_vec(words));
    }
    let items = read_asm(alloc, text)?;
    let placement = assemble(alloc, &items)?;
    Ok(placement.words)
}
