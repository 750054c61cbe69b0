// A text of assembly, line by line.
ghost use Rattle.std.specs.Prelude.{◌≡◌, ◌≤◌, ◌<◌, ◌∷◌, [], IfErr, IfOk, IfSome, Ok, length, not};
ghost use Rattle.std.specs.List.{take_while};
ghost use Rattle.std.specs.Option.{option_map_or};
ghost use Rattle.kit_base.specs.Gives.{Fails};
ghost use Rattle.asm_reader.specs.Faults.{Puts};
ghost use Rattle.asm_reader.specs.Lines.{line_items};
ghost use Rattle.asm_reader.specs.Parted.{parted};
ghost use Rattle.asm_reader.specs.Reading.{fault_at, is_newline, read};
ghost use Rattle.asm_reader.specs.Tokens.{tokens_of};

use crate::error::{AsmErr, AsmFault};
use crate::fault::{LineErr, LineFault, code_of};
use crate::line::put_line;
use crate::token::tokens_of;
use asm_items::AsmItem;
use std::alloc::Global;

/// How many bytes stand before the first LF.
fn line_len(bytes: &[u8]) -> usize
    ensures value { result ≡ length (take_while (λ b. not (is_newline b)) bytes.now) }
    ensures within { result ≤ length bytes.now }
{
    bytes.iter().take_while(|b| !(**b == b'\n')).count()
}

/// The first line, and, where an LF ends it, what stands after that.
#[tactic(auto, using(crate::proofs::Parting::more, crate::proofs::Parting::last, crate::proofs::Parting::shorter))]
fn first_line(bytes: &[u8]) -> (&[u8], Option<&[u8]>)
    ensures parts { parted is_newline bytes.now ≡ result.0.now ∷ option_map_or (λ r. parted is_newline r.now) result.1 [] }
    ensures shorter { IfSome result.1 (λ r. length r.now < length bytes.now) }
{
    let (line, rest) = bytes.split_at(line_len(bytes));
    match rest.split_first() {
        Some((_, after)) => (line, Some(after)),
        None => (line, None),
    }
}

/// Adds the items of a line.
fn put_items(alloc: Global, items: &mut Vec<AsmItem>, line: &[u8]) -> Result<(), LineErr>
    ensures { Puts items.old.items items.new.items result (line_items (tokens_of line.now)) }
{
    let tokens = tokens_of(alloc, line)?;
    put_line(alloc, items, &tokens)
}

fn fault_at(fault: LineFault, number: u64) -> AsmFault
    ensures { result ≡ fault_at fault number }
{
    AsmFault {
        code: code_of(fault),
        at: number,
    }
}

/// The items that the text spells, a line after another. Lines end with LF alone, and count from 1.
/// Refused is the first faulty line: 62 where its mnemonic is that of a float instruction; else 63
/// where a number's range alone is at fault; else 61 where the mnemonic and each operand are well
/// formed, but no instruction takes them so; else 60. Want of memory is the one other error.
#[tactic(auto, using(crate::proofs::Lines::none_before, crate::proofs::Lines::turn, crate::proofs::Lines::refused, crate::proofs::Lines::ended))]
pub fn read_asm(alloc: Global, bytes: &[u8]) -> Result<Vec<AsmItem>, AsmErr>
    ensures items { IfOk result (λ v. read bytes.now ≡ Ok v.items) }
    ensures faulty { IfErr result (λ e. Fails e (read bytes.now)) }
{
    let mut items = Vec::new(alloc);
    let mut number: u64 = 1;
    let mut left = Some(bytes);
    'each: while let Some(rest) = left {
        let (line, after) = first_line(rest);
        match put_items(alloc, &mut items, line) {
            Ok(()) => {}
            Err(LineErr::Cause(fault)) => return Err(AsmErr::Cause(fault_at(fault, number))),
            Err(LineErr::Memory) => return Err(AsmErr::Memory),
        }
        number += 1;
        left = after;
    }
    Ok(items)
}
