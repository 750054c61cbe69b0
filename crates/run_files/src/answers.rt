// Lists of port answers: one word per line.
ghost use Rattle.std.specs.Prelude.{◌≡◌, ◌≤◌, [], List, ℕ, length, option_map, IfOk, Ok, Err};
ghost use Rattle.std.specs.List.{starts_with};
ghost use Rattle.line_text.specs.Reading.{read_from};
ghost use Rattle.line_text.specs.Lines.{lines_of};
ghost use Rattle.run_files.specs.Answers.{answer_of, answer_step, ReadAs};
ghost use Rattle.run_files.specs.AnswersFile.{IsAnswersFile, IsFirstFaulty};
ghost use Rattle.run_files.specs.declared.answers.AnswerErr.TheVariants.{At};

use line_text::{LineErr, LineReader, LinesErr, decimal_word, hexadecimal_word, read_lines};
use std::alloc::Global;
use std::marker::Model;
use thiserror::Error;

/// Why a list of answers was refused: its first faulty line, counted from 1, or want of memory.
#[derive(Clone, Copy, Debug, PartialEq, Eq, Error)]
pub enum AnswerErr {
    #[error("no word at line {line}")]
    At { line: u32 },
    #[error("out of memory")]
    Memory,
}

/// The word of a line: decimal, or `0x` with hexadecimal digits of either case.
#[tactic(auto, unfolding(crate::specs::Answers::answer_of))]
fn answer_of(line: &[u8]) -> Option<u32>
    ensures { result ≡ answer_of line.now }
{
    if line.starts_with(b"0x") {
        hexadecimal_word(&line[2..])
    } else {
        decimal_word(line)
    }
}

#[derive(Drop)]
struct AnswersReader {
    words: Vec<u32>,
}

impl Model for AnswersReader {
    ghost use Rattle.std.specs.Prelude.{List, ℕ};

    ghost Value = { List ℕ };

    ghost view = { λ r. r.words.items };
}

impl LineReader for AnswersReader {
    ghost step = { answer_step };

    fn line(&mut self, alloc: Global, line: &[u8]) -> Result<(), LineErr> {
        let Some(word) = answer_of(line) else {
            return Err(LineErr::Code(111));
        };
        match self.words.push(word) {
            Ok(()) => Ok(()),
            Err(_) => Err(LineErr::Memory),
        }
    }
}

/// The answers that the lines of the text write.
fn answers_of(alloc: Global, bytes: &[u8]) -> Result<Vec<u32>, AnswerErr>
    requires { length bytes.now ≤ 268435456 }
    ensures { ReadAs result (read_from answer_step 1 [] (lines_of bytes.now)) }
{
    let mut reader = AnswersReader {
        words: Vec::new(alloc),
    };
    match read_lines(alloc, &mut reader, bytes) {
        Ok(()) => {
            let AnswersReader { words } = reader;
            Ok(words)
        }
        Err(LinesErr::At { line, .. }) => Err(AnswerErr::At { line }),
        Err(LinesErr::Memory) => Err(AnswerErr::Memory),
    }
}

/// The answers of that text: one word per line, decimal without a needless leading zero or `0x` with
/// hexadecimal digits, below 2^32; lines end with LF or CR LF, and the last may lack its end. The text
/// has at most 268,435,456 bytes. The error is the first faulty line, or want of memory.
#[tactic(auto, using(crate::proofs::AnswersWhole::is_found))]
pub fn read_answers(alloc: Global, bytes: &[u8]) -> Result<Vec<u32>, AnswerErr>
    requires size { length bytes.now ≤ 268435456 }
    // What is read is what the lines write.
    ensures found { IfOk result (λ v. IsAnswersFile bytes.now v.items) }
    // What the lines write is read, unless memory runs out.
    ensures only { (words : List ℕ) → IsAnswersFile bytes.now words → ReadAs result (Ok words) }
    // The line that a refusal names is the first that writes no word.
    ensures first { (line : ℕ) → result ≡ Err (At line) → IsFirstFaulty bytes.now line }
    // The words, or the first faulty line.
    ensures exact { ReadAs result (read_from answer_step 1 [] (lines_of bytes.now)) }
{
    answers_of(alloc, bytes)
}
