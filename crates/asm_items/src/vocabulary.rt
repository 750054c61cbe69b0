// The words of assembly text, and what each stands for.
ghost use Rattle.std.specs.Prelude.{◌≡◌, ◌<◌, IfSome, map, option_map};
ghost use Rattle.std.specs.List.{list_all};
ghost use Rattle.v32_isa.specs.Ports.{port_named};
ghost use Rattle.asm_items.specs.Vocabulary.{entry, is_label, is_label_word, is_letter, is_spelled, is_word, is_word_byte, listed, named, registers};
ghost use Rattle.asm_items.specs.Vocabulary.{vocabulary, word_kind};

use crate::mnemonic::operation_name;
use v32_isa::{Branch, Go, One, Plain, Port, Reg, Two, port_by_name};

/// What a mnemonic stands for: an instruction, less its operands.
#[derive(Clone, Copy, PartialEq, Eq, Debug)]
pub enum Operation {
    Plain(Plain),
    Go(Go),
    Branch(Branch),
    Two(Two),
    One(One),
    Mov,
    Lea,
    In,
    Out,
}

/// The words that begin data: `integer`, `string` and `pointer`.
#[derive(Clone, Copy, PartialEq, Eq, Debug)]
pub enum DataWord {
    Integers,
    Text,
    Pointers,
}

/// What a word is: the mnemonic of a float instruction or of another one, a data word, a register's
/// name, a port's, or none of these.
#[derive(Clone, Copy, PartialEq, Eq, Debug)]
pub enum WordKind {
    Float,
    Operation(Operation),
    Data(DataWord),
    Register(Reg),
    Port(Port),
    Label,
}

const OPERATIONS: [Operation; 38] = [
    Operation::Two(Two::IEQ),
    Operation::Two(Two::INE),
    Operation::Two(Two::IGT),
    Operation::Two(Two::IGE),
    Operation::Two(Two::ILT),
    Operation::Two(Two::ILE),
    Operation::Two(Two::AND),
    Operation::Two(Two::OR),
    Operation::Two(Two::XOR),
    Operation::Two(Two::SHL),
    Operation::Two(Two::IADD),
    Operation::Two(Two::ISUB),
    Operation::Two(Two::IMUL),
    Operation::Two(Two::IDIV),
    Operation::Two(Two::IMOD),
    Operation::Two(Two::IMIN),
    Operation::Two(Two::IMAX),
    Operation::Mov,
    Operation::Lea,
    Operation::In,
    Operation::Out,
    Operation::Plain(Plain::HLT),
    Operation::Plain(Plain::WAIT),
    Operation::Plain(Plain::RET),
    Operation::Plain(Plain::MOVS),
    Operation::Plain(Plain::SETS),
    Operation::Go(Go::JMP),
    Operation::Go(Go::CALL),
    Operation::Branch(Branch::JT),
    Operation::Branch(Branch::JF),
    Operation::One(One::PUSH),
    Operation::One(One::POP),
    Operation::One(One::CMPS),
    Operation::One(One::CIB),
    Operation::One(One::NOT),
    Operation::One(One::BNOT),
    Operation::One(One::ISGN),
    Operation::One(One::IABS),
];

/// The data words, and the mnemonics of float instructions.
const OTHERS: [(&str, WordKind); 29] = [
    ("integer", WordKind::Data(DataWord::Integers)),
    ("string", WordKind::Data(DataWord::Text)),
    ("pointer", WordKind::Data(DataWord::Pointers)),
    ("FEQ", WordKind::Float),
    ("FNE", WordKind::Float),
    ("FGT", WordKind::Float),
    ("FGE", WordKind::Float),
    ("FLT", WordKind::Float),
    ("FLE", WordKind::Float),
    ("CIF", WordKind::Float),
    ("CFI", WordKind::Float),
    ("CFB", WordKind::Float),
    ("FADD", WordKind::Float),
    ("FSUB", WordKind::Float),
    ("FMUL", WordKind::Float),
    ("FDIV", WordKind::Float),
    ("FMOD", WordKind::Float),
    ("FSGN", WordKind::Float),
    ("FMIN", WordKind::Float),
    ("FMAX", WordKind::Float),
    ("FABS", WordKind::Float),
    ("FLR", WordKind::Float),
    ("CEIL", WordKind::Float),
    ("ROUND", WordKind::Float),
    ("SIN", WordKind::Float),
    ("ACOS", WordKind::Float),
    ("ATAN2", WordKind::Float),
    ("LOG", WordKind::Float),
    ("POW", WordKind::Float),
];

const REGISTERS: [(&str, u32); 21] = [
    ("R0", 0),
    ("R1", 1),
    ("R2", 2),
    ("R3", 3),
    ("R4", 4),
    ("R5", 5),
    ("R6", 6),
    ("R7", 7),
    ("R8", 8),
    ("R9", 9),
    ("R10", 10),
    ("R11", 11),
    ("R12", 12),
    ("R13", 13),
    ("R14", 14),
    ("R15", 15),
    ("CR", 11),
    ("SR", 12),
    ("DR", 13),
    ("BP", 14),
    ("SP", 15),
];

fn is_letter(b: u8) -> bool
    ensures { result ≡ is_letter b }
{
    b.is_ascii_alphabetic() || b == b'_'
}

/// Whether a byte may stand in a word: a letter, a digit or `_`.
pub fn is_word_byte(b: u8) -> bool
    ensures value { result ≡ is_word_byte b }
{
    is_letter(b) || b.is_ascii_digit()
}

fn all_word_bytes(bytes: &[u8]) -> bool
    ensures { result ≡ list_all is_word_byte bytes.now }
{
    bytes.iter().all(|b| is_word_byte(*b))
}

/// Whether the bytes are a word: a letter or `_`, then letters, digits and `_`.
fn is_word(bytes: &[u8]) -> bool
    ensures { result ≡ is_word bytes.now }
{
    match bytes.split_first() {
        Some((first, rest)) => is_letter(*first) && all_word_bytes(rest),
        None => false,
    }
}

/// Whether the word is that name, in either case.
#[tactic(auto, using(crate::proofs::Names::same_test))]
fn is_spelled(word: &[u8], name: &str) -> bool
    ensures { result ≡ is_spelled word.now name.now }
{
    word.eq_ignore_ascii_case(name.as_bytes())
}

fn kind_named(entries: &[(&'static str, WordKind)], word: &[u8]) -> Option<WordKind>
    ensures { result ≡ named word.now (map listed entries.now) }
{
    for entry in entries {
        if is_spelled(word, entry.0) {
            return Some(entry.1);
        }
    }
    None
}

fn number_named(entries: &[(&'static str, u32)], word: &[u8]) -> Option<u32>
    ensures { result ≡ named word.now (map listed entries.now) }
{
    for entry in entries {
        if is_spelled(word, entry.0) {
            return Some(entry.1);
        }
    }
    None
}

/// The word among the mnemonics of operations.
fn operation_named(operations: &[Operation], word: &[u8]) -> Option<WordKind>
    ensures { result ≡ named word.now (map entry operations.now) }
{
    for operation in operations {
        if is_spelled(word, operation_name(*operation)) {
            return Some(WordKind::Operation(*operation));
        }
    }
    None
}

/// The word among the mnemonics and the data words.
fn vocabulary_kind(word: &[u8]) -> Option<WordKind>
    ensures { result ≡ named word.now vocabulary }
{
    match operation_named(&OPERATIONS, word) {
        Some(kind) => Some(kind),
        None => kind_named(&OTHERS, word),
    }
}

fn register_number(word: &[u8]) -> Option<u32>
    ensures { result ≡ named word.now registers }
{
    number_named(&REGISTERS, word)
}

#[tactic(auto, using(crate::proofs::Names::register_in_range))]
fn register_named(word: &[u8]) -> Option<Reg>
    ensures { result ≡ named word.now registers }
{
    let number = register_number(word)?;
    Some(Reg::at(number))
}

/// The port of that name. Only texts name one.
#[tactic(auto, using(crate::proofs::Names::ports_are_texts))]
fn port_of_word(word: &[u8]) -> Option<Port>
    ensures { result ≡ option_map (λ e. e.number) (port_named word.now) }
{
    let Ok(name) = str::from_utf8(word) else {
        return None;
    };
    let row = port_by_name(name)?;
    Some(Port::at(row.number))
}

/// What the word is, where mnemonics, data words and registers are read in either case, and ports
/// exactly.
#[tactic(auto, unfolding(crate::specs::Vocabulary::word_kind))]
pub fn word_kind(word: &[u8]) -> WordKind
    ensures kind { result ≡ word_kind word.now }
{
    if let Some(kind) = vocabulary_kind(word) {
        return kind;
    }
    if let Some(register) = register_named(word) {
        return WordKind::Register(register);
    }
    match port_of_word(word) {
        Some(port) => WordKind::Port(port),
        None => WordKind::Label,
    }
}

fn is_label(kind: WordKind) -> bool
    ensures { result ≡ is_label kind }
{
    match kind {
        WordKind::Label => true,
        _ => false,
    }
}

/// Whether the bytes can name a label: a word that is no mnemonic, no data word, no name of a
/// register and no name of a port.
#[tactic(auto, unfolding(crate::specs::Vocabulary::is_label_word))]
pub fn is_label_word(bytes: &[u8]) -> bool
    ensures exact { result ≡ is_label_word bytes.now }
{
    is_word(bytes) && is_label(word_kind(bytes))
}
