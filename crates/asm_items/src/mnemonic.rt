// The mnemonics, and the names of registers.
ghost use Rattle.std.specs.Prelude.{◌≡◌};
ghost use Rattle.asm_items.specs.Mnemonics.{plain_name, go_name, branch_name, two_name, one_name, operation_name, register_name};

use crate::vocabulary::Operation;
use v32_isa::{Branch, Go, One, Plain, Reg, Two};

pub fn plain_name(p: Plain) -> &'static str
    ensures { result.now ≡ plain_name p }
{
    match p {
        Plain::HLT => "HLT",
        Plain::WAIT => "WAIT",
        Plain::RET => "RET",
        Plain::MOVS => "MOVS",
        Plain::SETS => "SETS",
    }
}

pub fn go_name(g: Go) -> &'static str
    ensures { result.now ≡ go_name g }
{
    match g {
        Go::JMP => "JMP",
        Go::CALL => "CALL",
    }
}

pub fn branch_name(b: Branch) -> &'static str
    ensures { result.now ≡ branch_name b }
{
    match b {
        Branch::JT => "JT",
        Branch::JF => "JF",
    }
}

/// The mnemonic of an operator on two words, as `IADD`.
pub fn two_name(t: Two) -> &'static str
    ensures { result.now ≡ two_name t }
{
    match t {
        Two::IEQ => "IEQ",
        Two::INE => "INE",
        Two::IGT => "IGT",
        Two::IGE => "IGE",
        Two::ILT => "ILT",
        Two::ILE => "ILE",
        Two::AND => "AND",
        Two::OR => "OR",
        Two::XOR => "XOR",
        Two::SHL => "SHL",
        Two::IADD => "IADD",
        Two::ISUB => "ISUB",
        Two::IMUL => "IMUL",
        Two::IDIV => "IDIV",
        Two::IMOD => "IMOD",
        Two::IMIN => "IMIN",
        Two::IMAX => "IMAX",
    }
}

/// The mnemonic of an operator on one word, as `NOT`.
pub fn one_name(o: One) -> &'static str
    ensures { result.now ≡ one_name o }
{
    match o {
        One::PUSH => "PUSH",
        One::POP => "POP",
        One::CMPS => "CMPS",
        One::CIB => "CIB",
        One::NOT => "NOT",
        One::BNOT => "BNOT",
        One::ISGN => "ISGN",
        One::IABS => "IABS",
    }
}

/// The mnemonic of an operation.
pub fn operation_name(o: Operation) -> &'static str
    ensures { result.now ≡ operation_name o }
{
    match o {
        Operation::Plain(p) => plain_name(p),
        Operation::Go(g) => go_name(g),
        Operation::Branch(b) => branch_name(b),
        Operation::Two(t) => two_name(t),
        Operation::One(o) => one_name(o),
        Operation::Mov => "MOV",
        Operation::Lea => "LEA",
        Operation::In => "IN",
        Operation::Out => "OUT",
    }
}

pub fn register_name(r: Reg) -> &'static str
    ensures { result.now ≡ register_name r }
{
    match r.number() {
        0 => "R0",
        1 => "R1",
        2 => "R2",
        3 => "R3",
        4 => "R4",
        5 => "R5",
        6 => "R6",
        7 => "R7",
        8 => "R8",
        9 => "R9",
        10 => "R10",
        11 => "CR",
        12 => "SR",
        13 => "DR",
        14 => "BP",
        _ => "SP",
    }
}
