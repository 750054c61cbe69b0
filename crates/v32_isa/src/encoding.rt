// The words of instructions.
ghost use Rattle.std.specs.Prelude.{◌≡◌, ◌<◌, ◌∷◌, option_to_list};
ghost use Rattle.v32_isa.specs.Table.{spelling, plain_opcode, go_opcode, branch_opcode, two_opcode, one_opcode, row_of, row, words_of, mov_row};
ghost use Rattle.v32_isa.specs.Table.{src_register, src_immediate};

use crate::fields::{Fields, join_fields};
use crate::instruction::{Branch, Go, Instr, Mov, One, Plain, Src, Two};

/// The words of an instruction: the instruction word, and the immediate where the form has one.
#[derive(Clone, Copy, PartialEq, Eq, Debug)]
pub struct Encoded {
    pub first: u32,
    pub second: Option<u32>,
}

fn opcode_of_plain(p: Plain) -> u32
    ensures value { result ≡ plain_opcode p }
    ensures range { result < 64 }
{
    match p {
        Plain::HLT => 0x00,
        Plain::WAIT => 0x01,
        Plain::RET => 0x04,
        Plain::MOVS => 0x19,
        Plain::SETS => 0x1A,
    }
}

fn opcode_of_go(g: Go) -> u32
    ensures value { result ≡ go_opcode g }
    ensures range { result < 64 }
{
    match g {
        Go::JMP => 0x02,
        Go::CALL => 0x03,
    }
}

fn opcode_of_branch(b: Branch) -> u32
    ensures value { result ≡ branch_opcode b }
    ensures range { result < 64 }
{
    match b {
        Branch::JT => 0x05,
        Branch::JF => 0x06,
    }
}

fn opcode_of_two(t: Two) -> u32
    ensures value { result ≡ two_opcode t }
    ensures range { result < 64 }
{
    match t {
        Two::IEQ => 0x07,
        Two::INE => 0x08,
        Two::IGT => 0x09,
        Two::IGE => 0x0A,
        Two::ILT => 0x0B,
        Two::ILE => 0x0C,
        Two::AND => 0x21,
        Two::OR => 0x22,
        Two::XOR => 0x23,
        Two::SHL => 0x25,
        Two::IADD => 0x26,
        Two::ISUB => 0x27,
        Two::IMUL => 0x28,
        Two::IDIV => 0x29,
        Two::IMOD => 0x2A,
        Two::IMIN => 0x2C,
        Two::IMAX => 0x2D,
    }
}

fn opcode_of_one(o: One) -> u32
    ensures value { result ≡ one_opcode o }
    ensures range { result < 64 }
{
    match o {
        One::PUSH => 0x15,
        One::POP => 0x16,
        One::CMPS => 0x1B,
        One::CIB => 0x1E,
        One::NOT => 0x20,
        One::BNOT => 0x24,
        One::ISGN => 0x2B,
        One::IABS => 0x2E,
    }
}

/// What an instruction puts into its words.
#[derive(Drop)]
struct Parts {
    opcode: u32,
    one: u32,
    two: u32,
    mode: u32,
    port: u32,
    immediate: Option<u32>,
    ghost opcode_fits: { opcode < 64 },
    ghost one_fits: { one < 16 },
    ghost two_fits: { two < 16 },
    ghost mode_fits: { mode < 8 },
    ghost port_fits: { port < 16384 },
}

/// The words of these parts.
fn joined(p: &Parts) -> Encoded
    ensures { words_of (row p.now.opcode p.now.one p.now.two p.now.mode p.now.port p.now.immediate) ≡ result.first ∷ option_to_list result.second }
{
    let flag = if p.immediate.is_some() { 1 } else { 0 };
    let first = join_fields(Fields {
        opcode: p.opcode,
        flag,
        one: p.one,
        two: p.two,
        mode: p.mode,
        port: p.port,
    });
    Encoded {
        first,
        second: p.immediate,
    }
}

/// Parts with no port.
fn portless(opcode: u32, one: u32, two: u32, mode: u32, immediate: Option<u32>) -> Parts
    requires opcode { opcode < 64 }
    requires one { one < 16 }
    requires two { two < 16 }
    requires mode { mode < 8 }
    ensures { row result.opcode result.one result.two result.mode result.port result.immediate ≡ row opcode one two mode 0 immediate }
{
    Parts {
        opcode,
        one,
        two,
        mode,
        port: 0,
        immediate,
    }
}

fn parts_of_mov(m: Mov<u32>) -> Parts
    ensures { row result.opcode result.one result.two result.mode result.port result.immediate ≡ mov_row m }
{
    match m {
        Mov::RegImm(a, i) => portless(0x13, a.number(), 0, 0, Some(i)),
        Mov::RegReg(a, b) => portless(0x13, a.number(), b.number(), 1, None),
        Mov::RegAt(a, i) => portless(0x13, a.number(), 0, 2, Some(i)),
        Mov::RegAtReg(a, b) => portless(0x13, a.number(), b.number(), 3, None),
        Mov::RegAtOff(a, b, i) => portless(0x13, a.number(), b.number(), 4, Some(i)),
        Mov::AtReg(i, b) => portless(0x13, 0, b.number(), 5, Some(i)),
        Mov::AtRegReg(a, b) => portless(0x13, a.number(), b.number(), 6, None),
        Mov::AtOffReg(a, i, b) => portless(0x13, a.number(), b.number(), 7, Some(i)),
    }
}

/// A source's register two and immediate.
fn src_parts(s: Src<u32>) -> (u32, Option<u32>)
    ensures two { result.0 ≡ src_register s }
    ensures immediate { result.1 ≡ src_immediate s }
    ensures range { result.0 < 16 }
{
    match s {
        Src::Imm(i) => (0, Some(i)),
        Src::Reg(b) => (b.number(), None),
    }
}

fn parts_of(i: &Instr<u32>) -> Parts
    ensures { row result.opcode result.one result.two result.mode result.port result.immediate ≡ row_of i.now }
{
    match *i {
        Instr::Plain(p) => portless(opcode_of_plain(p), 0, 0, 0, None),
        Instr::Go(g, s) => {
            let (one, immediate) = src_parts(s);
            portless(opcode_of_go(g), one, 0, 0, immediate)
        }
        Instr::Branch(b, a, s) => {
            let (two, immediate) = src_parts(s);
            portless(opcode_of_branch(b), a.number(), two, 0, immediate)
        }
        Instr::Two(t, a, s) => {
            let (two, immediate) = src_parts(s);
            portless(opcode_of_two(t), a.number(), two, 0, immediate)
        }
        Instr::One(o, a) => portless(opcode_of_one(o), a.number(), 0, 0, None),
        Instr::Mov(m) => parts_of_mov(m),
        Instr::Lea(a, b, None) => portless(0x14, a.number(), b.number(), 3, None),
        Instr::Lea(a, b, Some(i)) => portless(0x14, a.number(), b.number(), 4, Some(i)),
        Instr::In(a, p) => Parts {
            opcode: 0x17,
            one: a.number(),
            two: 0,
            mode: 0,
            port: p.number(),
            immediate: None,
        },
        Instr::Out(p, s) => {
            let (one, immediate) = src_parts(s);
            Parts {
                opcode: 0x18,
                one,
                two: 0,
                mode: 0,
                port: p.number(),
                immediate,
            }
        }
    }
}

/// The words that spell an instruction.
pub fn encode(i: &Instr<u32>) -> Encoded
    ensures words { spelling i.now ≡ result.first ∷ option_to_list result.second }
{
    joined(&parts_of(i))
}
