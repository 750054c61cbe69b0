// Instructions from their words.
ghost use Rattle.std.specs.Prelude.{◌≡◌, ◌∷◌, ℕ, IfSome, IfNone, option_to_list};
ghost use Rattle.v32_isa.specs.Fields.{AreFields};
ghost use Rattle.v32_isa.specs.Table.{Begins};
ghost use Rattle.v32_isa.specs.declared.instruction.Instr.{Instr as AnInstr};
ghost use Rattle.v32_isa.specs.Decoding.{operation_of, mov_at, instr_of, read_of, decoded};

use crate::fields::{Fields, fields_of};
use crate::instruction::{Branch, Go, Instr, Mov, One, Plain, Src, Two};
use crate::port::Port;
use crate::register::Reg;

/// What an opcode names; MOV, LEA, IN and OUT have forms of their own.
#[derive(Clone, Copy)]
pub enum Operation {
    Plain(Plain),
    Go(Go),
    Branch(Branch),
    Two(Two),
    One(One),
    Mov,
    Lea,
    In,
    Out,
}

/// The operation of an opcode.
#[inline(always)]
fn operation_at(opcode: u32) -> Option<Operation>
    ensures { result ≡ operation_of opcode }
{
    match opcode {
        0x00 => Some(Operation::Plain(Plain::HLT)),
        0x01 => Some(Operation::Plain(Plain::WAIT)),
        0x02 => Some(Operation::Go(Go::JMP)),
        0x03 => Some(Operation::Go(Go::CALL)),
        0x04 => Some(Operation::Plain(Plain::RET)),
        0x05 => Some(Operation::Branch(Branch::JT)),
        0x06 => Some(Operation::Branch(Branch::JF)),
        0x07 => Some(Operation::Two(Two::IEQ)),
        0x08 => Some(Operation::Two(Two::INE)),
        0x09 => Some(Operation::Two(Two::IGT)),
        0x0A => Some(Operation::Two(Two::IGE)),
        0x0B => Some(Operation::Two(Two::ILT)),
        0x0C => Some(Operation::Two(Two::ILE)),
        0x13 => Some(Operation::Mov),
        0x14 => Some(Operation::Lea),
        0x15 => Some(Operation::One(One::PUSH)),
        0x16 => Some(Operation::One(One::POP)),
        0x17 => Some(Operation::In),
        0x18 => Some(Operation::Out),
        0x19 => Some(Operation::Plain(Plain::MOVS)),
        0x1A => Some(Operation::Plain(Plain::SETS)),
        0x1B => Some(Operation::One(One::CMPS)),
        0x1E => Some(Operation::One(One::CIB)),
        0x20 => Some(Operation::One(One::NOT)),
        0x21 => Some(Operation::Two(Two::AND)),
        0x22 => Some(Operation::Two(Two::OR)),
        0x23 => Some(Operation::Two(Two::XOR)),
        0x24 => Some(Operation::One(One::BNOT)),
        0x25 => Some(Operation::Two(Two::SHL)),
        0x26 => Some(Operation::Two(Two::IADD)),
        0x27 => Some(Operation::Two(Two::ISUB)),
        0x28 => Some(Operation::Two(Two::IMUL)),
        0x29 => Some(Operation::Two(Two::IDIV)),
        0x2A => Some(Operation::Two(Two::IMOD)),
        0x2B => Some(Operation::One(One::ISGN)),
        0x2C => Some(Operation::Two(Two::IMIN)),
        0x2D => Some(Operation::Two(Two::IMAX)),
        0x2E => Some(Operation::One(One::IABS)),
        _ => None,
    }
}

/// A MOV of these parts.
#[inline(always)]
fn mov_of(a: Reg, b: Reg, mode: u32, immediate: Option<u32>) -> Option<Instr<u32>>
    ensures { result ≡ mov_at a b mode immediate }
{
    let mov = match immediate {
        None => match mode {
            1 => Mov::RegReg(a, b),
            3 => Mov::RegAtReg(a, b),
            6 => Mov::AtRegReg(a, b),
            _ => return None,
        },
        Some(i) => match mode {
            0 if b.number() == 0 => Mov::RegImm(a, i),
            2 if b.number() == 0 => Mov::RegAt(a, i),
            4 => Mov::RegAtOff(a, b, i),
            5 if a.number() == 0 => Mov::AtReg(i, b),
            7 => Mov::AtOffReg(a, i, b),
            _ => return None,
        },
    };
    Some(Instr::Mov(mov))
}

/// The instruction of these parts.
#[inline(always)]
fn instr_at(
    operation: Operation,
    a: Reg,
    b: Reg,
    mode: u32,
    port: Port,
    immediate: Option<u32>,
) -> Option<Instr<u32>>
    ensures { result ≡ instr_of operation a b mode port immediate }
{
    let no_a = a.number() == 0;
    let no_b = b.number() == 0;
    let no_mode = mode == 0;
    let no_port = port.number() == 0;
    match (operation, immediate) {
        (Operation::Plain(p), None) if no_a && no_b && no_mode && no_port => Some(Instr::Plain(p)),
        (Operation::One(o), None) if no_b && no_mode && no_port => Some(Instr::One(o, a)),
        (Operation::Go(g), None) if no_b && no_mode && no_port => Some(Instr::Go(g, Src::Reg(a))),
        (Operation::Go(g), Some(i)) if no_a && no_b && no_mode && no_port => {
            Some(Instr::Go(g, Src::Imm(i)))
        }
        (Operation::Branch(t), None) if no_mode && no_port => Some(Instr::Branch(
            t,
            a,
            Src::Reg(b),
        )),
        (Operation::Branch(t), Some(i)) if no_b && no_mode && no_port => {
            Some(Instr::Branch(t, a, Src::Imm(i)))
        }
        (Operation::Two(t), None) if no_mode && no_port => Some(Instr::Two(t, a, Src::Reg(b))),
        (Operation::Two(t), Some(i)) if no_b && no_mode && no_port => {
            Some(Instr::Two(t, a, Src::Imm(i)))
        }
        (Operation::Mov, _) if no_port => mov_of(a, b, mode, immediate),
        (Operation::Lea, None) if mode == 3 && no_port => Some(Instr::Lea(a, b, None)),
        (Operation::Lea, Some(i)) if mode == 4 && no_port => Some(Instr::Lea(a, b, Some(i))),
        (Operation::In, None) if no_b && no_mode => Some(Instr::In(a, port)),
        (Operation::Out, None) if no_b && no_mode => Some(Instr::Out(port, Src::Reg(a))),
        (Operation::Out, Some(i)) if no_a && no_b && no_mode => Some(Instr::Out(port, Src::Imm(i))),
        _ => None,
    }
}

/// The instruction of a word's fields, with the word after it.
#[inline(always)]
#[tactic(auto, unfolding(crate::specs::Decoding::read_of, crate::specs::Decoding::reads))]
fn read_fields(f: &Fields, second: Option<u32>) -> Option<Instr<u32>>
    requires { AreFields f.now.opcode f.now.flag f.now.one f.now.two f.now.mode f.now.port }
    ensures { result ≡ read_of f.now.opcode f.now.flag f.now.one f.now.two f.now.mode f.now.port second }
{
    let immediate = if f.flag == 0 { None } else { Some(second?) };
    let operation = operation_at(f.opcode)?;
    instr_at(
        operation,
        Reg::at(f.one),
        Reg::at(f.two),
        f.mode,
        Port::at(f.port),
        immediate,
    )
}

/// The instruction whose words begin the words given; none where there is no such instruction.
#[inline(always)]
#[tactic(auto, unfolding(crate::specs::Decoding::decoded))]
pub fn decode(first: u32, second: Option<u32>) -> Option<Instr<u32>>
    ensures value { result ≡ decoded first second }
    ensures found { IfSome result (λ i. Begins i (first ∷ option_to_list second)) }
    ensures none { IfNone result ((i : AnInstr ℕ) → ¬ Begins i (first ∷ option_to_list second)) }
{
    read_fields(&fields_of(first), second)
}
