// The text of items.
ghost use Rattle.std.specs.Prelude.{◌≡◌, ◌++◌, ◌∷◌, [], codes, IfOk, OnOk};
ghost use Rattle.asm_items.specs.Mnemonics.{register_name};
ghost use Rattle.asm_items.specs.Operands.{Register, AtRegister, AtOffset, AtPort, mov_operands, operands, src_operand};
ghost use Rattle.asm_items.specs.Written.{imm_text, item_line, number_text, operand_list, operand_text, operation_text, port_text, written};

use crate::item::{AsmItem, Imm};
use crate::mnemonic::{
    branch_name, go_name, one_name, operation_name, plain_name, register_name, two_name,
};
use crate::vocabulary::Operation;
use either::Either;
use kit_base::{Memory, hex_digit, word_digits};
use std::alloc::{AllocError, Global};
use v32_isa::{Instr, Mov, Port, Reg, Src};

/// Adds a piece of text.
fn put(out: &mut Vec<u8>, piece: &str) -> Result<(), AllocError>
    ensures { OnOk result (out.new.items ≡ out.old.items ++ piece.now) }
{
    out.extend_from_slice(piece.as_bytes())
}

/// Adds `0x` and eight upper-case digits.
#[tactic(auto, unfolding(crate::specs::Written::number_text))]
fn put_number(out: &mut Vec<u8>, n: u32) -> Result<(), AllocError>
    ensures { OnOk result (out.new.items ≡ out.old.items ++ number_text n) }
{
    put(out, "0x")?;
    out.extend_from_slice(&word_digits(n))
}

/// Adds a port: `0x` and three upper-case digits, or four from 0x1000 on.
#[tactic(auto, unfolding(crate::specs::Written::port_text))]
fn put_port(out: &mut Vec<u8>, port: Port) -> Result<(), AllocError>
    ensures { OnOk result (out.new.items ≡ out.old.items ++ operand_text (AtPort port)) }
{
    let n = port.number();
    let third = hex_digit(n / 0x100 % 16);
    let second = hex_digit(n / 0x10 % 16);
    let first = hex_digit(n % 16);
    if n < 0x1000 {
        out.extend_from_slice(&[b'0', b'x', third, second, first])
    } else {
        let fourth = hex_digit(n / 0x1000 % 16);
        out.extend_from_slice(&[b'0', b'x', fourth, third, second, first])
    }
}

/// Adds an immediate: a number, or a label's name.
fn put_imm(out: &mut Vec<u8>, imm: &Imm) -> Result<(), AllocError>
    ensures { OnOk result (out.new.items ≡ out.old.items ++ imm_text imm.now) }
{
    match imm {
        Either::Left(n) => put_number(out, *n),
        Either::Right(name) => out.extend_from_slice(name.bytes()),
    }
}

/// Adds an immediate or a register.
fn put_src(out: &mut Vec<u8>, src: &Src<Imm>) -> Result<(), AllocError>
    ensures { OnOk result (out.new.items ≡ out.old.items ++ operand_text (src_operand src.now)) }
{
    match src {
        Src::Imm(i) => put_imm(out, i),
        Src::Reg(b) => put(out, register_name(*b)),
    }
}

/// Adds `[B]`.
fn put_at_register(out: &mut Vec<u8>, b: Reg) -> Result<(), AllocError>
    ensures { OnOk result (out.new.items ≡ out.old.items ++ operand_text (AtRegister b)) }
{
    put(out, "[")?;
    put(out, register_name(b))?;
    put(out, "]")
}

/// Adds `[i]`.
fn put_at_imm(out: &mut Vec<u8>, i: &Imm) -> Result<(), AllocError>
    ensures { OnOk result (out.new.items ≡ out.old.items ++ codes "[" ++ imm_text i.now ++ codes "]") }
{
    put(out, "[")?;
    put_imm(out, i)?;
    put(out, "]")
}

/// Adds `[B+i]`.
fn put_at_offset(out: &mut Vec<u8>, b: Reg, i: &Imm) -> Result<(), AllocError>
    ensures { OnOk result (out.new.items ≡ out.old.items ++ operand_text (AtOffset b i.now)) }
{
    put(out, "[")?;
    put(out, register_name(b))?;
    put(out, "+")?;
    put_imm(out, i)?;
    put(out, "]")
}

/// Adds ` A`, the first operand.
fn put_first(out: &mut Vec<u8>, a: Reg) -> Result<(), AllocError>
    ensures { OnOk result (out.new.items ≡ out.old.items ++ operand_list (Register a ∷ [])) }
{
    put(out, " ")?;
    put(out, register_name(a))
}

/// Adds ` A, `, where a second operand follows.
fn put_front(out: &mut Vec<u8>, a: Reg) -> Result<(), AllocError>
    ensures { OnOk result (out.new.items ≡ out.old.items ++ codes " " ++ register_name a ++ codes ", ") }
{
    put_first(out, a)?;
    put(out, ", ")
}

/// Adds `, B`.
fn put_back(out: &mut Vec<u8>, b: Reg) -> Result<(), AllocError>
    ensures { OnOk result (out.new.items ≡ out.old.items ++ codes ", " ++ register_name b) }
{
    put(out, ", ")?;
    put(out, register_name(b))
}

/// Adds the operands of a MOV.
fn put_mov(out: &mut Vec<u8>, m: &Mov<Imm>) -> Result<(), AllocError>
    ensures { OnOk result (out.new.items ≡ out.old.items ++ operand_list (mov_operands m.now)) }
{
    match m {
        Mov::RegImm(a, i) => {
            put_front(out, *a)?;
            put_imm(out, i)
        }
        Mov::RegReg(a, b) => {
            put_first(out, *a)?;
            put_back(out, *b)
        }
        Mov::RegAt(a, i) => {
            put_front(out, *a)?;
            put_at_imm(out, i)
        }
        Mov::RegAtReg(a, b) => {
            put_front(out, *a)?;
            put_at_register(out, *b)
        }
        Mov::RegAtOff(a, b, i) => {
            put_front(out, *a)?;
            put_at_offset(out, *b, i)
        }
        Mov::AtReg(i, b) => {
            put(out, " ")?;
            put_at_imm(out, i)?;
            put_back(out, *b)
        }
        Mov::AtRegReg(a, b) => {
            put(out, " ")?;
            put_at_register(out, *a)?;
            put_back(out, *b)
        }
        Mov::AtOffReg(a, i, b) => {
            put(out, " ")?;
            put_at_offset(out, *a, i)?;
            put_back(out, *b)
        }
    }
}

/// Adds an operation: its mnemonic and its operands.
#[tactic(auto, unfolding(crate::specs::Written::operation_text))]
fn put_operation(out: &mut Vec<u8>, i: &Instr<Imm>) -> Result<(), AllocError>
    ensures { OnOk result (out.new.items ≡ out.old.items ++ operation_text i.now) }
{
    match i {
        Instr::Plain(p) => put(out, plain_name(*p)),
        Instr::Go(g, s) => {
            put(out, go_name(*g))?;
            put(out, " ")?;
            put_src(out, s)
        }
        Instr::Branch(b, a, s) => {
            put(out, branch_name(*b))?;
            put_front(out, *a)?;
            put_src(out, s)
        }
        Instr::Two(t, a, s) => {
            put(out, two_name(*t))?;
            put_front(out, *a)?;
            put_src(out, s)
        }
        Instr::One(o, a) => {
            put(out, one_name(*o))?;
            put_first(out, *a)
        }
        Instr::Mov(m) => {
            put(out, operation_name(Operation::Mov))?;
            put_mov(out, m)
        }
        Instr::Lea(a, b, None) => {
            put(out, operation_name(Operation::Lea))?;
            put_front(out, *a)?;
            put_at_register(out, *b)
        }
        Instr::Lea(a, b, Some(i)) => {
            put(out, operation_name(Operation::Lea))?;
            put_front(out, *a)?;
            put_at_offset(out, *b, i)
        }
        Instr::In(a, p) => {
            put(out, operation_name(Operation::In))?;
            put_front(out, *a)?;
            put_port(out, *p)
        }
        Instr::Out(p, s) => {
            put(out, operation_name(Operation::Out))?;
            put(out, " ")?;
            put_port(out, *p)?;
            put(out, ", ")?;
            put_src(out, s)
        }
    }
}

/// Adds the line of an item.
fn put_item(out: &mut Vec<u8>, item: &AsmItem) -> Result<(), AllocError>
    ensures { OnOk result (out.new.items ≡ out.old.items ++ item_line item.now) }
{
    match item {
        AsmItem::Label(name) => {
            out.extend_from_slice(name.bytes())?;
            put(out, ":\n")
        }
        AsmItem::Op(i) => {
            put_operation(out, i)?;
            put(out, "\n")
        }
        AsmItem::Integer(w) => {
            put(out, "integer ")?;
            put_number(out, *w)?;
            put(out, "\n")
        }
        AsmItem::Pointer(name) => {
            put(out, "pointer ")?;
            out.extend_from_slice(name.bytes())?;
            put(out, "\n")
        }
    }
}

/// The written form of the items, one line per item, each ended by LF: `name:`, a mnemonic in upper
/// case with its operands, `integer 0xWWWWWWWW` or `pointer name`. The error is want of memory.
pub fn write_asm(alloc: Global, items: &[AsmItem]) -> Result<Vec<u8>, Memory>
    ensures { IfOk result (λ v. v.items ≡ written items.now) }
{
    let mut out = Vec::new(alloc);
    'each: for item in items {
        put_item(&mut out, item)?;
    }
    Ok(out)
}
