// The forms of instructions.
ghost use Rattle.std.specs.Prelude.{◌≡◌};
ghost use Rattle.std.specs.List.{list_all};
ghost use Rattle.kit_base.specs.Gives.{Gives};
ghost use Rattle.asm_reader.specs.Forms.{fits, fits_some, formed, immediate, instruction, is_port, is_source, judged, load_address, moved, move_from};
ghost use Rattle.asm_reader.specs.Forms.{move_to, output, port, port_of, register, source, with_none, with_one, with_two, word_of};

use crate::fault::{LineErr, LineFault};
use crate::value::{Value, Written};
use asm_items::{Imm, Operation};
use either::Either;
use v32_isa::{Instr, Mov, Port, Reg, Src};

/// The word of a number from -2,147,483,648 to 4,294,967,295.
#[tactic(auto, unfolding(crate::specs::Forms::word_of))]
pub fn word_of(negative: bool, magnitude: Option<u32>) -> Option<u32>
    ensures { result ≡ word_of negative magnitude }
{
    let n = magnitude?;
    if !negative {
        return Some(n);
    }
    if n <= 0x8000_0000 {
        Some(0u32.wrapping_sub(n))
    } else {
        None
    }
}

#[tactic(auto, unfolding(crate::specs::Forms::immediate))]
fn immediate(value: &Value) -> Result<Imm, LineErr>
    ensures { Gives (λ x. x) result (immediate value.now) }
{
    match value {
        Value::Number(negative, magnitude) => match word_of(*negative, *magnitude) {
            Some(n) => Ok(Either::Left(n)),
            None => Err(LineErr::Cause(LineFault::NumberTooLarge)),
        },
        Value::Label(name) => Ok(Either::Right(name.copy()?)),
    }
}

#[tactic(auto, unfolding(crate::specs::Forms::port_of))]
fn port_of(negative: bool, magnitude: Option<u32>) -> Option<Port>
    ensures { result ≡ port_of negative magnitude }
{
    let n = magnitude?;
    if negative && n != 0 {
        return None;
    }
    Port::new(n)
}

#[tactic(auto, unfolding(crate::specs::Forms::port))]
fn port(written: &Written) -> Result<Port, LineErr>
    ensures { Gives (λ x. x) result (port written.now) }
{
    match written {
        Written::Port(p) => Ok(*p),
        Written::Value(Value::Number(negative, magnitude)) => match port_of(*negative, *magnitude) {
            Some(p) => Ok(p),
            None => Err(LineErr::Cause(LineFault::NumberTooLarge)),
        },
        _ => Err(LineErr::Cause(LineFault::NoSuchForm)),
    }
}

#[tactic(auto, unfolding(crate::specs::Forms::register))]
fn register(written: &Written) -> Result<Reg, LineErr>
    ensures { Gives (λ x. x) result (register written.now) }
{
    match written {
        Written::Register(a) => Ok(*a),
        _ => Err(LineErr::Cause(LineFault::NoSuchForm)),
    }
}

#[tactic(auto, unfolding(crate::specs::Forms::source))]
fn source(written: &Written) -> Result<Src<Imm>, LineErr>
    ensures { Gives (λ x. x) result (source written.now) }
{
    match written {
        Written::Register(b) => Ok(Src::Reg(*b)),
        Written::Value(v) => Ok(Src::Imm(immediate(v)?)),
        _ => Err(LineErr::Cause(LineFault::NoSuchForm)),
    }
}

#[tactic(auto, unfolding(crate::specs::Forms::move_to))]
fn move_to(a: Reg, second: &Written) -> Result<Instr<Imm>, LineErr>
    ensures { Gives (λ x. x) result (move_to a second.now) }
{
    Ok(Instr::Mov(match second {
        Written::Value(v) => Mov::RegImm(a, immediate(v)?),
        Written::Register(b) => Mov::RegReg(a, *b),
        Written::AtValue(v) => Mov::RegAt(a, immediate(v)?),
        Written::AtRegister(b) => Mov::RegAtReg(a, *b),
        Written::AtOffset(b, v) => Mov::RegAtOff(a, *b, immediate(v)?),
        Written::Port(_) => return Err(LineErr::Cause(LineFault::NoSuchForm)),
    }))
}

#[tactic(auto, unfolding(crate::specs::Forms::move_from))]
fn move_from(b: Reg, first: &Written) -> Result<Instr<Imm>, LineErr>
    ensures { Gives (λ x. x) result (move_from b first.now) }
{
    Ok(Instr::Mov(match first {
        Written::AtValue(v) => Mov::AtReg(immediate(v)?, b),
        Written::AtRegister(a) => Mov::AtRegReg(*a, b),
        Written::AtOffset(a, v) => Mov::AtOffReg(*a, immediate(v)?, b),
        _ => return Err(LineErr::Cause(LineFault::NoSuchForm)),
    }))
}

#[tactic(auto, unfolding(crate::specs::Forms::moved))]
fn move_of(first: &Written, second: &Written) -> Result<Instr<Imm>, LineErr>
    ensures { Gives (λ x. x) result (moved first.now second.now) }
{
    if let Written::Register(a) = first {
        return move_to(*a, second);
    }
    let b = register(second)?;
    move_from(b, first)
}

#[tactic(auto, unfolding(crate::specs::Forms::load_address))]
fn load_address(a: Reg, second: &Written) -> Result<Instr<Imm>, LineErr>
    ensures { Gives (λ x. x) result (load_address a second.now) }
{
    match second {
        Written::AtRegister(b) => Ok(Instr::Lea(a, *b, None)),
        Written::AtOffset(b, v) => Ok(Instr::Lea(a, *b, Some(immediate(v)?))),
        _ => Err(LineErr::Cause(LineFault::NoSuchForm)),
    }
}

fn is_port(written: &Written) -> bool
    ensures { result ≡ is_port written.now }
{
    match written {
        Written::Port(_) => true,
        Written::Value(Value::Number(_, _)) => true,
        _ => false,
    }
}

fn is_source(written: &Written) -> bool
    ensures { result ≡ is_source written.now }
{
    match written {
        Written::Register(_) => true,
        Written::Value(_) => true,
        _ => false,
    }
}

#[tactic(auto, unfolding(crate::specs::Forms::output))]
fn output(first: &Written, second: &Written) -> Result<Instr<Imm>, LineErr>
    ensures { Gives (λ x. x) result (output first.now second.now) }
{
    if !(is_port(first) && is_source(second)) {
        return Err(LineErr::Cause(LineFault::NoSuchForm));
    }
    let p = port(first)?;
    let s = source(second)?;
    Ok(Instr::Out(p, s))
}

#[tactic(auto, unfolding(crate::specs::Forms::with_none))]
fn with_none(operation: Operation) -> Result<Instr<Imm>, LineErr>
    ensures { Gives (λ x. x) result (with_none operation) }
{
    match operation {
        Operation::Plain(p) => Ok(Instr::Plain(p)),
        _ => Err(LineErr::Cause(LineFault::NoSuchForm)),
    }
}

#[tactic(auto, unfolding(crate::specs::Forms::with_one))]
fn with_one(operation: Operation, x: &Written) -> Result<Instr<Imm>, LineErr>
    ensures { Gives (λ x. x) result (with_one operation x.now) }
{
    match operation {
        Operation::Go(g) => Ok(Instr::Go(g, source(x)?)),
        Operation::One(one) => Ok(Instr::One(one, register(x)?)),
        _ => Err(LineErr::Cause(LineFault::NoSuchForm)),
    }
}

#[tactic(auto, unfolding(crate::specs::Forms::with_two))]
fn with_two(operation: Operation, x: &Written, y: &Written) -> Result<Instr<Imm>, LineErr>
    ensures { Gives (λ x. x) result (with_two operation x.now y.now) }
{
    match operation {
        Operation::Branch(b) => {
            let a = register(x)?;
            Ok(Instr::Branch(b, a, source(y)?))
        }
        Operation::Two(two) => {
            let a = register(x)?;
            Ok(Instr::Two(two, a, source(y)?))
        }
        Operation::Mov => move_of(x, y),
        Operation::Lea => {
            let a = register(x)?;
            load_address(a, y)
        }
        Operation::In => {
            let a = register(x)?;
            Ok(Instr::In(a, port(y)?))
        }
        Operation::Out => output(x, y),
        _ => Err(LineErr::Cause(LineFault::NoSuchForm)),
    }
}

/// The instruction with these operands, whatever range the others' numbers have.
#[tactic(auto, unfolding(crate::specs::Forms::formed))]
fn formed(operation: Operation, operands: &[Written]) -> Result<Instr<Imm>, LineErr>
    ensures { Gives (λ x. x) result (formed operation operands.now) }
{
    let Some((x, rest)) = operands.split_first() else {
        return with_none(operation);
    };
    let Some((y, rest)) = rest.split_first() else {
        return with_one(operation, x);
    };
    if rest.is_empty() {
        with_two(operation, x, y)
    } else {
        Err(LineErr::Cause(LineFault::NoSuchForm))
    }
}

fn fits(value: &Value) -> bool
    ensures { result ≡ fits value.now }
{
    match value {
        Value::Label(_) => true,
        Value::Number(negative, magnitude) => word_of(*negative, *magnitude).is_some(),
    }
}

fn fits_some(written: &Written) -> bool
    ensures { result ≡ fits_some written.now }
{
    match written {
        Written::Value(v) => fits(v),
        Written::AtValue(v) => fits(v),
        Written::AtOffset(_, v) => fits(v),
        _ => true,
    }
}

pub fn all_fit(operands: &[Written]) -> bool
    ensures { result ≡ list_all fits_some operands.now }
{
    operands.iter().all(|x| fits_some(x))
}

/// The instruction with these operands, or the fault of the line.
#[tactic(auto, unfolding(crate::specs::Forms::instruction))]
pub fn instruction(operation: Operation, operands: &[Written]) -> Result<Instr<Imm>, LineErr>
    ensures { Gives (λ x. x) result (instruction operation operands.now) }
{
    match formed(operation, operands) {
        Ok(i) => Ok(i),
        Err(LineErr::Cause(LineFault::NoSuchForm)) => {
            if all_fit(operands) {
                Err(LineErr::Cause(LineFault::NoSuchForm))
            } else {
                Err(LineErr::Cause(LineFault::BadLine))
            }
        }
        Err(e) => Err(e),
    }
}
