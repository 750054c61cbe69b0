// Operands as they are written.
use kit_base::Name;
use v32_isa::{Port, Reg};

/// A number (whether it is negative, and its magnitude where that is below 2^32), or a label.
#[derive(Drop)]
pub enum Value {
    Number(bool, Option<u32>),
    Label(Name),
}

/// An operand as it is written: `A`, a port's name, a number or a label, `[B]`, a number or a label in
/// brackets, `[B+i]`. Whether a number is in range is not yet asked.
#[derive(Drop)]
pub enum Written {
    Register(Reg),
    Port(Port),
    Value(Value),
    AtRegister(Reg),
    AtValue(Value),
    AtOffset(Reg, Value),
}
