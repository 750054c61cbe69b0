// The instructions.
use crate::port::Port;
use crate::register::Reg;

/// Instructions without operands.
#[derive(Clone, Copy, PartialEq, Eq, Debug)]
pub enum Plain {
    HLT,
    WAIT,
    RET,
    MOVS,
    SETS,
}

/// Instructions that go to their operand.
#[derive(Clone, Copy, PartialEq, Eq, Debug)]
pub enum Go {
    JMP,
    CALL,
}

/// Jumps that test a register.
#[derive(Clone, Copy, PartialEq, Eq, Debug)]
pub enum Branch {
    JT,
    JF,
}

/// Instructions on one register.
#[derive(Clone, Copy, PartialEq, Eq, Debug)]
pub enum One {
    PUSH,
    POP,
    CMPS,
    CIB,
    NOT,
    BNOT,
    ISGN,
    IABS,
}

/// Instructions that put what they compute of a register and an operand into the register.
#[derive(Clone, Copy, PartialEq, Eq, Debug)]
pub enum Two {
    IEQ,
    INE,
    IGT,
    IGE,
    ILT,
    ILE,
    AND,
    OR,
    XOR,
    SHL,
    IADD,
    ISUB,
    IMUL,
    IDIV,
    IMOD,
    IMIN,
    IMAX,
}

/// An operand: an immediate word or a register.
#[derive(Clone, Copy, PartialEq, Eq, Debug, Drop)]
pub enum Src<I> {
    Imm(I),
    Reg(Reg),
}

/// The forms of MOV, named by the place that is written and then the place that is read. `At` is
/// the word of memory at an immediate, at a register, or at a register plus an offset (`Off`); the
/// fields stand as the form is written.
#[derive(Clone, Copy, PartialEq, Eq, Debug, Drop)]
pub enum Mov<I> {
    RegImm(Reg, I),
    RegReg(Reg, Reg),
    RegAt(Reg, I),
    RegAtReg(Reg, Reg),
    RegAtOff(Reg, Reg, I),
    AtReg(I, Reg),
    AtRegReg(Reg, Reg),
    AtOffReg(Reg, I, Reg),
}

/// An instruction whose immediates are of type `I`: words, or in assembly text also labels.
#[derive(Clone, Copy, PartialEq, Eq, Debug, Drop)]
pub enum Instr<I> {
    Plain(Plain),
    Go(Go, Src<I>),
    Branch(Branch, Reg, Src<I>),
    Two(Two, Reg, Src<I>),
    One(One, Reg),
    Mov(Mov<I>),
    Lea(Reg, Reg, Option<I>),
    In(Reg, Port),
    Out(Port, Src<I>),
}
