// What an operation names.
use mid_code::{Op, Uses};
use v32_isa::Two;

/// The temporaries that an operation names, but the arguments of a call: its target, and what it uses, in its order.
#[derive(Clone, Copy)]
pub(crate) struct Names {
    pub(crate) target: Option<u32>,
    pub(crate) first: Option<u32>,
    pub(crate) second: Option<u32>,
}

pub(crate) fn names_of(o: &Op<u32>) -> Names {
    let (first, second) = match o.uses() {
        Uses::Nothing => (None, None),
        Uses::One(a) => (Some(a), None),
        Uses::Two(a, b) => (Some(a), Some(b)),
        Uses::All(_) => (None, None),
    };
    Names {
        target: o.target(),
        first,
        second,
    }
}

/// Whether the operation is an instruction on its target, which holds the first operand before.
pub(crate) fn works_in_place(o: &Op<u32>) -> bool {
    match o {
        Op::Move(_, _) => true,
        Op::One(_, _, _) => true,
        Op::Two(_, _, _, _) => true,
        Op::Step(_, _, _) => true,
        Op::Apart(_, _, _) => true,
        Op::PtrTest(_, _, _, _) => true,
        _ => false,
    }
}

/// Whether the operation may make its target where its first operand stood: it works in place, or is a load through that operand.
pub(crate) fn takes_place(o: &Op<u32>) -> bool {
    if let Op::Load(_, _) = o {
        true
    } else {
        works_in_place(o)
    }
}

/// Whether the operator has one that makes the same of its words the other way round.
fn turns(o: Two) -> bool {
    match o {
        Two::IEQ => true,
        Two::INE => true,
        Two::IGT => true,
        Two::IGE => true,
        Two::ILT => true,
        Two::ILE => true,
        Two::AND => true,
        Two::OR => true,
        Two::XOR => true,
        Two::SHL => false,
        Two::IADD => true,
        Two::ISUB => false,
        Two::IMUL => true,
        Two::IDIV => false,
        Two::IMOD => false,
        Two::IMIN => false,
        Two::IMAX => false,
    }
}

/// Whether the emitter can work on the target where that holds the second operand before: with the operands the other way round.
pub(crate) fn can_turn(o: &Op<u32>) -> bool {
    match o {
        Op::Two(o, _, _, _) => turns(*o),
        Op::Step(_, _, _) => true,
        Op::PtrTest(o, _, _, _) => turns(*o),
        _ => false,
    }
}
