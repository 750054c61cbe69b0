// Arguments made in the registers in which a call hands them over.
use crate::sharing::merge::{can_go, is_single, put};
use crate::sharing::places::{argument_stands, place};
use crate::sharing::upwards::may_stand;
use mid_code::{Choice, Function, Node, Op, Where};

/// The functions of a program, and the choices for the start and for those of them that are made already; the next one is for the function that calls.
#[derive(Clone, Copy)]
pub(crate) struct Callees<'a> {
    pub(crate) functions: &'a [Function<u32>],
    pub(crate) choices: &'a [Choice],
    /// Whether register 8 is left to immediate operands by the caller.
    pub(crate) spares: bool,
}

/// The place of a parameter, where its function's choice is made already, or is the one that is being made.
pub(crate) fn place_of(callees: Callees, at: &[Where], g: u32, k: usize) -> Option<Where> {
    let i = g as usize;
    let f = callees.functions.get(i)?;
    let p = f.params.as_slice().get(k)?;
    match callees.choices.get(i.saturating_add(1)) {
        Some(choice) => place(choice.at.as_slice(), *p),
        None => {
            if callees.choices.len() == i.saturating_add(1) {
                place(at, *p)
            } else {
                None
            }
        }
    }
}

/// Whether an argument may be made in the register, which the caller may use.
fn may_go(callees: Callees, from: Where, to: Where) -> bool {
    match to {
        Where::Reg(r) => can_go(from, to) && !(callees.spares && r == 8),
        Where::Slot(_) => false,
    }
}

fn move_argument(
    single: &[bool],
    at: &mut [Where],
    ns: &[Node<u32>],
    i: usize,
    o: &Op<u32>,
    a: u32,
    to: Where,
) {
    if !argument_stands(at, o, to) && may_stand(at, ns, i, a, to) && is_single(single, a) {
        put(at, a, to);
    }
}

/// Moves the arguments of the call that stands at i to the registers of the parameters.
pub(crate) fn merge_arguments(
    single: &[bool],
    at: &mut [Where],
    ns: &[Node<u32>],
    i: usize,
    o: &Op<u32>,
    callees: Callees,
) {
    let Op::Call(_, g, arguments) = o else {
        return;
    };
    let mut k = 0;
    for a in arguments.as_slice() {
        if let (Some(from), Some(to)) = (place(at, *a), place_of(callees, at, *g, k)) {
            if may_go(callees, from, to) {
                move_argument(single, at, ns, i, o, *a, to);
            }
        }
        k = k.saturating_add(1);
    }
}
