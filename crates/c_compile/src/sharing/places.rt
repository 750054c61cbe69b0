// Which temporaries stand at a place.
use crate::sharing::operands::names_of;
use mid_code::{Op, Where};

/// The place of a temporary, where it has one.
pub(crate) fn place(at: &[Where], t: u32) -> Option<Where> {
    let i = t as usize;
    if i < at.len() { Some(at[i]) } else { None }
}

fn stands(at: &[Where], t: u32, r: Where) -> bool {
    match place(at, t) {
        Some(w) => w == r,
        None => false,
    }
}

/// Whether the temporary, where there is one, stands at the place.
pub(crate) fn maybe_stands(at: &[Where], t: Option<u32>, r: Where) -> bool {
    match t {
        Some(t) => stands(at, t, r),
        None => false,
    }
}

fn one_stands(at: &[Where], ts: &[u32], r: Where) -> bool {
    for t in ts {
        if stands(at, *t, r) {
            return true;
        }
    }
    false
}

/// Whether an argument of a call stands at the place.
pub(crate) fn argument_stands(at: &[Where], o: &Op<u32>, r: Where) -> bool {
    if let Op::Call(_, _, arguments) = o {
        one_stands(at, arguments.as_slice(), r)
    } else {
        false
    }
}

/// Whether the operation names a temporary that stands at the place.
pub(crate) fn mentions(at: &[Where], o: &Op<u32>, r: Where) -> bool {
    let of = names_of(o);
    maybe_stands(at, of.target, r)
        || maybe_stands(at, of.first, r)
        || maybe_stands(at, of.second, r)
        || argument_stands(at, o, r)
}
