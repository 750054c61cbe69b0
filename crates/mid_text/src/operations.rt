// The text of operations.
ghost use Rattle.std.specs.Prelude.{◌≡◌, ◌++◌, ◌∷◌, [], OnOk};
ghost use Rattle.std.specs.String.{string_bytes};
ghost use Rattle.mid_code.specs.Code.{Stop};
ghost use Rattle.mid_code.specs.Functions.{op_before};
ghost use Rattle.mid_text.specs.Text.{call_text, commas, op_text, target_text};
ghost use Rattle.mid_code.specs.Code.{OneO, TwoO, PtrTestO};
ghost use Rattle.mid_text.specs.inner.Said.{said};

use crate::pieces::{put, put_enclosed, put_number, put_one, put_three, put_two};
use asm_items::{one_name, two_name};
use kit_base::Memory;
use mid_code::Op;
use v32_isa::{One, Two};

fn put_one_word(out: &mut String, o: One, t: u32, a: u32) -> Result<(), Memory>
    ensures { OnOk result (string_bytes out.new ≡ string_bytes out.old ++ op_text (OneO o t a)) }
{
    put(out, "One ")?;
    put(out, one_name(o))?;
    put(out, " ")?;
    put_two(out, t, a)
}

fn put_two_words(out: &mut String, o: Two, t: u32, a: u32, b: u32) -> Result<(), Memory>
    ensures { OnOk result (string_bytes out.new ≡ string_bytes out.old ++ op_text (TwoO o t a b)) }
{
    put(out, "Two ")?;
    put(out, two_name(o))?;
    put(out, " ")?;
    put_three(out, t, a, b)
}

fn put_pointers(out: &mut String, o: Two, t: u32, p: u32, q: u32) -> Result<(), Memory>
    ensures { OnOk result (string_bytes out.new ≡ string_bytes out.old ++ op_text (PtrTestO o t p q)) }
{
    put(out, "PtrTest ")?;
    put(out, two_name(o))?;
    put(out, " ")?;
    put_three(out, t, p, q)
}

fn put_target(out: &mut String, t: Option<u32>) -> Result<(), Memory>
    ensures { OnOk result (string_bytes out.new ≡ string_bytes out.old ++ target_text t) }
{
    match t {
        None => put(out, "-"),
        Some(t) => put_number(out, u64::from(t)),
    }
}

fn put_call(out: &mut String, t: Option<u32>, f: u32, args: &[u32]) -> Result<(), Memory>
    ensures { OnOk result (string_bytes out.new ≡ string_bytes out.old ++ call_text t f args.now) }
{
    put(out, "Call ")?;
    put_target(out, t)?;
    put(out, ", ")?;
    put_number(out, u64::from(f))?;
    put(out, " ")?;
    put_enclosed(out, args)
}

fn put_named_one(out: &mut String, name: &str, a: u32) -> Result<(), Memory>
    ensures { OnOk result (string_bytes out.new ≡ string_bytes out.old ++ name.now ++ commas (a ∷ [])) }
{
    put(out, name)?;
    put_one(out, a)
}

fn put_named_two(out: &mut String, name: &str, a: u32, b: u32) -> Result<(), Memory>
    ensures { OnOk result (string_bytes out.new ≡ string_bytes out.old ++ name.now ++ commas (a ∷ b ∷ [])) }
{
    put(out, name)?;
    put_two(out, a, b)
}

fn put_named_three(out: &mut String, name: &str, a: u32, b: u32, c: u32) -> Result<(), Memory>
    ensures { OnOk result (string_bytes out.new ≡ string_bytes out.old ++ name.now ++ commas (a ∷ b ∷ c ∷ [])) }
{
    put(out, name)?;
    put_three(out, a, b, c)
}

/// Adds an operation with its operands.
pub(crate) fn put_operation(out: &mut String, o: &Op<u32>) -> Result<(), Memory>
    ensures { OnOk result (string_bytes out.new ≡ string_bytes out.old ++ said (op_before o.now Stop)) }
{
    match o {
        Op::Const(t, word) => put_named_two(out, "Const ", *t, *word),
        Op::Null(t) => put_named_one(out, "Null ", *t),
        Op::Move(t, a) => put_named_two(out, "Move ", *t, *a),
        Op::One(o, t, a) => put_one_word(out, *o, *t, *a),
        Op::Two(o, t, a, b) => put_two_words(out, *o, *t, *a, *b),
        Op::Global(t, number) => put_named_two(out, "Global ", *t, *number),
        Op::Local(t, number) => put_named_two(out, "Local ", *t, *number),
        Op::Literal(t, number) => put_named_two(out, "Literal ", *t, *number),
        Op::Card(t) => put_named_one(out, "Card ", *t),
        Op::Step(t, p, n) => put_named_three(out, "Step ", *t, *p, *n),
        Op::Apart(t, p, q) => put_named_three(out, "Apart ", *t, *p, *q),
        Op::PtrTest(o, t, p, q) => put_pointers(out, *o, *t, *p, *q),
        Op::Load(t, p) => put_named_two(out, "Load ", *t, *p),
        Op::Store(p, a) => put_named_two(out, "Store ", *p, *a),
        Op::Fresh(local) => put_named_one(out, "Fresh ", *local),
        Op::End(local) => put_named_one(out, "End ", *local),
        Op::Call(t, f, args) => put_call(out, *t, *f, args.as_slice()),
        Op::In(t, port) => put_named_two(out, "In ", *t, *port),
        Op::Out(port, a) => put_named_two(out, "Out ", *port, *a),
        Op::Wait => put(out, "Wait"),
        Op::Halt => put(out, "Halt"),
    }
}
