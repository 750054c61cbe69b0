// An instruction with other immediates.
ghost use Rattle.std.specs.Prelude.{◌≡◌};
ghost use Rattle.asm_items.specs.Items.{instr_with, mov_with, src_with};

use v32_isa::{Instr, Mov, Src};

/// What takes the place of each immediate: of type `J`, for those of type `I`.
pub trait Immediates<I, J> {
    ghost can_place: { Self → Type 0 };

    ghost placed: { Self → I → J };

    /// What takes the place of this immediate.
    fn placed(&self, imm: &I) -> J
        requires can { can_place self.now }
        ensures placed { result ≡ placed self.now imm.now };
}

fn src_with<I, J, F: Immediates<I, J>>(f: &F, s: &Src<I>) -> Src<J>
    requires { F.can_place f.now }
    ensures { result ≡ src_with (F.placed f.now) s.now }
{
    match s {
        Src::Imm(i) => Src::Imm(f.placed(i)),
        Src::Reg(b) => Src::Reg(*b),
    }
}

fn mov_with<I, J, F: Immediates<I, J>>(f: &F, m: &Mov<I>) -> Mov<J>
    requires { F.can_place f.now }
    ensures { result ≡ mov_with (F.placed f.now) m.now }
{
    match m {
        Mov::RegImm(a, i) => Mov::RegImm(*a, f.placed(i)),
        Mov::RegReg(a, b) => Mov::RegReg(*a, *b),
        Mov::RegAt(a, i) => Mov::RegAt(*a, f.placed(i)),
        Mov::RegAtReg(a, b) => Mov::RegAtReg(*a, *b),
        Mov::RegAtOff(a, b, i) => Mov::RegAtOff(*a, *b, f.placed(i)),
        Mov::AtReg(i, b) => Mov::AtReg(f.placed(i), *b),
        Mov::AtRegReg(a, b) => Mov::AtRegReg(*a, *b),
        Mov::AtOffReg(a, i, b) => Mov::AtOffReg(*a, f.placed(i), *b),
    }
}

/// The instruction with each of its immediates replaced.
pub fn instr_with<I, J, F: Immediates<I, J>>(f: &F, i: &Instr<I>) -> Instr<J>
    requires can { F.can_place f.now }
    ensures with { result ≡ instr_with (F.placed f.now) i.now }
{
    match i {
        Instr::Plain(p) => Instr::Plain(*p),
        Instr::Go(g, s) => Instr::Go(*g, src_with(f, s)),
        Instr::Branch(b, a, s) => Instr::Branch(*b, *a, src_with(f, s)),
        Instr::Two(t, a, s) => Instr::Two(*t, *a, src_with(f, s)),
        Instr::One(o, a) => Instr::One(*o, *a),
        Instr::Mov(m) => Instr::Mov(mov_with(f, m)),
        Instr::Lea(a, b, None) => Instr::Lea(*a, *b, None),
        Instr::Lea(a, b, Some(i)) => Instr::Lea(*a, *b, Some(f.placed(i))),
        Instr::In(a, p) => Instr::In(*a, *p),
        Instr::Out(p, s) => Instr::Out(*p, src_with(f, s)),
    }
}
