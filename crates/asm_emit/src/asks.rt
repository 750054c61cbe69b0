// Loops that only ask for one more turn.
ghost use Rattle.std.specs.Prelude.{◌≡◌, ◌++◌, OnOk};
ghost use Rattle.mid_code.specs.Functions.{op_before, nodes};
ghost use Rattle.asm_laws.specs.Asks.{clears, is_ask, ask_of, is_flag, asks_soon, is_unread, asked_items};

use crate::copies::{ends_here, turns_here};
use crate::hands::{op, register};
use asm_items::AsmItem;
use either::Either;
use kit_base::Memory;
use mid_code::{Node, Op, Where};
use v32_isa::{Instr, Mov};

/// Whether a register takes 0, and the next turn of the innermost loop begins.
fn clears(f: u32, xs: &[Node<Where>]) -> bool
    ensures { result ≡ clears f (nodes xs.now) }
{
    let Some((x, rest)) = xs.split_first() else {
        return false;
    };
    match x {
        Node::Do(Op::Const(Where::Reg(t), n)) => *t == f && *n == 0 && turns_here(rest),
        _ => false,
    }
}

/// Whether that is done where the register is not 0, and nothing else.
fn is_ask(f: u32, a: &[Node<Where>], b: &[Node<Where>], rest: &[Node<Where>]) -> bool
    ensures { result ≡ is_ask f (nodes a.now) (nodes b.now) (nodes rest.now) }
{
    f < 9 && clears(f, a) && ends_here(b) && ends_here(rest)
}

/// The register of a turn of such a loop.
#[tactic(auto, unfolding(asm_laws::specs::Asks::ask_of))]
pub(crate) fn ask_of(xs: &[Node<Where>]) -> Option<u32>
    ensures { result ≡ ask_of (nodes xs.now) }
{
    let (x, rest) = xs.split_first()?;
    match x {
        Node::Choose(Where::Reg(f), a, b) => {
            if is_ask(*f, a.as_slice(), b.as_slice(), rest) {
                Some(*f)
            } else {
                None
            }
        }
        _ => None,
    }
}

fn is_flag(y: Option<u32>, r: u32) -> bool
    ensures { result ≡ is_flag y r }
{
    match y {
        None => false,
        Some(f) => r == f,
    }
}

/// Whether only known words are put into registers before such a loop with this register.
#[tactic(auto, unfolding(asm_laws::specs::Asks::asks_soon))]
fn asks_soon(r: u32, xs: &[Node<Where>]) -> bool
    ensures { result ≡ asks_soon r (nodes xs.now) }
{
    for x in xs {
        match x {
            Node::Do(Op::Const(Where::Reg(_), _)) => {}
            Node::Loop(b) => return is_flag(ask_of(b.as_slice()), r),
            _ => return false,
        }
    }
    false
}

/// Whether the word that an operation puts into the register of such a loop is not asked for, since the loop leaves 0 there.
#[tactic(auto, unfolding(asm_laws::specs::Asks::is_unread))]
pub(crate) fn is_unread(o: &Op<Where>, rest: &[Node<Where>]) -> bool
    ensures { result ≡ is_unread (op_before o.now (nodes rest.now)) }
{
    match o {
        Op::Const(Where::Reg(r), _) => asks_soon(*r, rest),
        _ => false,
    }
}

/// Adds what puts 0 into the register of such a loop, where that is asked for behind it.
pub(crate) fn put_asked(out: &mut Vec<AsmItem>, f: u32, asked: bool) -> Result<(), Memory>
    ensures { OnOk result (out.new.items ≡ out.old.items ++ asked_items f asked) }
{
    if asked {
        op(out, Instr::Mov(Mov::RegImm(register(f), Either::Left(0))))
    } else {
        Ok(())
    }
}
