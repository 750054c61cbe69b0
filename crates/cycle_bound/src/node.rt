// What an item does to a path.
ghost use Rattle.std.specs.Prelude.{◌≡◌, option_map};
ghost use Rattle.v32_isa.specs.declared.instruction.Instr.TheVariants as instr;
ghost use Rattle.asm_laws.specs.Numbers.{kind_of};
ghost use Rattle.cycle_bound.specs.inner.Places.{branch_node, go_node, kind_node, label_of, node_of, place_in};

use asm_items::{AsmItem, Imm};
use assembler::Labels;
use either::Either;
use kit_base::Name;
use v32_isa::{Go, Instr, One, Plain, Src};

/// What an item does to a path: a label that stands there, an instruction that goes on behind it, one that goes to a place or one of two, a call of
/// what stands at a place, the end of the path, and all else. A place is a number of items in front.
#[derive(Clone, Copy)]
pub enum Node {
    Mark,
    Onward,
    Jump(u64),
    Parts(u64),
    Calls(u64),
    Ends,
    Other,
}

/// The place behind a label; the end where there is none.
pub fn place_at(labels: &Labels<'_>, end: u64, name: &Name) -> u64
    ensures { result ≡ place_in labels.now end name.now }
{
    labels.address_of(name).unwrap_or(end)
}

/// The place that an operand names.
fn target(labels: &Labels<'_>, end: u64, s: &Src<Imm>) -> Option<u64>
    ensures { result ≡ option_map (place_in labels.now end) (label_of s.now) }
{
    match s {
        Src::Imm(Either::Right(name)) => Some(place_at(labels, end, name)),
        Src::Imm(Either::Left(_)) | Src::Reg(_) => None,
    }
}

fn go_node(go: Go, target: Option<u64>) -> Node
    ensures { result ≡ go_node go target }
{
    match (go, target) {
        (_, None) => Node::Other,
        (Go::JMP, Some(place)) => Node::Jump(place),
        (Go::CALL, Some(place)) => Node::Calls(place),
    }
}

fn branch_node(target: Option<u64>) -> Node
    ensures { result ≡ branch_node target }
{
    match target {
        None => Node::Other,
        Some(place) => Node::Parts(place),
    }
}

fn plain_node(plain: Plain) -> Node
    ensures { result ≡ kind_node (λ l. 0) (kind_of (instr.Plain plain)) }
{
    match plain {
        Plain::RET | Plain::HLT => Node::Ends,
        Plain::WAIT => Node::Onward,
        Plain::MOVS | Plain::SETS => Node::Other,
    }
}

fn one_node(one: One) -> Node
    ensures { result ≡ kind_node (λ l. 0) (kind_of (instr.One one 0)) }
{
    match one {
        One::CMPS => Node::Other,
        One::PUSH | One::POP | One::CIB | One::NOT | One::BNOT | One::ISGN | One::IABS =>
            Node::Onward,
    }
}

#[tactic(auto, using(crate::proofs::Nodes::gone, crate::proofs::Nodes::parted, crate::proofs::Nodes::plain, crate::proofs::Nodes::one))]
fn instr_node(labels: &Labels<'_>, end: u64, i: &Instr<Imm>) -> Node
    ensures { result ≡ kind_node (place_in labels.now end) (kind_of i.now) }
{
    match i {
        Instr::Plain(plain) => plain_node(*plain),
        Instr::Go(go, s) => go_node(*go, target(labels, end, s)),
        Instr::Branch(_, _, s) => branch_node(target(labels, end, s)),
        Instr::One(one, _) => one_node(*one),
        Instr::Two(_, _, _)
        | Instr::Mov(_)
        | Instr::Lea(_, _, _)
        | Instr::In(_, _)
        | Instr::Out(_, _) => Node::Onward,
    }
}

pub fn node_of(labels: &Labels<'_>, end: u64, item: &AsmItem) -> Node
    ensures { result ≡ node_of (place_in labels.now end) item.now }
{
    match item {
        AsmItem::Label(_) => Node::Mark,
        AsmItem::Op(i) => instr_node(labels, end, i),
        AsmItem::Integer(_) | AsmItem::Pointer(_) => Node::Other,
    }
}
