// The text of lists of nodes.
ghost use Rattle.std.specs.Prelude.{◌≡◌, ◌++◌, codes, IfOk, OnOk};
ghost use Rattle.std.specs.String.{string_bytes};
ghost use Rattle.std.specs.Fmt.{decimal};
ghost use Rattle.mid_code.specs.Code.{Stop};
ghost use Rattle.mid_code.specs.Functions.{op_before, node, before, nodes};
ghost use Rattle.mid_text.specs.Text.{line, inside, result_text, nodes_text};

use crate::operations::put_operation;
use crate::pieces::{put, put_number};
use kit_base::Memory;
use mid_code::{Node, Op};
use std::alloc::Global;

/// Adds a line of its own.
fn put_line(out: &mut String, lead: &str, text: &str) -> Result<(), Memory>
    ensures { OnOk result (string_bytes out.new ≡ string_bytes out.old ++ line lead.now text.now) }
{
    put(out, lead)?;
    put(out, text)?;
    put(out, "\n")
}

/// Adds a line that ends with a number.
fn put_numbered(out: &mut String, lead: &str, text: &str, n: u32) -> Result<(), Memory>
    ensures { OnOk result (string_bytes out.new ≡ string_bytes out.old ++ line lead.now (text.now ++ decimal n)) }
{
    put(out, lead)?;
    put(out, text)?;
    put_number(out, u64::from(n))?;
    put(out, "\n")
}

fn put_do(out: &mut String, lead: &str, o: &Op<u32>) -> Result<(), Memory>
    ensures { OnOk result (string_bytes out.new ≡ string_bytes out.old ++ nodes_text lead.now (op_before o.now Stop)) }
{
    put(out, lead)?;
    put(out, "Do ")?;
    put_operation(out, o)?;
    put(out, "\n")
}

fn put_return(out: &mut String, lead: &str, p: Option<u32>) -> Result<(), Memory>
    ensures { OnOk result (string_bytes out.new ≡ string_bytes out.old ++ line lead.now (result_text p)) }
{
    match p {
        None => put_line(out, lead, "Return"),
        Some(p) => put_numbered(out, lead, "Return ", p),
    }
}

/// What stands before the lines of a list inside.
fn inside(alloc: Global, lead: &str) -> Result<String, Memory>
    ensures { IfOk result (λ s. string_bytes s ≡ inside lead.now) }
{
    let mut further = String::from_str(alloc, lead)?;
    further.push_str("  ")?;
    Ok(further)
}

#[cycle(nodes)]
fn put_node(alloc: Global, out: &mut String, lead: &str, n: &Node<u32>) -> Result<(), Memory>
    ensures { OnOk result (string_bytes out.new ≡ string_bytes out.old ++ nodes_text lead.now (before (node n.now) Stop)) }
{
    match n {
        Node::Do(o) => put_do(out, lead, o),
        Node::Choose(p, a, b) => {
            put_numbered(out, lead, "Choose ", *p)?;
            put_inside(alloc, out, lead, a.as_slice())?;
            put_line(out, lead, "else")?;
            put_inside(alloc, out, lead, b.as_slice())
        }
        Node::Block(b) => {
            put_line(out, lead, "Block")?;
            put_inside(alloc, out, lead, b.as_slice())
        }
        Node::Loop(b) => {
            put_line(out, lead, "Loop")?;
            put_inside(alloc, out, lead, b.as_slice())
        }
        Node::Leave(k) => put_numbered(out, lead, "Leave ", *k),
        Node::Again(k) => put_numbered(out, lead, "Again ", *k),
        Node::Return(p) => put_return(out, lead, *p),
    }
}

#[cycle(nodes)]
fn put_inside(alloc: Global, out: &mut String, lead: &str, ns: &[Node<u32>]) -> Result<(), Memory>
    ensures { OnOk result (string_bytes out.new ≡ string_bytes out.old ++ nodes_text (inside lead.now) (nodes ns.now)) }
{
    let further = inside(alloc, lead)?;
    for n in ns {
        put_node(alloc, out, further.as_str(), n)?;
    }
    Ok(())
}

/// Adds the lines of nodes, each behind two spaces.
pub(crate) fn put_body(alloc: Global, out: &mut String, ns: &[Node<u32>]) -> Result<(), Memory>
    ensures { OnOk result (string_bytes out.new ≡ string_bytes out.old ++ nodes_text (codes "  ") (nodes ns.now)) }
{
    put_inside(alloc, out, "", ns)
}
