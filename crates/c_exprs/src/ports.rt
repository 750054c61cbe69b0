// Ports by their names.
ghost use Rattle.std.specs.Prelude.{◌≡◌, IfSome, IfNone, IsUtf8, option_map};
ghost use Rattle.v32_isa.specs.Ports.{entry_of, port_named};
ghost use Rattle.c_tree.specs.View.{expr};
ghost use Rattle.c_exprs.specs.Calls.{lone_name, port_by};

use c_tree::Expr;
use v32_isa::{PortRow, port_by_name};

fn text_of(bytes: &[u8]) -> Option<&str>
    ensures some { IfSome result (λ text. text.now ≡ bytes.now) }
    ensures none { IfNone result (¬ IsUtf8 bytes.now) }
{
    str::from_utf8(bytes).ok()
}

#[tactic(auto, using(crate::proofs::PortTexts::no_text))]
fn port_of(name: &[u8]) -> Option<PortRow>
    ensures { option_map entry_of result ≡ port_named name.now }
{
    match text_of(name) {
        Some(text) => port_by_name(text),
        None => None,
    }
}

/// The port that an argument names, which is a name alone.
pub(crate) fn named_port(e: &Expr) -> Option<PortRow>
    ensures { option_map entry_of result ≡ port_by (lone_name (expr e.now)) }
{
    match e {
        Expr::Name(name, _) => port_of(name.bytes()),
        Expr::Number(_, _) | Expr::Text(_, _) | Expr::Null(_) | Expr::Paren(_, _) => None,
        Expr::Unary(_, _, _) | Expr::Binary(_, _, _, _) | Expr::Assign(_, _, _, _) => None,
        Expr::Step(_, _, _) | Expr::Index(_, _, _) | Expr::Member(_, _, _) => None,
        Expr::Arrow(_, _, _) | Expr::Call(_, _, _) | Expr::Cast(_, _, _) => None,
        Expr::SizeOf(_, _) => None,
    }
}
