// The lines of a run.
ghost use Rattle.std.specs.Prelude.{◌≡◌, ◌≤◌, ◌++◌, [], ◌∷◌, codes, length};
ghost use Rattle.kit_base.specs.Digits.{word_digits};
ghost use Rattle.trace_core.specs.Texts.{event_line, port_line, end_line};
ghost use Rattle.trace_core.specs.inner.Steps.{last_line};
ghost use Rattle.v32_isa.specs.Runs.End.{Fault};

use crate::digits::without_zeros;
use crate::line::Line;
use kit_base::{Event, word_digits};
use v32_isa::Stepped;

/// The line of a port operation of that kind.
fn port_line(kind: &[u8], port: u32, word: u32) -> Line
    requires { length kind.now ≤ 3 }
    ensures { result ≡ port_line kind.now port word }
{
    let mut line = Line::new();
    line.push_all(kind);
    line.push_all(b" 0x");
    line.push_all(without_zeros(5, &word_digits(port)));
    line.push_all(b" 0x");
    line.push_all(&word_digits(word));
    line.push_all(b"\n");
    line
}

fn plain_line(text: &[u8]) -> Line
    requires { length text.now ≤ 31 }
    ensures { result ≡ text.now ++ 10 ∷ [] }
{
    let mut line = Line::new();
    line.push_all(text);
    line.push_all(b"\n");
    line
}

/// The line of a port operation.
pub fn event_line(event: Event) -> Line
    ensures { result ≡ event_line event }
{
    match event {
        Event::In(port, word) => port_line(b"in", port, word),
        Event::Out(port, word) => port_line(b"out", port, word),
        Event::Wait => plain_line(b"wait"),
    }
}

#[tactic(auto, using(crate::proofs::Decimals::few_digits))]
fn fault_line(number: u32, address: u32) -> Line
    ensures { result ≡ end_line (Fault number) address }
{
    let mut line = Line::new();
    line.push_all(b"fault ");
    line.push_decimal(number);
    line.push_all(b" at 0x");
    line.push_all(&word_digits(address));
    line.push_all(b"\n");
    line
}

fn undecodable_line(at: u32) -> Line
    ensures { result ≡ codes "undecodable at 0x" ++ word_digits at ++ 10 ∷ [] }
{
    let mut line = Line::new();
    line.push_all(b"undecodable at 0x");
    line.push_all(&word_digits(at));
    line.push_all(b"\n");
    line
}

/// The last line of a run whose steps are all done.
pub fn going_line() -> Line
    ensures { result ≡ codes "going" ++ 10 ∷ [] }
{
    plain_line(b"going")
}

/// The last line of a run, where it ends with that step. The address is the counter's.
pub fn last_line(how: Stepped, address: u32) -> Option<Line>
    ensures { result ≡ last_line how address }
{
    match how {
        Stepped::Went | Stepped::Waited => None,
        Stepped::Halted => Some(plain_line(b"halted")),
        Stepped::Starved => Some(plain_line(b"starved")),
        Stepped::Fault(number) => Some(fault_line(number, address)),
        Stepped::Undecodable(at) => Some(undecodable_line(at)),
    }
}
