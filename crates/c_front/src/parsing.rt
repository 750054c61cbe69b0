// From tokens that stand somewhere to their unit.
ghost use Rattle.std.specs.Prelude.{◌≤◌, length, IfOk, IfErr};
ghost use Rattle.c_front.specs.Causes.{IsOfTokens, IsWithin};
ghost use Rattle.c_front.specs.Codes.{HasFrontCode};
ghost use Rattle.c_front.specs.Due.{refusal_at};
ghost use Rattle.c_front.specs.inner.Inner.{Parses, Tells};

use crate::error::FrontErr;
use crate::places::Places;
use crate::unit::Parsed;
use c_parse::{ParseErr, parse, units_have_few_nodes};
use std::alloc::Global;

/// A code at the place of a token.
fn refusal_at(places: &Places, code: u32, token: u32) -> FrontErr
    ensures { Tells result (refusal_at places.now code token) }
{
    let (name, line) = places.place_at(token);
    match name.copy() {
        Ok(file) => FrontErr::Source { code, file, line },
        Err(_) => FrontErr::Memory,
    }
}

/// The unit that the tokens are.
pub fn parse_at(alloc: Global, places: Places) -> Result<Parsed, FrontErr>
    requires fits { length places.tokens ≤ 200000 }
    ensures parsed { Parses places result }
    ensures limits { IfOk result IsWithin }
    ensures kinds { IfErr result IsOfTokens }
    ensures codes { IfErr result HasFrontCode }
{
    units_have_few_nodes();
    match parse(alloc, places.tokens.as_slice()) {
        Ok(unit) => Ok(Parsed { unit, places }),
        Err(ParseErr::Syntax { token }) => Err(refusal_at(&places, 30, token)),
        Err(ParseErr::TooDeep { token }) => Err(refusal_at(&places, 31, token)),
        Err(ParseErr::Unsupported { token, what: _ }) => { Err(refusal_at(&places, 32, token)) }
        Err(ParseErr::Memory) => Err(FrontErr::Memory),
    }
}
