// The checker.
ghost use Rattle.std.specs.Prelude.{◌≡◌, ◌<◌, ◌≤◌, ◌^◌, [], ℕ, List, length, map, option_map, Ok, Err, IfOk, OnOk};
ghost use Rattle.c_tree.specs.Count.{unit_nodes};
ghost use Rattle.c_tree.specs.Tree.{ItemT};
ghost use Rattle.c_tree.specs.View.{item, unit};
ghost use Rattle.kit_base.specs.declared.failure.Failure.TheVariants.{Cause};
ghost use Rattle.c_exprs.specs.declared.error.Fault.{Fault};
ghost use Rattle.c_exprs.specs.Env.{find};
ghost use Rattle.kit_base.specs.Gives.{Gives};
ghost use Rattle.c_exprs.specs.View.{bodies, names};
ghost use Rattle.c_types.specs.View.{ctype, function};
ghost use Rattle.c_rules.specs.Kinds.{holds};
ghost use Rattle.c_check.specs.Reading.{bodies_of, body_name, numbered, same_types};
ghost use Rattle.c_check.specs.View.{program, un};
ghost use Rattle.c_check.specs.Whole.{WellTyped, IsProgram, FirstBroken, checked, is_plain, last_token, item_span, main_of, plain_number, program_of};
ghost use Rattle.c_types.specs.Programs.{ProgramT};

use crate::access::of_parts;
use crate::functions::next;
use crate::items::read_items;
use crate::program::Program;
use crate::reading::Reading;
use c_exprs::{CheckErr, Globals, known};
use c_rules::Code;
use c_tree::{Item, Span, Unit};
use c_types::{CType, TFunction, is_void};
use kit_base::{Memory, Name};
use std::alloc::Global;

/// Whether a function takes and gives nothing.
fn is_plain(one: Option<&TFunction>) -> bool
    ensures { result ≡ holds is_plain (option_map (λ f. function f.now) one.entry) }
{
    match one {
        Some(one) => has_no_types(one.params.as_slice()) && is_void(&one.result),
        None => false,
    }
}

fn has_no_types(types: &[CType]) -> bool
    ensures { result ≡ same_types (map ctype types.now) [] }
{
    match next(types) {
        Some(_) => false,
        None => true,
    }
}

/// The number of a function of that name that has a body, no parameters and no result.
fn plain_number(reading: &Reading, name: &Name) -> Option<u32>
    ensures { result ≡ plain_number (un reading.now).functions (find name.now (un reading.now).bodies) }
{
    let number = reading.globals.body(name)?;
    if is_plain(reading.functions.get(number as usize)) {
        Some(number)
    } else {
        None
    }
}

/// The number of `void main()`. The error is want of memory.
fn main_number(alloc: Global, reading: &Reading) -> Result<Option<u32>, Memory>
    ensures number { IfOk result (λ r. r ≡ main_of (un reading.now)) }
{
    let name = Name::new(alloc, "main")?;
    Ok(plain_number(reading, &name))
}

fn item_span(one: &Item) -> Span
    ensures { result ≡ item_span (item one.now) }
{
    match one {
        Item::Record { span, .. } => *span,
        Item::Enum { span, .. } => *span,
        Item::Typedef(_, _, span) => *span,
        Item::Vars(_, span) => *span,
        Item::Function { span, .. } => *span,
    }
}

/// The last token; token 0 of a unit without items.
fn last_token(items: &[Item]) -> Span
    ensures { result ≡ last_token (map item items.now) }
{
    let mut token = 0;
    for one in items {
        token = item_span(one).last;
    }
    Span {
        first: token,
        last: token,
    }
}

/// The name of a function that has a body.
fn body_name(one: &Item) -> Option<&Name>
    ensures { option_map (λ n. n.now) result ≡ body_name (item one.now) }
{
    match one {
        Item::Function {
            name,
            body: Some(_),
            ..
        } => Some(name),
        Item::Function { body: None, .. } => None,
        Item::Record { .. } | Item::Enum { .. } | Item::Typedef(_, _, _) | Item::Vars(_, _) => None,
    }
}

/// Gives a function the number, where it has none. The error is want of memory.
fn number_body(globals: &mut Globals, name: &Name, number: u32) -> Result<(), Memory>
    ensures numbered { OnOk result (bodies globals.new ≡ numbered name.now number (bodies globals.old)) }
    ensures names { OnOk result (names globals.new ≡ names globals.old) }
    ensures layouts { OnOk result (globals.new.layouts ≡ globals.old.layouts) }
    ensures whole { OnOk result (globals.new.whole ≡ globals.old.whole) }
{
    if globals.body(name).is_some() {
        return Ok(());
    }
    let key = name.copy()?;
    globals.set_body(key, number)
}

/// The numbers of the functions with a body, where nothing is declared yet. The error is want of memory.
fn number_bodies(alloc: Global, items: &[Item]) -> Result<Globals, Memory>
    requires few { length items.now ≤ 200000 }
    ensures bodies { IfOk result (λ g. bodies g ≡ bodies_of (map item items.now)) }
    ensures names { IfOk result (λ g. names g ≡ []) }
    ensures layouts { IfOk result (λ g. g.layouts.items ≡ []) }
    ensures whole { IfOk result (λ g. g.whole.items ≡ []) }
{
    let mut globals = Globals::new(alloc);
    let mut number = 0u32;
    for one in items {
        if let Some(name) = body_name(one) {
            number_body(&mut globals, name, number)?;
            number += 1;
        }
    }
    Ok(globals)
}

/// The typed program of a unit, which has at most 200,000 nodes. A refusal names the first broken rule in the order of reading: the parts of a node
/// from left to right, then the
/// node, at one node the lowest code; that there is no `void main()` is told last, at the last token. The error `Memory` is want of memory.
pub fn check(alloc: Global, parsed: &Unit) -> Result<Program, CheckErr>
    requires nodes { unit_nodes (unit parsed.now) ≤ 200000 }
    // What is answered is the program of a well typed unit.
    ensures typed { IfOk result (λ p. WellTyped (unit parsed.now) (program p)) }
    // A well typed unit's program is answered, unless memory runs out.
    ensures only { (p : ProgramT) → WellTyped (unit parsed.now) p → Gives program result (Ok p) }
    // A refusal names the rule that is broken first.
    ensures first { (f : Fault) → result ≡ Err (Cause f) → FirstBroken (unit parsed.now) f }
{
    checked(alloc, parsed.items.as_slice())
}

#[tactic(auto, using(crate::proofs::Spent::items_within), unfolding(crate::specs::Whole::checked))]
fn checked(alloc: Global, items: &[Item]) -> Result<Program, CheckErr>
    requires nodes { unit_nodes (map item items.now) ≤ 200000 }
    ensures { Gives program result (checked (map item items.now)) }
{
    let globals = number_bodies(alloc, items)?;
    let mut reading = Reading::new(alloc, globals);
    read_items(alloc, &mut reading, items)?;
    let number = main_number(alloc, &reading)?;
    let main = known(last_token(items), Code::NoMain, number)?;
    Ok(program_of(reading, main))
}

fn program_of(reading: Reading, main: u32) -> Program
    requires made { ∥ IsProgram (program_of (un reading) main) ∥₁ }
    ensures { program result ≡ program_of (un reading) main }
{
    let Reading {
        globals,
        records: _,
        enums: _,
        objects,
        inits,
        functions,
        state,
    } = reading;
    let (_, texts) = state.into_parts();
    of_parts(
        globals.layouts,
        objects.into_vec(),
        inits,
        texts.into_vec(),
        functions,
        main,
    )
}
