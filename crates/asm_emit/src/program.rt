// The whole program.
ghost use Rattle.std.specs.Prelude.{ℕ, List, ◌≤◌, ◌≡◌, ◌+◌, ◌-◌, ◌<◌, ◌^◌, ◌++◌, ◌∷◌, [], map, length, OnOk, IfOk};
ghost use Rattle.asm_items.specs.declared.item.AsmItem.TheVariants as item;
ghost use Rattle.mid_code.specs.Functions.{nodes, function};
ghost use Rattle.mid_code.specs.View.{code, spots};
ghost use Rattle.mid_code.specs.Whole.{placed};
ghost use Rattle.asm_laws.specs.Operations.{literal_items, literals_items};
ghost use Rattle.asm_laws.specs.inner.Emitted.{labels, labels_of, functions_labels, entry_items, exit_items, function_items, functions_items};
ghost use Rattle.asm_laws.specs.inner.Emitted.{start_items, closing_items, program_items};
ghost use Rattle.asm_emit.specs.EmittedFrom.{CanBeEmitted, IsEmitted};
ghost use Rattle.asm_emit.specs.inner.Spared.{held_all};
ghost use Rattle.asm_emit.specs.inner.Lasting.{lasting_all};
ghost use Rattle.asm_emit.specs.inner.View.{frame, whole, whole_of_parts, wrapped_addresses};

use crate::framing::{put_frame_gone, put_frame_made};
use crate::hands::op;
use crate::live::lasting_by_each;
use crate::names::{function_label, literal_label};
use crate::nodes::{put_body, put_mark};
use crate::scope::{Around, Scope, scope_at};
use crate::spare::held_by_each;
use crate::words::{sizes_are_words, texts_are_words};
use asm_items::AsmItem;
use either::Either;
use kit_base::{Memory, Name};
use mid_code::laws::placed_code_is_sound;
use mid_code::{Code, Function, Node, Placed, Spots, Where};
use std::alloc::Global;
use v32_isa::{Go, Instr, Plain, Src};

/// Adds the label of a function and what makes its frame.
fn put_entry(
    alloc: Global,
    out: &mut Vec<AsmItem>,
    w: &Around<'_>,
    f: u32,
    s: &Scope<'_>,
) -> Result<(), Memory>
    ensures { OnOk result (out.new.items ≡ out.old.items ++ entry_items (whole w.now) f (frame s.now)) }
{
    let label = function_label(alloc, w.names, f)?;
    out.push(AsmItem::Label(label))?;
    put_frame_made(out, s.size)
}

/// Adds the end of a function, which has a label.
fn put_exit(alloc: Global, out: &mut Vec<AsmItem>, n: u32, s: &Scope<'_>) -> Result<(), Memory>
    ensures { OnOk result (out.new.items ≡ out.old.items ++ exit_items n (frame s.now)) }
{
    put_mark(alloc, out, n)?;
    put_frame_gone(out, s.size)
}

/// Adds a function whose labels begin at n; the number of the next label.
fn put_function(
    alloc: Global,
    out: &mut Vec<AsmItem>,
    w: &Around<'_>,
    f: u32,
    n: u32,
    body: &[Node<Where>],
) -> Result<u32, Memory>
    requires fits { n + 1 + labels (nodes body.now) < 2 ^ 32 - 1 }
    ensures items { OnOk result (out.new.items ≡ out.old.items ++ function_items (whole w.now) f n (nodes body.now)) }
    ensures next { IfOk result (λ m. m ≡ n + 1 + labels (nodes body.now)) }
{
    let s = scope_at(w, f);
    put_entry(alloc, out, w, f, &s)?;
    let next = put_body(alloc, out, w, &s, None, n + 1, body)?;
    put_exit(alloc, out, n, &s)?;
    Ok(next)
}

/// Adds the functions in order.
fn put_functions(
    alloc: Global,
    out: &mut Vec<AsmItem>,
    w: &Around<'_>,
    first: u32,
    functions: &[Function<Where>],
) -> Result<(), Memory>
    requires fits { first + functions_labels (map function functions.now) < 2 ^ 32 - 1 }
    requires few { length functions.now < 2 ^ 32 - 1 }
    ensures { OnOk result (out.new.items ≡ out.old.items ++ functions_items (whole w.now) 0 first (map function functions.now)) }
{
    let mut number: u32 = 0;
    let mut next = first;
    let mut rest = functions;
    'each: while let Some((f, after)) = rest.split_first() {
        next = put_function(alloc, out, w, number, next, f.body.as_slice())?;
        number += 1;
        rest = after;
    }
    Ok(())
}

/// Adds the call of main, and the halt.
fn put_closing(
    alloc: Global,
    out: &mut Vec<AsmItem>,
    w: &Around<'_>,
    main: u32,
) -> Result<(), Memory>
    ensures { OnOk result (out.new.items ≡ out.old.items ++ closing_items (whole w.now) main) }
{
    put_mark(alloc, out, 0)?;
    let label = function_label(alloc, w.names, main)?;
    op(out, Instr::Go(Go::CALL, Src::Imm(Either::Right(label))))?;
    op(out, Instr::Plain(Plain::HLT))
}

/// Adds the start; the number of the next label.
fn put_start(
    alloc: Global,
    out: &mut Vec<AsmItem>,
    w: &Around<'_>,
    main: u32,
    body: &[Node<Where>],
) -> Result<u32, Memory>
    requires fits { 1 + labels (nodes body.now) < 2 ^ 32 - 1 }
    ensures items { OnOk result (out.new.items ≡ out.old.items ++ start_items (whole w.now) main (nodes body.now)) }
    ensures next { IfOk result (λ m. m ≡ 1 + labels (nodes body.now)) }
{
    let s = Scope {
        slots: &[],
        locals: &[],
        size: 1_000_000,
        depth: 0,
        registers: 9,
        lasting: &[true, true, true, true, true, true, true, true, true],
    };
    let next = put_body(alloc, out, w, &s, Some(0), 1, body)?;
    put_closing(alloc, out, w, main)?;
    Ok(next)
}

fn put_integer(out: &mut Vec<AsmItem>, word: u32) -> Result<(), Memory>
    ensures { OnOk result (out.new.items ≡ out.old.items ++ item.Integer word ∷ []) }
{
    out.push(AsmItem::Integer(word))?;
    Ok(())
}

fn put_integers(out: &mut Vec<AsmItem>, bytes: &[u8]) -> Result<(), Memory>
    ensures { OnOk result (out.new.items ≡ out.old.items ++ map item.Integer bytes.now) }
{
    for b in bytes {
        put_integer(out, u32::from(*b))?;
    }
    Ok(())
}

/// Adds a literal.
fn put_literal(alloc: Global, out: &mut Vec<AsmItem>, k: u32, text: &Name) -> Result<(), Memory>
    ensures { OnOk result (out.new.items ≡ out.old.items ++ literal_items k text.now) }
{
    let label = literal_label(alloc, k)?;
    out.push(AsmItem::Label(label))?;
    put_integers(out, text.bytes())?;
    put_integer(out, 0)
}

/// Adds the literals in order.
fn put_literals(alloc: Global, out: &mut Vec<AsmItem>, literals: &[Name]) -> Result<(), Memory>
    requires few { length literals.now < 2 ^ 32 - 1 }
    ensures { OnOk result (out.new.items ≡ out.old.items ++ literals_items 0 literals.now) }
{
    let mut number: u32 = 0;
    let mut rest = literals;
    'each: while let Some((text, after)) = rest.split_first() {
        put_literal(alloc, out, number, text)?;
        number += 1;
        rest = after;
    }
    Ok(())
}

/// The addresses of the globals, the first at 0.
fn addresses(alloc: Global, sizes: &[u32]) -> Result<Vec<u32>, Memory>
    ensures { IfOk result (λ v. v.items ≡ wrapped_addresses 0 sizes.now) }
{
    let mut addresses = Vec::new(alloc);
    let mut address: u32 = 0;
    for size in sizes {
        addresses.push(address)?;
        address = address.wrapping_add(*size);
    }
    Ok(addresses)
}

/// The items of code whose functions have these spots, frame sizes and names.
fn items_of(
    alloc: Global,
    of: &Code<Where>,
    at: &[Spots],
    sizes: &[u32],
    names: &[Name],
) -> Result<Vec<AsmItem>, Memory>
    requires fits { labels_of (code of.now) < 2 ^ 32 - 1 }
    requires few { length (code of.now).functions < 2 ^ 32 - 1 }
    requires texts { length (code of.now).literals < 2 ^ 32 - 1 }
    ensures { IfOk result (λ v. v.items ≡ program_items
        (whole_of_parts (code of.now).functions (map spots at.now) sizes.now (held_all (code of.now).functions)
        (lasting_all (code of.now).functions) names.now (wrapped_addresses 0 (code of.now).globals)) (code of.now)) }
{
    let registers = held_by_each(alloc, of.functions.as_slice())?;
    let lasting = lasting_by_each(alloc, of.functions.as_slice())?;
    let globals = addresses(alloc, of.globals.as_slice())?;
    let w = Around {
        functions: of.functions.as_slice(),
        spots: at,
        sizes,
        registers: registers.as_slice(),
        lasting: lasting.as_slice(),
        names,
        globals: globals.as_slice(),
    };
    let mut out = Vec::new(alloc);
    let next = put_start(alloc, &mut out, &w, of.main, of.start.body.as_slice())?;
    put_functions(alloc, &mut out, &w, next, of.functions.as_slice())?;
    put_literals(alloc, &mut out, of.literals.as_slice())?;
    Ok(out)
}

/// The items of placed code whose functions have these names, one each, which are words, no two the same. The words fit into a program. Items begin with the
/// start, which fills the globals, calls `f_main` and halts; the functions follow in order, each behind the label `f_` and its name, and then
/// the literals. The error is want of memory.
pub fn emit(alloc: Global, x: &Placed, names: &[Name]) -> Result<Vec<AsmItem>, Memory>
    requires can_be_emitted { CanBeEmitted (placed x.now) names.now }
    ensures emitted { IfOk result (λ v. IsEmitted (placed x.now) names.now v.items) }
{
    placed_code_is_sound(x);
    let code = x.code();
    let sizes = x.frames().sizes.as_slice();
    sizes_are_words(sizes);
    texts_are_words(code.literals.as_slice());
    items_of(alloc, code, x.spots(), sizes, names)
}
