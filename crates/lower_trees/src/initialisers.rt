// Initialisers and variables, lowered.
ghost use Rattle.std.specs.Prelude.{◌≡◌, ◌≤◌, ◌+◌, ◌-◌, ◌++◌, length, map, OnOk};
ghost use Rattle.c_types.specs.View.{ctype, texpr, tinit, tinits, tvar, or_void};
ghost use Rattle.c_types.specs.Typed.{OneI};
ghost use Rattle.lower_trees.specs.Counts.{init_temps, inits_temps, init_sizes, inits_sizes, vars_temps, vars_sizes, behind_address};
ghost use Rattle.lower_trees.specs.Pieces.{◌▸◌};
ghost use Rattle.lower_trees.specs.Parts.{converted};
ghost use Rattle.lower_trees.specs.Initialisers.{address_of, part_at, cell_filled, part_filled, part_zeroed, low_text, low_rest};
ghost use Rattle.lower_trees.specs.Initialisers.{low_init, low_inits, object_to, low_vars};
ghost use Rattle.lower_trees.specs.inner.Adding.{Adds, AddsCode, HasRoom};
ghost use Rattle.lower_trees.specs.View.{shape_of};

use crate::cells::{FROM, ITEM, OBJECT, TO, copy_cells, copy_from, move_by, put, zero_cells};
use crate::expressions::value;
use crate::kinds::is_flag;
use crate::operating::convert;
use crate::output::{Nodes, Output};
use crate::reading::Reading;
use c_types::{CType, TExpr, TInit, TVar, is_structure};
use kit_base::Memory;
use mid_code::Op;
use std::alloc::Global;

/// Makes a pointer to the part that is written.
#[tactic(auto, using(crate::proofs::Filled::at_none, crate::proofs::Filled::at_some))]
fn point(nodes: &mut Nodes, p: u32, offset: u32) -> Result<(), Memory>
    ensures { OnOk result (AddsCode nodes.old nodes.new (part_at p offset)) }
{
    if offset == 0 {
        put(nodes, Op::Move(TO, p))
    } else {
        move_by(nodes, TO, p, offset)
    }
}

#[tactic(auto, using(crate::proofs::Filled::filled_none, crate::proofs::Filled::filled_some))]
fn fill_cell(nodes: &mut Nodes, p: u32, offset: u32) -> Result<(), Memory>
    ensures { OnOk result (AddsCode nodes.old nodes.new (cell_filled p offset)) }
{
    if offset == 0 {
        put(nodes, Op::Store(p, ITEM))
    } else {
        move_by(nodes, TO, p, offset)?;
        put(nodes, Op::Store(TO, ITEM))
    }
}

fn fill_part(
    s: &Reading<'_>,
    nodes: &mut Nodes,
    ty: &CType,
    p: u32,
    offset: u32,
) -> Result<(), Memory>
    ensures { OnOk result (AddsCode nodes.old nodes.new (part_filled (shape_of s.now) (ctype ty.now) p offset)) }
{
    if is_structure(ty) {
        point(nodes, p, offset)?;
        copy_from(s.alloc, nodes, s.words(ty), ITEM)
    } else {
        fill_cell(nodes, p, offset)
    }
}

/// The value of an item fills the part, whose type this is.
fn fill(
    s: &Reading<'_>,
    nodes: &mut Nodes,
    ty: Option<&CType>,
    known: bool,
    p: u32,
    offset: u32,
) -> Result<(), Memory>
    ensures { OnOk result (AddsCode nodes.old nodes.new (converted (or_void ty.entry) known ITEM ▸ part_filled (shape_of s.now) (or_void ty.entry) p offset)) }
{
    match ty {
        None => fill_cell(nodes, p, offset),
        Some(ty) => {
            convert(nodes, ty, known, ITEM)?;
            fill_part(s, nodes, ty, p, offset)
        }
    }
}

/// Sets `size` cells of the part to 0.
#[tactic(auto, using(crate::proofs::Filled::part_none, crate::proofs::Filled::part_some))]
fn zero_part(alloc: Global, nodes: &mut Nodes, p: u32, offset: u32, size: u32) -> Result<(), Memory>
    ensures { OnOk result (AddsCode nodes.old nodes.new (part_zeroed p offset size)) }
{
    if size == 0 {
        return Ok(());
    }
    point(nodes, p, offset)?;
    zero_cells(alloc, nodes, size)
}

/// Copies a text with its 0, and sets the cells behind it to 0.
fn fill_text(
    s: &Reading<'_>,
    nodes: &mut Nodes,
    number: u32,
    size: u32,
    p: u32,
    offset: u32,
) -> Result<(), Memory>
    ensures { OnOk result (AddsCode nodes.old nodes.new (low_text (shape_of s.now) number size p offset)) }
{
    let words = s.literal_words(number);
    put(nodes, Op::Literal(FROM, number))?;
    point(nodes, p, offset)?;
    copy_cells(s.alloc, nodes, words)?;
    zero_part(
        s.alloc,
        nodes,
        p,
        offset.wrapping_add(words),
        size.saturating_sub(words),
    )
}

/// The number of elements left of `length` after the first `k`.
fn left(length: u32, k: usize) -> u32
    ensures { result ≡ length - k }
{
    u64::from(length).saturating_sub(k as u64) as u32
}

/// Sets the elements of an array from a number on to 0.
fn fill_rest(
    s: &Reading<'_>,
    nodes: &mut Nodes,
    ty: Option<&CType>,
    k: usize,
    p: u32,
    offset: u32,
) -> Result<(), Memory>
    ensures { OnOk result (AddsCode nodes.old nodes.new (low_rest (shape_of s.now) (or_void ty.entry) k p offset)) }
{
    match ty {
        Some(CType::Array(of, length)) => {
            let size = s.words(of.ty()).wrapping_mul(left(*length, k));
            zero_part(s.alloc, nodes, p, offset, size)
        }
        Some(CType::Void) => Ok(()),
        Some(CType::Int) => Ok(()),
        Some(CType::Bool) => Ok(()),
        Some(CType::Enum(_)) => Ok(()),
        Some(CType::Struct(_)) => Ok(()),
        Some(CType::Union(_)) => Ok(()),
        Some(CType::Pointer(_)) => Ok(()),
        None => Ok(()),
    }
}

/// A part of an object: its type, where it has one, and how many words it begins behind the start of the object to which `pointer` points.
#[derive(Clone, Copy)]
struct Part<'x> {
    ty: Option<&'x CType>,
    pointer: u32,
    offset: u32,
}

/// Fills a part by the value of an expression.
fn fill_by(s: &Reading<'_>, x: &TExpr, part: Part<'_>, out: &mut Output) -> Result<(), Memory>
    requires room { HasRoom out.old (init_temps (OneI (texpr x.now))) (init_sizes (shape_of s.now) (OneI (texpr x.now))) }
    ensures adds { OnOk result (Adds out.old out.new
        (low_init (shape_of s.now) (OneI (texpr x.now)) (or_void part.entry.ty) part.entry.pointer part.entry.offset)
        (init_temps (OneI (texpr x.now))) (init_sizes (shape_of s.now) (OneI (texpr x.now)))) }
{
    value(s, x, ITEM, out)?;
    fill(
        s,
        &mut out.nodes,
        part.ty,
        is_flag(x),
        part.pointer,
        part.offset,
    )
}

/// Fills a part by an initialiser.
#[cycle(initialise)]
#[tactic(auto, using(crate::proofs::Joins::length_both))]
fn initialise<'x>(
    s: &Reading<'x>,
    of: &'x TInit,
    part: Part<'x>,
    out: &mut Output,
) -> Result<(), Memory>
    requires room { HasRoom out.old (init_temps (tinit of.now)) (init_sizes (shape_of s.now) (tinit of.now)) }
    ensures adds { OnOk result (Adds out.old out.new
        (low_init (shape_of s.now) (tinit of.now) (or_void part.entry.ty) part.entry.pointer part.entry.offset)
        (init_temps (tinit of.now)) (init_sizes (shape_of s.now) (tinit of.now))) }
{
    match of {
        TInit::One(x) => fill_by(s, x, part, out),
        TInit::Text(number) => {
            let size = s.words_or(part.ty);
            fill_text(s, &mut out.nodes, *number, size, part.pointer, part.offset)
        }
        TInit::List(items) => initialise_all(s, items.as_slice(), part, out),
    }
}

/// The items of a list fill the parts, which follow each other.
#[cycle(initialise)]
#[tactic(auto, using(crate::proofs::Joins::length_both))]
fn initialise_all<'x>(
    s: &Reading<'x>,
    items: &'x [TInit],
    part: Part<'x>,
    out: &mut Output,
) -> Result<(), Memory>
    requires room { HasRoom out.old (inits_temps (tinits (map tinit items.now))) (inits_sizes (shape_of s.now) (tinits (map tinit items.now))) }
    ensures adds { OnOk result (Adds out.old out.new
        (low_inits (shape_of s.now) (tinits (map tinit items.now)) (or_void part.entry.ty) 0 part.entry.pointer part.entry.offset)
        (inits_temps (tinits (map tinit items.now))) (inits_sizes (shape_of s.now) (tinits (map tinit items.now)))) }
{
    let mut begins = part.offset;
    for (k, i) in items.iter().enumerate() {
        let own = Part {
            ty: s.part(part.ty, k),
            pointer: part.pointer,
            offset: begins,
        };
        initialise(s, i, own, out)?;
        begins = begins.wrapping_add(s.words_or(own.ty));
    }
    fill_rest(
        s,
        &mut out.nodes,
        part.ty,
        items.len(),
        part.pointer,
        begins,
    )
}

fn object_to(nodes: &mut Nodes, global: bool, number: u32, t: u32) -> Result<(), Memory>
    ensures { OnOk result (AddsCode nodes.old nodes.new (object_to global number t)) }
{
    if global {
        put(nodes, Op::Global(t, number))
    } else {
        put(nodes, Op::Local(t, number))
    }
}

/// The temporary that has the address of a variable.
fn address_of(of: &TInit, n: u32) -> u32
    ensures { result ≡ address_of (tinit of.now) n }
{
    match of {
        TInit::One(_) => n,
        TInit::Text(_) => OBJECT,
        TInit::List(_) => OBJECT,
    }
}

/// Where the temporaries of a variable's initialiser begin.
fn behind_address(of: &TInit, n: u32) -> u32
    requires { behind_address (tinit of.now) n ≤ 1000000 }
    ensures { result ≡ behind_address (tinit of.now) n }
{
    match of {
        TInit::One(_) => n + 1,
        TInit::Text(_) => n,
        TInit::List(_) => n,
    }
}

/// Fills a variable.
fn variable<'x>(s: &Reading<'x>, v: &'x TVar, out: &mut Output) -> Result<(), Memory>
    requires next { behind_address (tinit v.now.init) out.old.next + init_temps (tinit v.now.init) ≤ 1000000 }
    requires local { length out.old.locals.items + length (init_sizes (shape_of s.now) (tinit v.now.init)) ≤ 1000000 }
    ensures nodes { OnOk result (AddsCode out.old.nodes out.new.nodes (object_to v.now.global v.now.object (address_of (tinit v.now.init) out.old.next)
        ▸ low_init (shape_of s.now) (tinit v.now.init) (ctype v.now.ty) (address_of (tinit v.now.init) out.old.next) 0
        (behind_address (tinit v.now.init) out.old.next) (length out.old.locals.items))) }
    ensures locals { OnOk result (out.new.locals.items ≡ out.old.locals.items ++ init_sizes (shape_of s.now) (tinit v.now.init)) }
    ensures next { OnOk result (out.new.next ≡ behind_address (tinit v.now.init) out.old.next + init_temps (tinit v.now.init)) }
{
    let p = address_of(&v.init, out.next);
    object_to(&mut out.nodes, v.global, v.object, p)?;
    out.next = behind_address(&v.init, out.next);
    let whole = Part {
        ty: Some(&v.ty),
        pointer: p,
        offset: 0,
    };
    initialise(s, &v.init, whole, out)
}

/// Fills variables.
pub(crate) fn variables<'x>(s: &Reading<'x>, vs: &'x [TVar], out: &mut Output) -> Result<(), Memory>
    requires room { HasRoom out.old (vars_temps (map tvar vs.now)) (vars_sizes (shape_of s.now) (map tvar vs.now)) }
    ensures adds { OnOk result (Adds out.old out.new (low_vars (shape_of s.now) (map tvar vs.now))
        (vars_temps (map tvar vs.now)) (vars_sizes (shape_of s.now) (map tvar vs.now))) }
{
    'variables: for v in vs {
        variable(s, v, out)?;
    }
    Ok(())
}
