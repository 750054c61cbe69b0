// Functions, lowered.
ghost use Rattle.std.specs.Prelude.{◌≡◌, ◌≤◌, ◌+◌, ◌++◌, ◌∷◌, [], not, ◌||◌, length, map, IfOk, OnOk};
ghost use Rattle.c_types.specs.View.{ctype, tstmt, tstmts, function};
ghost use Rattle.c_types.specs.Kinds.{is_structure, is_void};
ghost use Rattle.mid_code.specs.Functions.{BlockN, listed, node, function as function_of};
ghost use Rattle.lower_trees.specs.Pieces.{◌▸◌, listing};
ghost use Rattle.lower_trees.specs.Parts.{made, param_at};
ghost use Rattle.lower_trees.specs.Lowered.{args_from, with_result, received, all_received};
ghost use Rattle.lower_trees.specs.ListedFunctions.{low_function, low_start, IsFew, IsFewIn, AreFew};
ghost use Rattle.lower_trees.specs.Counts.{stmts_temps, stmts_sizes};
ghost use Rattle.lower_trees.specs.Statements.{low_stmts, ToEnd};
ghost use Rattle.lower_trees.specs.inner.Adding.{AddsCode};
ghost use Rattle.lower_trees.specs.View.{shape_of};

use crate::cells::{FIRST_PARAM, RESULT_AT, TO, copy_from, make, put};
use crate::finishing::lead;
use crate::jump::{Exits, JumpTo};
use crate::looping::put_block;
use crate::output::{Nodes, Output};
use crate::reading::Reading;
use crate::statements::statements;
use c_exprs::keeping;
use c_types::{CType, TFunction, TStmt, is_structure, is_void};
use kit_base::{Memory, Seq};
use mid_code::{Function, Op};
use std::alloc::Global;

/// The temporary that has the address of a parameter.
fn param_at(k: u32) -> u32
    ensures { result ≡ param_at k }
{
    if k < 7 { 9 + k } else { TO }
}

/// A parameter takes what came to the temporary a.
fn receive(s: &Reading<'_>, nodes: &mut Nodes, ty: &CType, k: u32, a: u32) -> Result<(), Memory>
    ensures { OnOk result (AddsCode nodes.old nodes.new (received (shape_of s.now) (ctype ty.now) k a)) }
{
    if is_structure(ty) {
        put(nodes, Op::Local(TO, k))?;
        copy_from(s.alloc, nodes, s.words(ty), a)
    } else {
        put(nodes, Op::Local(param_at(k), k))?;
        put(nodes, Op::Store(param_at(k), a))
    }
}

fn receive_all(s: &Reading<'_>, nodes: &mut Nodes, tys: &[CType]) -> Result<(), Memory>
    requires { length tys.now ≤ 1000000 }
    ensures { OnOk result (AddsCode nodes.old nodes.new (all_received (shape_of s.now) (map ctype tys.now) 0 FIRST_PARAM)) }
{
    let mut k = 0;
    let mut a = FIRST_PARAM;
    'params: for ty in tys {
        receive(s, nodes, ty, k, a)?;
        k += 1;
        a += 1;
    }
    Ok(())
}

/// The temporaries that receive the arguments of a function.
fn arguments(alloc: Global, gives: &CType, tys: &[CType]) -> Result<Vec<u32>, Memory>
    requires { length tys.now ≤ 1000000 }
    ensures { IfOk result (λ r. r.items ≡ with_result (ctype gives.now) (args_from FIRST_PARAM (map ctype tys.now))) }
{
    let mut spots = lead(alloc, Some(gives), RESULT_AT)?;
    let mut a = FIRST_PARAM;
    'params: for _ty in tys {
        spots.push(a)?;
        a += 1;
    }
    Ok(spots)
}

fn gives(ty: &CType) -> bool
    ensures { result ≡ not (is_void (ctype ty.now) || is_structure (ctype ty.now)) }
{
    !(is_void(ty) || is_structure(ty))
}

/// Statements, lowered behind these locals and so many temporaries, of a function whose result has this type.
fn body<'x>(
    s: &Reading<'x>,
    gives: &CType,
    body: &'x [TStmt],
    locals: Vec<u32>,
    next: u32,
) -> Result<Output, Memory>
    requires fits { IsFew (shape_of s.now) next (length locals.items) (tstmts (map tstmt body.now)) }
    ensures nodes { IfOk result (λ r. map node r.nodes.items
        ≡ listing (low_stmts (shape_of s.now) (ctype gives.now) (tstmts (map tstmt body.now)) next (length locals.items) 0 (ToEnd 0))) }
    ensures locals { IfOk result (λ r. r.locals.items ≡ locals.items ++ stmts_sizes (shape_of s.now) (tstmts (map tstmt body.now))) }
    ensures next { IfOk result (λ r. r.next ≡ next + stmts_temps (tstmts (map tstmt body.now))) }
{
    let exits = Exits {
        gives,
        breaks: 0,
        continues: JumpTo::End(0),
    };
    let mut out = Output {
        nodes: Vec::new(s.alloc),
        locals,
        next,
    };
    statements(s, exits, body, &mut out)?;
    Ok(out)
}

/// The nodes of a function, whose body these are: its parameters are received first.
fn enclosed(s: &Reading<'_>, f: &TFunction, inside: Nodes) -> Result<Nodes, Memory>
    requires few { length (function f.now).params ≤ 1000000 }
    ensures { IfOk result (λ r. map node r.items ≡ listing (made (function f.now).made ▸ all_received (shape_of s.now) (function f.now).params 0 FIRST_PARAM)
        ++ BlockN (listed (map node inside.items)) ∷ []) }
{
    let mut nodes = Vec::new(s.alloc);
    make(&mut nodes, f.made.as_slice())?;
    receive_all(s, &mut nodes, f.params.as_slice())?;
    put_block(&mut nodes, inside)?;
    Ok(nodes)
}

fn lower_function<'x>(s: &Reading<'x>, f: &'x TFunction) -> Result<Function<u32>, Memory>
    requires fits { IsFewIn (shape_of s.now) (function f.now) }
    ensures { IfOk result (λ r. function_of r ≡ low_function (shape_of s.now) (function f.now)) }
{
    let locals = f.locals.as_slice().to_vec(s.alloc)?;
    let first = FIRST_PARAM + f.params.as_slice().len() as u32;
    let out = body(s, &f.result, f.body.as_slice(), locals, first)?;
    let Output {
        nodes,
        locals,
        next,
    } = out;
    let (locals, nodes) = keeping(locals, enclosed(s, f, nodes))?;
    let params = arguments(s.alloc, &f.result, f.params.as_slice());
    let ((locals, nodes), params) = keeping((locals, nodes), params)?;
    Ok(Function {
        temps: next,
        params: Seq::from_vec(params),
        locals: Seq::from_vec(locals),
        result: gives(&f.result),
        body: Seq::from_vec(nodes),
    })
}

/// The code of functions, each exactly what the definition tells. The error is want of memory.
pub fn lower_functions<'x>(
    s: &Reading<'x>,
    fs: &'x [TFunction],
) -> Result<Vec<Function<u32>>, Memory>
    requires fits { AreFew (shape_of s.now) (map function fs.now) }
    ensures { IfOk result (λ r. map function_of r.items ≡ map (low_function (shape_of s.now)) (map function fs.now)) }
{
    let mut found = Vec::new(s.alloc);
    'functions: for f in fs {
        let lowered = lower_function(s, f)?;
        found.push(lowered)?;
    }
    Ok(found)
}

/// The code that fills the globals, exactly what the definition tells. The error is want of memory.
pub fn lower_start<'x>(s: &Reading<'x>, inits: &'x [TStmt]) -> Result<Function<u32>, Memory>
    requires fits { IsFew (shape_of s.now) FIRST_PARAM 0 (tstmts (map tstmt inits.now)) }
    ensures { IfOk result (λ r. function_of r ≡ low_start (shape_of s.now) (tstmts (map tstmt inits.now))) }
{
    let Output {
        nodes,
        locals,
        next,
    } = body(s, &CType::Void, inits, Vec::new(s.alloc), FIRST_PARAM)?;
    Ok(Function {
        temps: next,
        params: Seq::from_vec(Vec::new(s.alloc)),
        locals: Seq::from_vec(locals),
        result: false,
        body: Seq::from_vec(nodes),
    })
}
