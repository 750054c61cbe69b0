// Functions.
ghost use Rattle.std.specs.Prelude.{◌≡◌, ◌+◌, ◌≤◌, ◌<◌, ◌^◌, length, ◌∷◌, [], ◌==◌, map, option_map, OnOk, IfOk, IfSome, IfNone};
ghost use Rattle.c_tree.specs.Count.{vars_nodes, maybe_stmts_nodes};
ghost use Rattle.c_tree.specs.View.{stmt, stmts, type, var};
ghost use Rattle.c_types.specs.View.{ctype, layout, tstmt, tstmts};
ghost use Rattle.c_rules.specs.Rules.{judged};
ghost use Rattle.kit_base.specs.Gives.{Gives};
ghost use Rattle.c_exprs.specs.View.{decl};
ghost use Rattle.c_check.specs.Reading.{begun, parameter_rule, parameter_size, with_parameter, same_types, is_function, agrees, is_own_body, named};
ghost use Rattle.c_check.specs.Reading.{result_rule, function_rules, with_function};
ghost use Rattle.c_check.specs.inner.ItemTyping.{item, parameter, parameters};
ghost use Rattle.c_rules.specs.Kinds.{holds};
ghost use Rattle.c_exprs.specs.Env.{FunctionD as DeclaredFunction};
ghost use Rattle.c_tree.specs.Tree.{FunctionD};
ghost use Rattle.c_check.specs.View.{un};

use crate::declaring::declare;
use crate::parts::{maybe_body, type_at};
use crate::reading::{Reading, begin, end};
use crate::words::is_word;
use c_exprs::{CheckErr, Decl, Fault, placed};
use c_rules::{Code, fits, is_array, is_whole, same_type, type_size};
use c_tree::{Span, Stmt, TypeTree, Var};
use c_types::{CType, Layout, TFunction, TStmt, copy_type, is_void};
use kit_base::{Memory, Name, Seq};
use std::alloc::Global;

/// The words of a parameter of that type.
#[tactic(auto, unfolding(crate::specs::Reading::parameter_rule, c_rules::specs::Nodes::size_rule, c_rules::specs::Sizes::fits))]
fn parameter_words(layouts: &[Layout], whole: &[bool], ty: &CType) -> Result<u32, Code>
    ensures { result ≡ judged (parameter_rule (map layout layouts.now) whole.now (ctype ty.now)) }
{
    if is_array(ty) {
        return Err(Code::WrongType);
    }
    let words = type_size(layouts, whole, ty)?;
    if words > 4_096 {
        return Err(Code::TooLarge);
    }
    Ok(words)
}

#[tactic(auto, unfolding(crate::specs::inner::ItemTyping::parameter, crate::specs::Reading::parameter_size, crate::specs::Reading::with_parameter))]
fn read_parameter(alloc: Global, reading: &mut Reading, v: &Var) -> Result<CType, CheckErr>
    requires room { length (un reading.old).sizes < 2 ^ 32 }
    ensures { Gives (λ r. (ctype r, un reading.new)) result (parameter (un reading.old) (var v.now)) }
{
    let ty = type_at(alloc, reading, v.span, &v.ty)?;
    if !reading.state.is_new(&v.name) {
        return Err(CheckErr::Cause(Fault {
            code: Code::Twice,
            span: v.span,
        }));
    }
    let size = parameter_words(&reading.globals.layouts, &reading.globals.whole, &ty);
    let words = placed(v.span, size)?;
    let kept = copy_type(&ty)?;
    reading.state.add_object(alloc, &v.name, words, kept)?;
    Ok(ty)
}

fn read_parameters(
    alloc: Global,
    reading: &mut Reading,
    all: &[Var],
) -> Result<Vec<CType>, CheckErr>
    requires room { length (un reading.old).sizes + vars_nodes (map var all.now) ≤ 2 ^ 32 }
    ensures { Gives (λ r. (map ctype r.items, un reading.new)) result (parameters (un reading.old) (map var all.now)) }
{
    let mut found = Vec::new(alloc);
    for v in all {
        let ty = read_parameter(alloc, reading, v)?;
        found.push(ty)?;
    }
    Ok(found)
}

fn copy_types(alloc: Global, types: &[CType]) -> Result<Vec<CType>, Memory>
    ensures { IfOk result (λ r. map ctype r.items ≡ map ctype types.now) }
{
    let mut found = Vec::new(alloc);
    for ty in types {
        found.push(copy_type(ty)?)?;
    }
    Ok(found)
}

pub(crate) fn next<T>(xs: &[T]) -> Option<(&T, &[T])>
    ensures some { IfSome result (λ x. xs.now ≡ x.0.now ∷ x.1.now) }
    ensures none { IfNone result (xs.now ≡ []) }
{
    xs.split_first()
}

/// Whether the types are the same, one by one.
fn same_types(some: &[CType], others: &[CType]) -> bool
    ensures { result ≡ same_types (map ctype some.now) (map ctype others.now) }
{
    let mut left = some;
    let mut right = others;
    while let Some((a, more)) = next(left) {
        let Some((b, rest)) = next(right) else {
            return false;
        };
        if !same_type(a, b) {
            return false;
        }
        left = more;
        right = rest;
    }
    right.is_empty()
}

fn is_function(found: Option<&Decl>) -> bool
    ensures { result ≡ is_function (option_map (λ d. decl d.now) found.entry) }
{
    match found {
        Some(Decl::Function(_, _)) => true,
        Some(Decl::Alias(_)) => false,
        Some(Decl::Constant(_)) => false,
        Some(Decl::Object(_, _)) => false,
        None => false,
    }
}

/// Whether the function is declared with these types.
fn agrees(params: &[CType], gives: &CType, found: Option<&Decl>) -> bool
    ensures { result ≡ agrees (map ctype params.now) (ctype gives.now) (option_map (λ d. decl d.now) found.entry) }
{
    match found {
        Some(Decl::Function(others, other)) => {
            same_types(params, others.as_slice()) && same_type(gives, other)
        }
        Some(Decl::Alias(_)) => false,
        Some(Decl::Constant(_)) => false,
        Some(Decl::Object(_, _)) => false,
        None => false,
    }
}

fn is_number(number: Option<u32>, count: usize) -> bool
    ensures { result ≡ holds (λ k. k == count) number }
{
    match number {
        Some(number) => number as usize == count,
        None => false,
    }
}

/// Whether a body is the one that its function's number stands for.
fn is_own_body(reading: &Reading, name: &Name, body: &Option<Seq<Stmt>>) -> bool
    ensures { result ≡ is_own_body name.now (un reading.now) (option_map (λ b. stmts (map stmt b)) body.now) }
{
    match body {
        None => true,
        Some(_) => is_number(reading.globals.body(name), reading.functions.len()),
    }
}

#[tactic(auto, unfolding(crate::specs::Reading::result_rule, c_rules::specs::Sizes::fits))]
fn check_result(layouts: &[Layout], whole: &[bool], gives: &CType) -> Result<(), Code>
    ensures { result ≡ judged (result_rule (map layout layouts.now) whole.now (ctype gives.now)) }
{
    if is_array(gives) {
        return Err(Code::WrongType);
    }
    if !is_void(gives) && !is_whole(whole, gives) {
        return Err(Code::InfiniteType);
    }
    if !fits(layouts, 4_096, gives) {
        return Err(Code::TooLarge);
    }
    Ok(())
}

/// The rules of a function behind its body.
#[tactic(auto, unfolding(crate::specs::Reading::function_rules))]
fn check_function(
    reading: &Reading,
    name: &Name,
    params: &[CType],
    gives: &CType,
    body: &Option<Seq<Stmt>>,
) -> Result<(), Code>
    ensures { result ≡ function_rules (un reading.now) name.now (map ctype params.now) (ctype gives.now) (option_map (λ b. stmts (map stmt b)) body.now) }
{
    let found = reading.globals.find(name);
    if !is_function(found) || !is_own_body(reading, name, body) {
        return Err(Code::Twice);
    }
    if !is_word(name.bytes()) || !agrees(params, gives, found) {
        return Err(Code::WrongType);
    }
    check_result(&reading.globals.layouts, &reading.globals.whole, gives)
}

/// Declares a function of these types, where its name is free. The error is want of memory.
fn declare_function(
    alloc: Global,
    reading: &mut Reading,
    name: &Name,
    params: &[CType],
    gives: &CType,
) -> Result<(), Memory>
    ensures named { OnOk result (un reading.new ≡ named name.now (DeclaredFunction (map ctype params.now) (ctype gives.now)) (un reading.old)) }
{
    let params = Seq::from_vec(copy_types(alloc, params)?);
    let gives = copy_type(gives)?;
    declare(reading, name, Decl::Function(params, gives))
}

/// Leaves a function, and keeps it where it has a body. The error is want of memory.
fn keep_function(
    alloc: Global,
    reading: &mut Reading,
    name: &Name,
    params: Vec<CType>,
    gives: CType,
    body: Option<Vec<TStmt>>,
) -> Result<(), Memory>
    ensures kept { OnOk result (un reading.new ≡ with_function name.now (map ctype params.items) (ctype gives)
        (option_map (λ b. tstmts (map tstmt b.items)) body) (un reading.old)) }
{
    let made = reading.state.close(alloc)?;
    let locals = end(alloc, &mut reading.state);
    if let Some(body) = body {
        reading.functions.push(TFunction {
            name: name.copy()?,
            params: Seq::from_vec(params),
            locals: Seq::from_vec(locals),
            made: Seq::from_vec(made),
            result: gives,
            body: Seq::from_vec(body),
        })?;
    }
    Ok(())
}

/// Reads a function: its result, its parameters, its name, its body, then its rules.
#[tactic(auto, unfolding(crate::specs::inner::ItemTyping::item))]
pub(crate) fn read_function(
    alloc: Global,
    reading: &mut Reading,
    span: Span,
    gives: &TypeTree,
    name: &Name,
    params: &Seq<Var>,
    body: &Option<Seq<Stmt>>,
) -> Result<(), CheckErr>
    requires few { vars_nodes (map var params.now) + maybe_stmts_nodes (option_map (λ b. stmts (map stmt b)) body.now) ≤ 200000 }
    ensures { Gives (λ r. (r, un reading.new)) result
        (item (un reading.old) (FunctionD (type gives.now) name.now (map var params.now) (option_map (λ b. stmts (map stmt b)) body.now) span)) }
{
    let gives = type_at(alloc, reading, span, gives)?;
    begin(alloc, &mut reading.state)?;
    let types = read_parameters(alloc, reading, params.as_slice())?;
    declare_function(alloc, reading, name, &types, &gives)?;
    let typed = maybe_body(alloc, reading, &gives, body)?;
    let checked = check_function(reading, name, &types, &gives, body);
    placed(span, checked)?;
    keep_function(alloc, reading, name, types, gives, typed)?;
    Ok(())
}
