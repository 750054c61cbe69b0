// How deep a tree is.

ghost use Rattle.std.specs.Prelude.{◌≡◌, ◌<◌, ◌^◌, map, option_map};
ghost use Rattle.c_tree.specs.View.{expr, type, init, var, stmt, stmts, arm, item, unit};
ghost use Rattle.c_tree.specs.Depth.{expr_depth, type_depth, init_depth, var_depth, vars_depth, stmt_depth, stmts_depth, arm_depth, maybe_expr_depth};
ghost use Rattle.c_tree.specs.Depth.{values_depth, item_depth, unit_depth};

use crate::expression::{Expr, TypeTree};
use crate::item::{Item, Unit};
use crate::statement::{Arm, Stmt};
use crate::variable::{Init, Var};
use kit_base::Name;

#[cycle(expr_depth)]
fn expr_depth(e: &Expr) -> u32
    requires fits { expr_depth (expr e.now) < 2 ^ 32 }
    ensures { result ≡ expr_depth (expr e.now) }
{
    match e {
        Expr::Name(_, _) | Expr::Number(_, _) | Expr::Text(_, _) | Expr::Null(_) => 1,
        Expr::Paren(a, _)
        | Expr::Unary(_, a, _)
        | Expr::Step(_, a, _)
        | Expr::Member(a, _, _)
        | Expr::Arrow(a, _, _) => expr_depth(a) + 1,
        Expr::Binary(_, a, b, _) | Expr::Assign(_, a, b, _) | Expr::Index(a, b, _) => {
            expr_depth(a).max(expr_depth(b)) + 1
        }
        Expr::Call(_, args, _) => {
            let mut deepest = 0;
            for a in args.as_slice() {
                deepest = deepest.max(expr_depth(a));
            }
            deepest + 1
        }
        Expr::Cast(ty, a, _) => type_depth(ty).max(expr_depth(a)) + 1,
        Expr::SizeOf(ty, _) => type_depth(ty) + 1,
    }
}

#[cycle(expr_depth)]
fn type_depth(t: &TypeTree) -> u32
    requires fits { type_depth (type t.now) < 2 ^ 32 }
    ensures { result ≡ type_depth (type t.now) }
{
    match t {
        TypeTree::Int | TypeTree::Bool | TypeTree::Void | TypeTree::Named(_) => 1,
        TypeTree::Pointer(to) => type_depth(to) + 1,
        TypeTree::Array(of, size) => type_depth(of).max(expr_depth(size)) + 1,
    }
}

fn init_depth(i: &Init) -> u32
    requires fits { init_depth (init i.now) < 2 ^ 32 }
    ensures { result ≡ init_depth (init i.now) }
{
    match i {
        Init::One(e) => expr_depth(e) + 1,
        Init::List(all, _) => {
            let mut deepest = 0;
            for a in all.as_slice() {
                deepest = deepest.max(init_depth(a));
            }
            deepest + 1
        }
    }
}

fn var_depth(v: &Var) -> u32
    requires fits { var_depth (var v.now) < 2 ^ 32 }
    ensures { result ≡ var_depth (var v.now) }
{
    let ty = type_depth(&v.ty);
    match &v.init {
        Some(i) => ty.max(init_depth(i)) + 1,
        None => ty + 1,
    }
}

fn vars_depth(vs: &[Var]) -> u32
    requires fits { vars_depth (map var vs.now) < 2 ^ 32 }
    ensures { result ≡ vars_depth (map var vs.now) }
{
    let mut deepest = 0;
    for v in vs {
        deepest = deepest.max(var_depth(v));
    }
    deepest
}

fn expr_depth_or_zero(e: &Option<Expr>) -> u32
    requires fits { maybe_expr_depth (option_map expr e.now) < 2 ^ 32 }
    ensures { result ≡ maybe_expr_depth (option_map expr e.now) }
{
    match e {
        Some(e) => expr_depth(e),
        None => 0,
    }
}

#[cycle(stmt_depth)]
fn stmt_depth(s: &Stmt) -> u32
    requires fits { stmt_depth (stmt s.now) < 2 ^ 32 }
    ensures { result ≡ stmt_depth (stmt s.now) }
{
    match s {
        Stmt::Block(body, _) => {
            let mut deepest = 0;
            for s in body.as_slice() {
                deepest = deepest.max(stmt_depth(s));
            }
            deepest + 1
        }
        Stmt::Vars(vars, _) => vars_depth(vars.as_slice()) + 1,
        Stmt::Do(e) => expr_depth(e) + 1,
        Stmt::If(e, a, b, _) => {
            let deepest = expr_depth(e).max(stmt_depth(a));
            match b {
                Some(b) => deepest.max(stmt_depth(b)) + 1,
                None => deepest + 1,
            }
        }
        Stmt::While(e, a, _) | Stmt::DoWhile(a, e, _) => expr_depth(e).max(stmt_depth(a)) + 1,
        Stmt::For(first, test, step, body, _) => {
            let tests = expr_depth_or_zero(test).max(expr_depth_or_zero(step));
            let deepest = stmt_depth(body).max(tests);
            match first {
                Some(s) => deepest.max(stmt_depth(s)) + 1,
                None => deepest + 1,
            }
        }
        Stmt::Switch(e, arms, _) => {
            let mut deepest = expr_depth(e);
            for a in arms.as_slice() {
                deepest = deepest.max(arm_depth(a));
            }
            deepest + 1
        }
        Stmt::Return(e, _) => expr_depth_or_zero(e) + 1,
        Stmt::Empty(_) | Stmt::Break(_) | Stmt::Continue(_) => 1,
    }
}

#[cycle(stmt_depth)]
fn arm_depth(a: &Arm) -> u32
    requires fits { arm_depth (arm a.now) < 2 ^ 32 }
    ensures { result ≡ arm_depth (arm a.now) }
{
    match a {
        Arm::Case(e, _) => expr_depth(e) + 1,
        Arm::Default(_) => 1,
        Arm::Stmt(s) => stmt_depth(s) + 1,
    }
}

fn stmts_depth(body: &[Stmt]) -> u32
    requires fits { stmts_depth (stmts (map stmt body.now)) < 2 ^ 32 }
    ensures { result ≡ stmts_depth (stmts (map stmt body.now)) }
{
    let mut deepest = 0;
    for s in body {
        deepest = deepest.max(stmt_depth(s));
    }
    deepest
}

fn values_depth(values: &[(Name, Option<Expr>)]) -> u32
    requires fits { values_depth (map (λ v. (v.0, option_map expr v.1)) values.now) < 2 ^ 32 }
    ensures { result ≡ values_depth (map (λ v. (v.0, option_map expr v.1)) values.now) }
{
    let mut deepest = 0;
    for v in values {
        deepest = deepest.max(expr_depth_or_zero(&v.1));
    }
    deepest
}

fn item_depth(i: &Item) -> u32
    requires fits { item_depth (item i.now) < 2 ^ 32 }
    ensures { result ≡ item_depth (item i.now) }
{
    match i {
        Item::Record { members: None, .. } => 1,
        Item::Record {
            members: Some(members),
            ..
        } => vars_depth(members.as_slice()) + 1,
        Item::Enum { values, .. } => values_depth(values.as_slice()) + 1,
        Item::Typedef(ty, _, _) => type_depth(ty) + 1,
        Item::Vars(vars, _) => vars_depth(vars.as_slice()) + 1,
        Item::Function {
            result,
            params,
            body: None,
            ..
        } => { type_depth(result).max(vars_depth(params.as_slice())) + 1 }
        Item::Function {
            result,
            params,
            body: Some(body),
            ..
        } => {
            let head = type_depth(result).max(vars_depth(params.as_slice()));
            head.max(stmts_depth(body.as_slice())) + 1
        }
    }
}

/// How deep a unit is: the greatest number of expressions, types, initialisers, variables,
/// statements, arms and items on one path. A unit without items has depth 0.
pub fn depth(u: &Unit) -> u32
    requires fits { unit_depth (unit u.now) < 2 ^ 32 }
    ensures greatest { result ≡ unit_depth (unit u.now) }
{
    let mut deepest = 0;
    for i in u.items.as_slice() {
        deepest = deepest.max(item_depth(i));
    }
    deepest
}
