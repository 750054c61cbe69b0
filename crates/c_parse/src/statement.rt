// From tokens to statements.
ghost use Rattle.std.specs.Prelude.{◌≡◌, ◌<◌, ◌-◌, ◌*◌, Ok, map, option_map, true};
ghost use Rattle.kit_base.specs.Gives.{Gives};
ghost use Rattle.c_parse.specs.declared.lead.ArmLead.TheVariants as arm_leads;
ghost use Rattle.c_parse.specs.declared.lead.StmtLead.TheVariants as leads;
ghost use Rattle.c_parse.specs.inner.Reader as reader;
ghost use Rattle.c_parse.specs.inner.ReadingLists.{braced};
ghost use Rattle.c_parse.specs.inner.ReadingParts as parts;
ghost use Rattle.c_parse.specs.inner.ReadingStatements as reading;
ghost use Rattle.c_parse.specs.Tok.{toks};
ghost use Rattle.c_parse.specs.inner.View.{boxed_stmt, context};
ghost use Rattle.c_tree.specs.Tree.{ForS, IfS};
ghost use Rattle.c_parse.specs.inner.ReadingStatements.{maybe};
ghost use Rattle.c_tree.specs.View.{arm, expr, stmt};

use crate::declaration::variables;
use crate::expression::{expression, level};
use crate::fault::ReadErr;
use crate::keeping::keeping;
use crate::lead::{ArmLead, StmtLead};
use crate::leading::{arm_at, begins_expr, begins_stmt, begins_type, is_some_arm, stmt_at};
use crate::scope::{Scope, span};
use crate::tokens::{
    at, at_else_word, behind, close_brace, close_paren, colon, deep, no_room, open_brace,
    open_paren, semicolon, while_word,
};
use c_lex::{Punct, Token};
use c_tree::building::{boxed, do_while, for_bare, for_from, if_else, if_only};
use c_tree::{Arm, Expr, Span, Stmt};
use kit_base::Seq;
use std::alloc::Global;

/// An expression, where one begins.
fn maybe<'a>(
    alloc: Global,
    scope: &Scope,
    room: u32,
    tokens: &'a [Token],
) -> Result<(Option<Expr>, &'a [Token]), ReadErr>
    ensures gives { Gives (λ x. (option_map expr x.0, toks x.1.now)) result (reading.maybe_at (context scope.now) room (toks tokens.now)) }
{
    if !begins_expr(scope, tokens) {
        return Ok((None, tokens));
    }
    let (e, _depth, rest) = expression(alloc, scope, room, tokens)?;
    Ok((Some(e), rest))
}

/// What a `for` begins with, before its first semicolon.
#[tactic(auto, using(crate::proofs::CodeSteps::statement_steps))]
fn first<'a>(
    alloc: Global,
    scope: &Scope,
    room: u32,
    tokens: &'a [Token],
) -> Result<(Option<Box<Stmt>>, &'a [Token]), ReadErr>
    ensures gives { Gives (λ x. (maybe (option_map boxed_stmt x.0), toks x.1.now)) result (reading.first_at (context scope.now) room (toks tokens.now)) }
{
    if begins_type(scope, tokens) {
        if room == 0 {
            return Err(deep(tokens));
        }
        let (vars, rest) = variables(alloc, scope, room - 1, tokens)?;
        let from = Stmt::Vars(vars, span(scope, tokens, rest));
        return Ok((Some(boxed(alloc, from)?), rest));
    }
    if begins_expr(scope, tokens) {
        if room == 0 {
            return Err(deep(tokens));
        }
        let (e, _depth, rest) = expression(alloc, scope, room - 1, tokens)?;
        return Ok((Some(boxed(alloc, Stmt::Do(e))?), rest));
    }
    Ok((None, tokens))
}

/// An expression in parentheses.
fn test<'a>(
    alloc: Global,
    scope: &Scope,
    room: u32,
    tokens: &'a [Token],
) -> Result<(Expr, &'a [Token]), ReadErr>
    ensures gives { Gives (λ x. (expr x.0, toks x.1.now)) result (reading.test_at (context scope.now) room (toks tokens.now)) }
{
    let rest = open_paren(tokens)?;
    let (e, _depth, rest) = expression(alloc, scope, room, rest)?;
    keeping(e, close_paren(rest))
}

#[tactic(auto, using(crate::proofs::CodeSteps::statement_steps))]
#[cycle(statements)]
fn statement<'a>(
    alloc: Global,
    scope: &Scope,
    room: u32,
    tokens: &'a [Token],
) -> Result<(Stmt, &'a [Token]), ReadErr>
    ensures gives { Gives (λ x. (stmt x.0, toks x.1.now)) result (reading.stmt_read (context scope.now) room (toks tokens.now)) }
{
    if room == 0 {
        return Err(no_room(begins_stmt(scope, tokens), tokens));
    }
    match stmt_at(scope, tokens) {
        StmtLead::Block => block(alloc, scope, room - 1, tokens),
        StmtLead::If => if_statement(alloc, scope, room - 1, tokens),
        StmtLead::While => while_statement(alloc, scope, room - 1, tokens),
        StmtLead::Do => do_statement(alloc, scope, room - 1, tokens),
        StmtLead::For => for_statement(alloc, scope, room - 1, tokens),
        StmtLead::Switch => switch_statement(alloc, scope, room - 1, tokens),
        lead => simple(alloc, scope, room - 1, lead, tokens),
    }
}

#[cycle(statements)]
fn block<'a>(
    alloc: Global,
    scope: &Scope,
    room: u32,
    tokens: &'a [Token],
) -> Result<(Stmt, &'a [Token]), ReadErr>
    ensures gives { Gives (λ x. (stmt x.0, toks x.1.now)) result (reading.stmt_by (context scope.now) room (reading.bodies (context scope.now) room)
        (toks tokens.now) leads.Block) }
{
    let (body, rest) = statements(alloc, scope, room, behind(tokens))?;
    let (body, rest) = keeping(body, close_brace(rest))?;
    Ok((Stmt::Block(body, span(scope, tokens, rest)), rest))
}

/// A statement in a box, as others take it.
#[cycle(statements)]
fn inner<'a>(
    alloc: Global,
    scope: &Scope,
    room: u32,
    tokens: &'a [Token],
) -> Result<(Box<Stmt>, &'a [Token]), ReadErr>
    ensures gives { Gives (λ x. (boxed_stmt x.0, toks x.1.now)) result ((reading.bodies (context scope.now) room).stmt (toks tokens.now)) }
{
    let (body, rest) = statement(alloc, scope, room, tokens)?;
    Ok((boxed(alloc, body)?, rest))
}

/// An expression in parentheses and the statement under it.
#[cycle(statements)]
fn guarded<'a>(
    alloc: Global,
    scope: &Scope,
    room: u32,
    tokens: &'a [Token],
) -> Result<((Expr, Box<Stmt>), &'a [Token]), ReadErr>
    ensures gives { Gives (λ x. ((expr x.0.0, boxed_stmt x.0.1), toks x.1.now)) result
        (parts.guarded (context scope.now) room (reading.bodies (context scope.now) room) (toks tokens.now)) }
{
    let (e, rest) = test(alloc, scope, room, tokens)?;
    let (e, (body, rest)) = keeping(e, inner(alloc, scope, room, rest))?;
    Ok(((e, body), rest))
}

#[tactic(auto, using(crate::proofs::CodeSteps::statement_steps))]
#[cycle(statements)]
fn while_statement<'a>(
    alloc: Global,
    scope: &Scope,
    room: u32,
    tokens: &'a [Token],
) -> Result<(Stmt, &'a [Token]), ReadErr>
    ensures gives { Gives (λ x. (stmt x.0, toks x.1.now)) result (parts.while_parts (context scope.now) room (reading.bodies (context scope.now) room)
        (toks tokens.now)) }
{
    let ((e, body), rest) = guarded(alloc, scope, room, behind(tokens))?;
    Ok((Stmt::While(e, body, span(scope, tokens, rest)), rest))
}

/// The rest of a `do` statement, after its body.
fn do_end<'a>(
    alloc: Global,
    scope: &Scope,
    room: u32,
    tokens: &'a [Token],
) -> Result<(Expr, &'a [Token]), ReadErr>
    ensures gives { Gives (λ x. (expr x.0, toks x.1.now)) result (parts.do_end (context scope.now) room (toks tokens.now)) }
{
    let rest = while_word(tokens)?;
    let (e, rest) = test(alloc, scope, room, rest)?;
    keeping(e, semicolon(rest))
}

#[cycle(statements)]
fn do_statement<'a>(
    alloc: Global,
    scope: &Scope,
    room: u32,
    tokens: &'a [Token],
) -> Result<(Stmt, &'a [Token]), ReadErr>
    ensures gives { Gives (λ x. (stmt x.0, toks x.1.now)) result (parts.do_parts (context scope.now) room (reading.bodies (context scope.now) room)
        (toks tokens.now)) }
{
    let (body, rest) = statement(alloc, scope, room, behind(tokens))?;
    let (body, (e, rest)) = keeping(body, do_end(alloc, scope, room, rest))?;
    Ok((do_while(alloc, body, e, span(scope, tokens, rest))?, rest))
}

/// What a `switch` is over, and its opening brace.
fn switch_head<'a>(
    alloc: Global,
    scope: &Scope,
    room: u32,
    tokens: &'a [Token],
) -> Result<(Expr, &'a [Token]), ReadErr>
    ensures gives { Gives (λ x. (expr x.0, toks x.1.now)) result (parts.ended reader.open_brace (reading.test_at (context scope.now) room) (toks tokens.now)) }
{
    let (e, rest) = test(alloc, scope, room, tokens)?;
    keeping(e, open_brace(rest))
}

#[cycle(statements)]
fn switch_body<'a>(
    alloc: Global,
    scope: &Scope,
    room: u32,
    tokens: &'a [Token],
) -> Result<(Seq<Arm>, &'a [Token]), ReadErr>
    ensures gives { Gives (λ x. (map arm x.0, toks x.1.now)) result
        (parts.ended reader.close_brace (braced (reading.bodies (context scope.now) room).arm) (toks tokens.now)) }
{
    let (arms, rest) = arms(alloc, scope, room, tokens)?;
    keeping(arms, close_brace(rest))
}

#[cycle(statements)]
fn switch_statement<'a>(
    alloc: Global,
    scope: &Scope,
    room: u32,
    tokens: &'a [Token],
) -> Result<(Stmt, &'a [Token]), ReadErr>
    ensures gives { Gives (λ x. (stmt x.0, toks x.1.now)) result
        (parts.switch_parts (context scope.now) room (reading.bodies (context scope.now) room) (toks tokens.now)) }
{
    let (e, rest) = switch_head(alloc, scope, room, behind(tokens))?;
    let (e, (arms, rest)) = keeping(e, switch_body(alloc, scope, room, rest))?;
    Ok((Stmt::Switch(e, arms, span(scope, tokens, rest)), rest))
}

#[tactic(auto, using(crate::proofs::CodeSteps::statement_steps))]
fn vars_statement<'a>(
    alloc: Global,
    scope: &Scope,
    room: u32,
    tokens: &'a [Token],
) -> Result<(Stmt, &'a [Token]), ReadErr>
    ensures gives { Gives (λ x. (stmt x.0, toks x.1.now)) result (reading.stmt_by (context scope.now) room (reading.bodies (context scope.now) room)
        (toks tokens.now) leads.Vars) }
{
    let (vars, rest) = variables(alloc, scope, room, tokens)?;
    let (vars, rest) = keeping(vars, semicolon(rest))?;
    Ok((Stmt::Vars(vars, span(scope, tokens, rest)), rest))
}

#[tactic(auto, using(crate::proofs::CodeSteps::statement_steps))]
fn return_statement<'a>(
    alloc: Global,
    scope: &Scope,
    room: u32,
    tokens: &'a [Token],
) -> Result<(Stmt, &'a [Token]), ReadErr>
    ensures gives { Gives (λ x. (stmt x.0, toks x.1.now)) result (reading.stmt_by (context scope.now) room (reading.bodies (context scope.now) room)
        (toks tokens.now) leads.Return) }
{
    let (e, rest) = maybe(alloc, scope, room, behind(tokens))?;
    let (e, rest) = keeping(e, semicolon(rest))?;
    Ok((Stmt::Return(e, span(scope, tokens, rest)), rest))
}

#[tactic(auto, using(crate::proofs::CodeSteps::statement_steps))]
fn expression_statement<'a>(
    alloc: Global,
    scope: &Scope,
    room: u32,
    tokens: &'a [Token],
) -> Result<(Stmt, &'a [Token]), ReadErr>
    ensures gives { Gives (λ x. (stmt x.0, toks x.1.now)) result (reading.stmt_by (context scope.now) room (reading.bodies (context scope.now) room)
        (toks tokens.now) leads.Expr) }
{
    let (e, _depth, rest) = expression(alloc, scope, room, tokens)?;
    let (e, rest) = keeping(e, semicolon(rest))?;
    Ok((Stmt::Do(e), rest))
}

/// A statement that has no statement inside it.
fn simple<'a>(
    alloc: Global,
    scope: &Scope,
    room: u32,
    lead: StmtLead,
    tokens: &'a [Token],
) -> Result<(Stmt, &'a [Token]), ReadErr>
    requires simple { reading.is_simple lead ≡ true }
    ensures gives { Gives (λ x. (stmt x.0, toks x.1.now)) result (parts.stmt_parts (context scope.now) room (reading.bodies (context scope.now) room)
        (toks tokens.now) lead) }
{
    match lead {
        StmtLead::Empty => {
            let rest = behind(tokens);
            Ok((Stmt::Empty(span(scope, tokens, rest)), rest))
        }
        StmtLead::Vars => vars_statement(alloc, scope, room, tokens),
        StmtLead::Return => return_statement(alloc, scope, room, tokens),
        StmtLead::Break => {
            let rest = semicolon(behind(tokens))?;
            Ok((Stmt::Break(span(scope, tokens, rest)), rest))
        }
        StmtLead::Continue => {
            let rest = semicolon(behind(tokens))?;
            Ok((Stmt::Continue(span(scope, tokens, rest)), rest))
        }
        _ => expression_statement(alloc, scope, room, tokens),
    }
}

/// The statement after `else`, where an `else` comes next.
#[cycle(statements)]
fn otherwise<'a>(
    alloc: Global,
    scope: &Scope,
    room: u32,
    tokens: &'a [Token],
) -> Result<(Option<Box<Stmt>>, &'a [Token]), ReadErr>
    ensures gives { Gives (λ x. (maybe (option_map boxed_stmt x.0), toks x.1.now)) result
        (parts.else_at (reading.bodies (context scope.now) room) (toks tokens.now)) }
{
    if !at_else_word(tokens) {
        return Ok((None, tokens));
    }
    let (other, rest) = inner(alloc, scope, room, behind(tokens))?;
    Ok((Some(other), rest))
}

#[cycle(statements)]
fn if_statement<'a>(
    alloc: Global,
    scope: &Scope,
    room: u32,
    tokens: &'a [Token],
) -> Result<(Stmt, &'a [Token]), ReadErr>
    ensures gives { Gives (λ x. (stmt x.0, toks x.1.now)) result (parts.if_parts (context scope.now) room (reading.bodies (context scope.now) room)
        (toks tokens.now)) }
{
    let (head, rest) = guarded(alloc, scope, room, behind(tokens))?;
    let other = otherwise(alloc, scope, room, rest);
    let (head, (other, rest)) = keeping(head, other)?;
    Ok((if_(head, other, span(scope, tokens, rest)), rest))
}

fn if_(head: (Expr, Box<Stmt>), other: Option<Box<Stmt>>, span: Span) -> Stmt
    ensures made { stmt result ≡ IfS (expr head.0) (boxed_stmt head.1) (maybe (option_map boxed_stmt other)) span }
{
    let (e, then) = head;
    match other {
        None => if_only(e, then, span),
        Some(other) => if_else(e, then, other, span),
    }
}

/// What a `for` begins with, up to its first semicolon.
fn for_first<'a>(
    alloc: Global,
    scope: &Scope,
    room: u32,
    tokens: &'a [Token],
) -> Result<(Option<Box<Stmt>>, &'a [Token]), ReadErr>
    ensures gives { Gives (λ x. (maybe (option_map boxed_stmt x.0), toks x.1.now)) result (parts.for_first (context scope.now) room (toks tokens.now)) }
{
    let rest = open_paren(tokens)?;
    let (from, rest) = first(alloc, scope, room, rest)?;
    keeping(from, semicolon(rest))
}

/// What stands from there up to the closing parenthesis.
fn for_steps<'a>(
    alloc: Global,
    scope: &Scope,
    room: u32,
    tokens: &'a [Token],
) -> Result<((Option<Expr>, Option<Expr>), &'a [Token]), ReadErr>
    ensures gives { Gives (λ x. ((option_map expr x.0.0, option_map expr x.0.1), toks x.1.now)) result
        (parts.for_steps (context scope.now) room (toks tokens.now)) }
{
    let (check, rest) = maybe(alloc, scope, room, tokens)?;
    let (check, rest) = keeping(check, semicolon(rest))?;
    let (check, (step, rest)) = keeping(check, maybe(alloc, scope, room, rest))?;
    keeping((check, step), close_paren(rest))
}

fn for_head<'a>(
    alloc: Global,
    scope: &Scope,
    room: u32,
    tokens: &'a [Token],
) -> Result<((Option<Box<Stmt>>, Option<Expr>, Option<Expr>), &'a [Token]), ReadErr>
    ensures gives { Gives (λ x. ((maybe (option_map boxed_stmt x.0.0), option_map expr x.0.1, option_map expr x.0.2), toks x.1.now)) result
        (parts.for_head (context scope.now) room (toks tokens.now)) }
{
    let (from, rest) = for_first(alloc, scope, room, tokens)?;
    let (from, ((check, step), rest)) = keeping(from, for_steps(alloc, scope, room, rest))?;
    Ok(((from, check, step), rest))
}

#[cycle(statements)]
fn for_statement<'a>(
    alloc: Global,
    scope: &Scope,
    room: u32,
    tokens: &'a [Token],
) -> Result<(Stmt, &'a [Token]), ReadErr>
    ensures gives { Gives (λ x. (stmt x.0, toks x.1.now)) result (parts.for_parts (context scope.now) room (reading.bodies (context scope.now) room)
        (toks tokens.now)) }
{
    let (head, rest) = for_head(alloc, scope, room, behind(tokens))?;
    let (head, (body, rest)) = keeping(head, inner(alloc, scope, room, rest))?;
    Ok((for_(head, body, span(scope, tokens, rest)), rest))
}

fn for_(head: (Option<Box<Stmt>>, Option<Expr>, Option<Expr>), body: Box<Stmt>, span: Span) -> Stmt
    ensures made { stmt result ≡ ForS (maybe (option_map boxed_stmt head.0)) (option_map expr head.1) (option_map expr head.2) (boxed_stmt body) span }
{
    let (from, check, step) = head;
    match from {
        None => for_bare(check, step, body, span),
        Some(from) => for_from(from, check, step, body, span),
    }
}

/// Statements up to a closing brace.
#[cycle(statements)]
pub(crate) fn statements<'a>(
    alloc: Global,
    scope: &Scope,
    room: u32,
    tokens: &'a [Token],
) -> Result<(Seq<Stmt>, &'a [Token]), ReadErr>
    ensures gives { Gives (λ x. (map stmt x.0, toks x.1.now)) result (braced (reading.bodies (context scope.now) room).stmt (toks tokens.now)) }
{
    let mut found = Vec::new(alloc);
    let mut rest = tokens;
    'statements: while !at(Punct::CloseBrace, rest) {
        let (next, after) = statement(alloc, scope, room, rest)?;
        found.push(next)?;
        rest = after;
    }
    Ok((Seq::from_vec(found), rest))
}

#[tactic(auto, using(crate::proofs::CodeSteps::statement_steps))]
fn case_arm<'a>(
    alloc: Global,
    scope: &Scope,
    room: u32,
    tokens: &'a [Token],
) -> Result<(Arm, &'a [Token]), ReadErr>
    ensures gives { Gives (λ x. (arm x.0, toks x.1.now)) result (reading.arm_by (context scope.now) room (reading.bodies (context scope.now) room)
        (toks tokens.now) arm_leads.Case) }
{
    let (e, _depth, rest) = level(alloc, scope, room, 10, behind(tokens))?;
    let (e, rest) = keeping(e, colon(rest))?;
    Ok((Arm::Case(e, span(scope, tokens, rest)), rest))
}

#[tactic(auto, using(crate::proofs::CodeSteps::statement_steps))]
fn default_arm<'a>(
    scope: &Scope,
    room: u32,
    tokens: &'a [Token],
) -> Result<(Arm, &'a [Token]), ReadErr>
    ensures gives { Gives (λ x. (arm x.0, toks x.1.now)) result (reading.arm_by (context scope.now) room (reading.bodies (context scope.now) room)
        (toks tokens.now) arm_leads.Default) }
{
    let rest = colon(behind(tokens))?;
    Ok((Arm::Default(span(scope, tokens, rest)), rest))
}

#[tactic(auto, using(crate::proofs::CodeSteps::statement_steps))]
#[cycle(statements)]
fn arm<'a>(
    alloc: Global,
    scope: &Scope,
    room: u32,
    tokens: &'a [Token],
) -> Result<(Arm, &'a [Token]), ReadErr>
    ensures gives { Gives (λ x. (arm x.0, toks x.1.now)) result (reading.arm_read (context scope.now) room (toks tokens.now)) }
{
    let lead = arm_at(tokens);
    if room == 0 {
        return Err(no_room(is_some_arm(lead) || begins_stmt(scope, tokens), tokens));
    }
    match lead {
        ArmLead::Case => case_arm(alloc, scope, room - 1, tokens),
        ArmLead::Default => default_arm(scope, room - 1, tokens),
        ArmLead::Stmt => {
            let (body, rest) = statement(alloc, scope, room - 1, tokens)?;
            Ok((Arm::Stmt(body), rest))
        }
    }
}

/// The arms of a `switch`, up to its closing brace.
#[cycle(statements)]
fn arms<'a>(
    alloc: Global,
    scope: &Scope,
    room: u32,
    tokens: &'a [Token],
) -> Result<(Seq<Arm>, &'a [Token]), ReadErr>
    ensures gives { Gives (λ x. (map arm x.0, toks x.1.now)) result (braced (reading.bodies (context scope.now) room).arm (toks tokens.now)) }
{
    let mut found = Vec::new(alloc);
    let mut rest = tokens;
    'arms: while !at(Punct::CloseBrace, rest) {
        let (next, after) = arm(alloc, scope, room, rest)?;
        found.push(next)?;
        rest = after;
    }
    Ok((Seq::from_vec(found), rest))
}
