// What a call holds beside the files' names, and what a line does to it.
ghost use Rattle.std.specs.Prelude.{◌≡◌, [], ◌∷◌, not};
ghost use Rattle.c_prep.specs.Faults.{Gives};
ghost use Rattle.c_prep.specs.Directives.{Directed as LineDirective};
ghost use Rattle.c_prep.specs.inner.Inner.{shown};
ghost use Rattle.c_prep.specs.Steps.{directed, is_condition, is_defined, obeyed, put, step_at};

use crate::conditions::Conditions;
use crate::directive::{Directed, Directive, directive_in};
use crate::error::{Fault, StepErr, fault_at};
use crate::output::Output;
use crate::replace::replace_all;
use crate::table::Macros;
use c_lex::Token;
use std::alloc::Global;

/// The macros, and what was put.
#[derive(Drop)]
pub struct Work {
    pub macros: Macros,
    pub out: Output,
}

/// Follows a directive in a part that is not skipped.
fn obey(
    alloc: Global,
    hash: &Token,
    directive: &Directive<'_>,
    work: &mut Work,
    conds: &mut Conditions,
) -> Result<(), StepErr>
    ensures { Gives (work.new, conds.new) result (obeyed hash.now (shown directive.now) work.old conds.old) }
{
    match directive {
        Directive::Include(_) => Ok(()),
        Directive::Define(name, body) => work.macros.define(alloc, hash, name, body),
        Directive::Undef(name) => {
            work.macros.undefine(name);
            Ok(())
        }
        Directive::IfDef(name) => {
            let taken = work.macros.is_defined(name);
            conds.begin(hash, taken)
        }
        Directive::IfNotDef(name) => {
            let taken = !work.macros.is_defined(name);
            conds.begin(hash, taken)
        }
        Directive::Else => conds.turn(hash),
        Directive::EndIf => conds.end(hash),
        Directive::Error => Err(StepErr::Cause(fault_at(Fault::ErrorDirective, hash))),
        Directive::Bad => Err(StepErr::Cause(fault_at(Fault::BadDirective, hash))),
    }
}

/// Whether a directive is followed in a part that is skipped too.
fn is_condition(directive: &Directive<'_>) -> bool
    ensures { result ≡ is_condition (shown directive.now) }
{
    match directive {
        Directive::IfDef(_) | Directive::IfNotDef(_) | Directive::Else | Directive::EndIf => true,
        Directive::Include(_)
        | Directive::Define(_, _)
        | Directive::Undef(_)
        | Directive::Error
        | Directive::Bad => false,
    }
}

fn directed(
    alloc: Global,
    line: &Directed<'_>,
    work: &mut Work,
    conds: &mut Conditions,
) -> Result<(), StepErr>
    ensures { Gives (work.new, conds.new) result (directed (record { hash = line.now.hash.now; directive = shown line.now.directive }) work.old conds.old) }
{
    if conds.skips() && !is_condition(&line.directive) {
        return Ok(());
    }
    obey(alloc, line.hash, &line.directive, work, conds)
}

/// Puts what the tokens of a line stand for.
fn put(alloc: Global, line: &[Token], work: &mut Work, conds: &Conditions) -> Result<(), StepErr>
    ensures { Gives (work.new, conds.now) result (put line.now work.old conds.now) }
{
    if conds.skips() {
        return Ok(());
    }
    replace_all(alloc, &work.macros, line, &mut work.out)
}

/// What a line does that includes no file.
#[tactic(auto, unfolding(crate::specs::Steps::step_at))]
pub fn step_at(
    alloc: Global,
    line: &[Token],
    work: &mut Work,
    conds: &mut Conditions,
) -> Result<(), StepErr>
    ensures { Gives (work.new, conds.new) result (step_at line.now work.old conds.old) }
{
    match directive_in(line) {
        None => put(alloc, line, work, conds),
        Some(found) => directed(alloc, &found, work, conds),
    }
}
