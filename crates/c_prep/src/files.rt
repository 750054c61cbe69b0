// A file with the files that it includes.
ghost use Rattle.std.specs.Prelude.{◌≡◌, ◌≢◌, ◌<◌, ◌≤◌, ◌++◌, ◌∷◌, [], ◌&&◌, true, false, nat_lt, length, Some, Ok, Err, List, ℕ};
ghost use Rattle.std.specs.Prelude.{IfOk, IfErr, IfSome, OnOk, OnErr};
ghost use Rattle.std.specs.List.{list_all};
ghost use Rattle.std.specs.Str.{is_utf8};
ghost use Rattle.kit_base.specs.Held.{Held};
ghost use Rattle.kit_base.specs.Counts.{counts};
ghost use Rattle.kit_base.specs.Outside.{due};
ghost use Rattle.kit_base.specs.declared.failure.Failure.TheVariants.{Cause};
ghost use Rattle.c_lex.specs.Found.{reading_of};
ghost use Rattle.c_prep.specs.declared.error.Fault.TheVariants.{TooDeep};
ghost use Rattle.c_prep.specs.Faults.{fault_at};
ghost use Rattle.c_prep.specs.Conditions.{closed};
ghost use Rattle.c_prep.specs.Steps.{step_at};
ghost use Rattle.c_prep.specs.Files.{bytes_of, code_of, file_at, include_at, include_in, lexed, missing_at, refusal, refusing, stopping};
ghost use Rattle.c_prep.specs.inner.Inner.{ArePlaced, GivesAs, GivesOut, IsFailedAt, IsOfText, PlacedIn, PlacedPut, SaysMissing, included, refused, so_far};
ghost use Rattle.c_prep.specs.Causes.{HasCauses};
ghost use Rattle.c_prep.specs.Codes.{HasReadingCode};
ghost use Rattle.c_prep.specs.Numbers.{IsBelow};
ghost use Rattle.c_prep.specs.Reached.{Reaches};

use crate::conditions::Conditions;
use crate::directive::{Directive, directive_in};
use crate::error::{Fault, FaultAt, PrepErr, PrepFault, StepErr, fault_at};
use crate::lines::next_line;
use crate::work::{Work, step_at};
use c_lex::{LexErr, Token, Tokens, read_tokens};
use kit_base::{FileErr, Memory, Name, Reads};
use std::alloc::Global;

/// A call reads at most as many files.
const FILES: usize = 10_000;

/// An include in a part that is not skipped, with its `#`.
#[derive(Clone, Copy)]
pub struct Included<'a> {
    pub hash: &'a Token,
    pub name: &'a str,
}

fn code_of(fault: Fault) -> u32
    ensures { result ≡ code_of fault }
{
    match fault {
        Fault::BadDirective => 20,
        Fault::TooDeep => 22,
        Fault::OpenCondition => 23,
        Fault::ErrorDirective => 24,
        Fault::TooManyTokens => 25,
        Fault::Redefined => 26,
    }
}

fn refusal(x: FaultAt) -> PrepFault
    ensures told { result ≡ refusal x }
    ensures text { IsOfText (Cause result) }
    ensures codes { HasReadingCode (Cause result) }
{
    PrepFault::At {
        code: code_of(x.fault),
        file: x.file,
        line: x.line,
    }
}

/// The same result, with what a fault is told as.
fn refusing(result_of: Result<(), StepErr>) -> Result<(), PrepErr>
    ensures told { result ≡ refused result_of }
    ensures text { IfErr result IsOfText }
    ensures codes { IfErr result HasReadingCode }
{
    match result_of {
        Ok(()) => Ok(()),
        Err(StepErr::Cause(x)) => Err(PrepErr::Cause(refusal(x))),
        Err(StepErr::Memory) => Err(PrepErr::Memory),
    }
}

/// Adds the name of a file that is read; its number.
fn name_file(alloc: Global, names: &mut Vec<Name>, name: &str) -> Result<u32, Memory>
    requires { length names.old.items < 10000 }
    ensures number { IfOk result (λ n. n ≡ length names.old.items) }
    ensures names { OnOk result (names.new.items ≡ names.old.items ++ name.now ∷ []) }
    ensures kept { OnErr result (names.new.items ≡ names.old.items) }
    ensures texts { list_all is_utf8 names.old.items ≡ true → list_all is_utf8 names.new.items ≡ true }
{
    let file = names.len() as u32;
    names.push(Name::new(alloc, name)?)?;
    Ok(file)
}

#[tactic(auto, using(crate::proofs::Listing::missing_code))]
fn read_file<F: Reads>(
    alloc: Global,
    files: &mut F,
    missing: PrepFault,
    name: &str,
    file: u32,
) -> Result<Vec<u8>, PrepErr>
    requires { SaysMissing missing }
    ensures held { F.held files.new ≡ F.held files.old }
    ensures told { (m : Held) → F.held files.old ≡ Some m → GivesAs (λ v. v.items) result (bytes_of missing file (due m name.now)) }
    ensures limit { IfOk result (λ v. length v.items ≤ 268435456) }
    ensures numbers { (n : ℕ) → file < n → IsBelow n (Cause missing) → IfErr result (IsBelow n) }
    ensures failed { IfErr result (IsFailedAt file) }
    ensures codes { IfErr result HasReadingCode }
    ensures causes { HasCauses result (counts F.faults F.misses F.overs files.old) (counts F.faults F.misses F.overs files.new) }
{
    match files.read(alloc, name) {
        Ok(bytes) => Ok(bytes),
        Err(FileErr::Missing) => Err(PrepErr::Cause(missing)),
        Err(FileErr::TooLong) => Err(PrepErr::Cause(PrepFault::TooLong { file })),
        Err(FileErr::Failed) => Err(PrepErr::Cause(PrepFault::Failed { file })),
        Err(FileErr::Memory) => Err(PrepErr::Memory),
    }
}

/// The tokens of a file that is read.
fn lex_file<'a>(alloc: Global, bytes: &'a [u8], file: u32) -> Result<Tokens<'a>, PrepErr>
    requires { length bytes.now ≤ 268435456 }
    ensures told { GivesAs (λ ts. ts) result (lexed file (reading_of file bytes.now)) }
    ensures text { IfErr result IsOfText }
    ensures codes { IfErr result HasReadingCode }
    ensures numbers { (n : ℕ) → file < n → PlacedIn n result }
{
    match read_tokens(alloc, bytes, file) {
        Ok(tokens) => Ok(tokens),
        Err(LexErr::Cause(fault)) => Err(PrepErr::Cause(PrepFault::At {
            code: fault.code,
            file,
            line: fault.line,
        })),
        Err(LexErr::Memory) => Err(PrepErr::Memory),
    }
}

/// The include that a line is.
#[tactic(auto, unfolding(crate::specs::Files::include_in))]
fn include_in<'a>(line: &'a [Token], conds: &Conditions) -> Option<Included<'a>>
    ensures told { included result ≡ include_in line.now conds.now }
    ensures numbers { (n : ℕ) → ArePlaced n line.now → IfSome result (λ i. i.hash.now.file < n) }
{
    if conds.skips() {
        return None;
    }
    match directive_in(line) {
        Some(found) => match found.directive {
            Directive::Include(name) => Some(Included {
                hash: found.hash,
                name,
            }),
            _ => None,
        },
        None => None,
    }
}

/// Whether a file may be included, where so many may still lie inside one another.
fn may_include(room: u32, names: &[Name], hash: &Token) -> Result<(), PrepErr>
    ensures some { OnOk result (0 < room) }
    ensures few { OnOk result (length names.now < 10000) }
    ensures deep { IfErr result (λ x. x ≡ Cause (refusal (fault_at TooDeep hash.now))) }
    ensures codes { IfErr result HasReadingCode }
    ensures when { OnErr result ((nat_lt 0 room && nat_lt (length names.now) 10000) ≡ false) }
{
    if room > 0 && names.len() < FILES {
        Ok(())
    } else {
        Err(PrepErr::Cause(refusal(fault_at(Fault::TooDeep, hash))))
    }
}

fn missing_at(hash: &Token) -> PrepFault
    ensures told { result ≡ missing_at hash.now }
    ensures says { SaysMissing result }
    ensures numbers { (n : ℕ) → hash.now.file < n → IsBelow n (Cause result) }
{
    PrepFault::At {
        code: 21,
        file: hash.file,
        line: hash.line,
    }
}

/// What a line does that includes no file.
fn step_line(
    alloc: Global,
    line: &[Token],
    work: &mut Work,
    conds: &mut Conditions,
) -> Result<(), PrepErr>
    ensures told { (names : List (List ℕ)) → GivesOut (work.new, conds.new) names result (stopping names (refusing (step_at line.now work.old conds.old))) }
    ensures text { IfErr result IsOfText }
    ensures codes { IfErr result HasReadingCode }
    ensures numbers { (n : ℕ) → ArePlaced n line.now → ArePlaced n work.old.out.tokens → PlacedPut n work.new.out.tokens result }
{
    refusing(step_at(alloc, line, work, conds))
}

fn close(conds: &Conditions, file: u32) -> Result<(), PrepErr>
    ensures told { (names : List (List ℕ)) → GivesOut tt names result (stopping names (refusing (closed file conds.now))) }
    ensures text { IfErr result IsOfText }
    ensures codes { IfErr result HasReadingCode }
    ensures numbers { (n : ℕ) → file < n → IfErr result (IsBelow n) }
{
    refusing(conds.closed(file))
}

/// A file, which gets the next number, with the files that it includes, of which so many may lie inside
/// one another. `missing` tells that it is not held.
pub fn expand_file<F: Reads>(
    alloc: Global,
    files: &mut F,
    room: u32,
    missing: PrepFault,
    name: &str,
    work: &mut Work,
    names: &mut Vec<Name>,
) -> Result<(), PrepErr>
    requires says { SaysMissing missing }
    requires few { length names.old.items < 10000 }
    requires texts { list_all is_utf8 names.old.items ≡ true }
    requires put { ArePlaced (length names.old.items) work.old.out.tokens }
    requires lacking { IsBelow (length names.old.items) (Cause missing) }
    ensures held { F.held files.new ≡ F.held files.old }
    ensures told { (m : Held) → F.held files.old ≡ Some m → GivesOut (record { work = work.new; names = names.new.items }) names.new.items result
        (file_at m (include_at m room) missing name.now (record { work = work.old; names = names.old.items })) }
    ensures reached { (m : Held) → F.held files.old ≡ Some m → Reaches so_far result names.new.items
        (file_at m (include_at m room) missing name.now (record { work = work.old; names = names.old.items })) }
    ensures texts { list_all is_utf8 names.new.items ≡ true }
    ensures more { OnOk result (length names.old.items ≤ length names.new.items) }
    ensures numbers { PlacedPut (length names.new.items) work.new.out.tokens result }
    ensures codes { IfErr result HasReadingCode }
    ensures causes { HasCauses result (counts F.faults F.misses F.overs files.old) (counts F.faults F.misses F.overs files.new) }
{
    let Ok(file) = name_file(alloc, names, name) else {
        return Err(PrepErr::Memory);
    };
    let bytes = read_file(alloc, files, missing, name, file)?;
    let mut tokens = lex_file(alloc, bytes.as_slice(), file)?;
    let mut conds = Conditions::new(alloc);
    'each: while let Some(line) = next_line(alloc, &mut tokens, conds.skips())? {
        let text = line.as_slice();
        match include_in(text, &conds) {
            Some(found) => {
                may_include(room, names, found.hash)?;
                let lacking = missing_at(found.hash);
                expand_file(alloc, files, room - 1, lacking, found.name, work, names)?;
            }
            None => step_line(alloc, text, work, &mut conds)?,
        }
    }
    close(&conds, file)
}
