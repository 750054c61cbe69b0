// A source as the tokens that it stands for.
ghost use Rattle.std.specs.Prelude.{◌≡◌, ◌≤◌, length, true, IfOk, IfErr, IfSome};
ghost use Rattle.std.specs.List.{list_all};
ghost use Rattle.std.specs.Str.{is_utf8};
ghost use Rattle.c_prep.specs.Files.{Answers, expansion_of};
ghost use Rattle.c_prep.specs.Numbers.{HaveLines, Numbered};
ghost use Rattle.c_prep.specs.Reached.{Reaches, names_of};
ghost use Rattle.c_prep.specs.Codes.{HasReadingCode};
ghost use Rattle.c_prep.specs.Causes.{Caused, HasFailed, IsOver, Lacks};

use crate::error::{PrepErr, PrepFault};
use crate::files::expand_file;
use crate::output::Output;
use crate::table::Macros;
use crate::work::Work;
use c_lex::Token;
use kit_base::{Name, Reads};
use std::alloc::Global;

/// The tokens that the source of that name stands for, with the files that it includes.
///
/// Files are read by their names as they are written and numbered in the order of the reads, from 0; a
/// name that is read twice has two numbers. On exit `names` has the name of each file that was read, at
/// its number, also after a refusal: that of the file being read stands there already. What a source
/// stands for is a function of the files, so there is one answer. No file changes.
pub fn expand<F: Reads>(
    alloc: Global,
    files: &mut F,
    name: &str,
    names: &mut Vec<Name>,
) -> Result<Vec<Token>, PrepErr>
    requires empty { length names.old.items ≡ 0 }
    ensures held { F.held files.new ≡ F.held files.old }
    // Where it is told what is held, the tokens, or the first fault, are those that are due, with the
    // files' names, unless the files failed or memory ran out.
    ensures told { IfSome (F.held files.old) (λ m. Answers result names.new.items (expansion_of m name.now)) }
    // Where the files failed, it was at the last of the files that were read; these are the first of those that are due, as far as
    // the reading got, also where memory ran out.
    ensures reached { IfSome (F.held files.old) (λ m. Reaches names_of result names.new.items (expansion_of m name.now)) }
    // Each file number in a token or a refusal has its name.
    ensures numbers { Numbered (length names.new.items) result }
    // Names are texts, and lines count from 1.
    ensures texts { list_all is_utf8 names.new.items ≡ true }
    ensures lines { IfOk result (λ v. HaveLines v.items) }
    ensures limits { IfOk result (λ v. length v.items ≤ 200000) }
    // A refusal at a place has a code that is listed.
    ensures codes { IfErr result HasReadingCode }
    // No count falls. `Failed` comes only where the faults rose, `NoSource` and code 21 only where the
    // misses rose, and `TooLong` only where the overs rose.
    ensures faults { Caused (HasFailed result) (F.faults files.old) (F.faults files.new) }
    ensures misses { Caused (Lacks result) (F.misses files.old) (F.misses files.new) }
    ensures overs { Caused (IsOver result) (F.overs files.old) (F.overs files.new) }
{
    let mut work = Work {
        macros: Macros::new(alloc),
        out: Output::new(alloc),
    };
    let missing = PrepFault::NoSource;
    match expand_file(alloc, files, 16, missing, name, &mut work, names) {
        Ok(()) => Ok(work.out.into_tokens()),
        Err(x) => Err(x),
    }
}
