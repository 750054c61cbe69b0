// The headers laid over the files.
ghost use Rattle.std.specs.Prelude.{ℕ, Option, None, ◌≡◌, ◌≤◌, IfOk, IfErr, IfSome, IsUtf8, length, option_map, true};
ghost use Rattle.std.specs.List.{list_all};
ghost use Rattle.std.specs.Str.{is_utf8};
ghost use Rattle.kit_base.specs.Held.{Held};
ghost use Rattle.c_prep.specs.Files.{Answers, expansion_of};
ghost use Rattle.c_prep.specs.Numbers.{HaveLines, Numbered};
ghost use Rattle.c_prep.specs.Reached.{Reaches, names_of};
ghost use Rattle.c_prep.specs.Codes.{HasReadingCode};
ghost use Rattle.c_prep.specs.Causes.{Caused, HasFailed, IsOver, Lacks};
ghost use Rattle.c_front.specs.Over.{held_set, over};

use crate::headers::header;
use c_lex::Token;
use c_prep::{PrepErr, expand};
use kit_base::{FileErr, Name, Reads};
use std::alloc::Global;
use std::marker::{Brand, PhantomData};

/// Which loan of the files is meant, and what they hold, for proofs alone. Behind generic code that was
/// handed a loan it is known that the loan is the same one and that the files hold the same.
pub trait Loan {
    ghost lender: { ℕ };

    ghost holding: { Option Held };
}

impl Loan for Brand {
    ghost lender = { 0 };

    ghost holding = { None };
}

/// The files of a project with the eight headers laid over them: a read of a header's name gives its
/// text and asks no file, whether or not a file has that name.
#[derive(Drop)]
pub struct WithHeaders<'a, F: Reads, L: Loan> {
    files: &'a mut F,
    loan: PhantomData<L>,
    ghost same: { files.ghost_name ≡ L.lender },
    ghost kept: { F.held files.now ≡ L.holding } by { held_set (F.held files.now) L.holding },
}

impl<'a, F: Reads, L: Loan> Reads for WithHeaders<'a, F, L> {
    ghost held = { λ w. option_map over (F.held w.files.now) };

    ghost faults = { λ w. F.faults w.files.now };

    ghost misses = { λ w. F.misses w.files.now };

    ghost overs = { λ w. F.overs w.files.now };

    fn read(&mut self, alloc: Global, name: &str) -> Result<Vec<u8>, FileErr> {
        match header(name) {
            Some(text) => match Vec::from_slice(alloc, text.as_bytes()) {
                Ok(copy) => Ok(copy),
                Err(_) => Err(FileErr::Memory),
            },
            None => self.files.read(alloc, name),
        }
    }
}

/// A loan of the files.
#[derive(Drop)]
struct Lent<'a, F> {
    files: &'a mut F,
}

/// `expand_over` on a loan that is named, which is given back. The answer is left behind a reference: given
/// back with the loan, what it owns would hide the loan's end.
fn expand_lent<'a, F: Reads, L: Loan>(
    alloc: Global,
    files: &'a mut F,
    source: &Name,
    names: &mut Vec<Name>,
    answer: &mut Result<Vec<Token>, PrepErr>,
) -> Lent<'a, F>
    requires loan { files.ghost_name ≡ L.lender }
    requires holding { F.held files.old ≡ L.holding }
    requires text { IsUtf8 source.now }
    requires empty { length names.old.items ≡ 0 }
    ensures same { result.files.ghost_name ≡ files.entry.ghost_name }
    ensures held { F.held result.files.now ≡ F.held files.old }
    ensures told { IfSome (F.held files.old) (λ m. Answers answer.new names.new.items (expansion_of (over m) source.now)) }
    ensures reached { IfSome (F.held files.old) (λ m. Reaches names_of answer.new names.new.items (expansion_of (over m) source.now)) }
    ensures numbers { Numbered (length names.new.items) answer.new }
    ensures texts { list_all is_utf8 names.new.items ≡ true }
    ensures lines { IfOk answer.new (λ v. HaveLines v.items) }
    ensures limits { IfOk answer.new (λ v. length v.items ≤ 200000) }
    ensures codes { IfErr answer.new HasReadingCode }
    ensures faults { Caused (HasFailed answer.new) (F.faults files.old) (F.faults result.files.now) }
    ensures misses { Caused (Lacks answer.new) (F.misses files.old) (F.misses result.files.now) }
    ensures overs { Caused (IsOver answer.new) (F.overs files.old) (F.overs result.files.now) }
{
    let mut laid: WithHeaders<'a, F, L> = WithHeaders {
        files,
        loan: PhantomData,
    };
    *answer = expand(alloc, &mut laid, source.as_str(), names);
    let WithHeaders { files, loan: _ } = laid;
    Lent { files }
}

/// The tokens that the source of that name stands for, with the headers laid over the files, as
/// `expand` has them.
pub fn expand_over<F: Reads>(
    alloc: Global,
    files: &mut F,
    source: &Name,
    names: &mut Vec<Name>,
) -> Result<Vec<Token>, PrepErr>
    requires text { IsUtf8 source.now }
    requires empty { length names.old.items ≡ 0 }
    ensures held { F.held files.new ≡ F.held files.old }
    ensures told { IfSome (F.held files.old) (λ m. Answers result names.new.items (expansion_of (over m) source.now)) }
    ensures reached { IfSome (F.held files.old) (λ m. Reaches names_of result names.new.items (expansion_of (over m) source.now)) }
    ensures numbers { Numbered (length names.new.items) result }
    ensures texts { list_all is_utf8 names.new.items ≡ true }
    ensures lines { IfOk result (λ v. HaveLines v.items) }
    ensures limits { IfOk result (λ v. length v.items ≤ 200000) }
    ensures codes { IfErr result HasReadingCode }
    ensures faults { Caused (HasFailed result) (F.faults files.old) (F.faults files.new) }
    ensures misses { Caused (Lacks result) (F.misses files.old) (F.misses files.new) }
    ensures overs { Caused (IsOver result) (F.overs files.old) (F.overs files.new) }
{
    let mut answer = Err(PrepErr::Memory);
    let _ended = expand_lent::<F, Brand>(alloc, files, source, names, &mut answer);
    answer
}
