// A source as its syntax tree.
ghost use Rattle.std.specs.Prelude.{◌≡◌, List, length, true, Ok, IfErr, IfOk, IfSome, ◌<◌};
ghost use Rattle.std.specs.List.{list_all};
ghost use Rattle.std.specs.Str.{is_utf8};
ghost use Rattle.c_tree.specs.Depth.{unit_depth};
ghost use Rattle.c_tree.specs.Tree.{ItemT};
ghost use Rattle.c_tree.specs.View.{unit};
ghost use Rattle.c_prep.specs.Causes.{Caused};
ghost use Rattle.c_prep.specs.Files.{Expansion, expansion_of};
ghost use Rattle.c_prep.specs.Numbers.{AreBelow, HaveLines};
ghost use Rattle.c_parse.specs.Tok.{toks};
ghost use Rattle.c_parse.specs.Units.{Derives, Unit_};
ghost use Rattle.c_front.specs.Over.{over};
ghost use Rattle.c_front.specs.Due.{Answers, told_as};
ghost use Rattle.c_front.specs.Answer.{IsTooDeep, IsUnitOf};
ghost use Rattle.c_front.specs.Codes.{HasFrontCode};
ghost use Rattle.c_front.specs.Causes.{HasFailed, IsOver, IsWithin, Lacks, MissesOnly};
ghost use Rattle.c_front.specs.inner.Inner.{Tells};
ghost use Rattle.c_front.specs.Reached.{FailsAtOne};

use crate::error::FrontErr;
use crate::headers_over::expand_over;
use crate::parsing::parse_at;
use crate::places::{Places, name_of};
use c_parse::tokens_are_one_unit;
use c_prep::{PrepErr, PrepFault};
use c_tree::Unit;
use kit_base::{Memory, Name, Reads, Seq};
use std::alloc::Global;

/// A source's syntax tree, with the places of its tokens, from which its spans count.
#[derive(Drop)]
pub struct Parsed {
    pub unit: Unit,
    pub places: Places,
}

/// What the first fault of the reading is told as.
fn told_as(source: &Name, names: &[Name], fault: PrepFault) -> FrontErr
    ensures { Tells result (told_as source.now names.now fault) }
{
    let named = match fault {
        PrepFault::At { file, .. } | PrepFault::Failed { file } | PrepFault::TooLong { file } => {
            name_of(source, names, file)
        }
        PrepFault::NoSource => source,
    };
    let Ok(name) = named.copy() else {
        return FrontErr::Memory;
    };
    match fault {
        PrepFault::At { code, line, .. } => FrontErr::Source {
            code,
            file: name,
            line,
        },
        PrepFault::NoSource => FrontErr::Missing(name),
        PrepFault::Failed { .. } => FrontErr::Failed(name),
        PrepFault::TooLong { .. } => FrontErr::Limit(name),
    }
}

/// The syntax tree of the source of that name: of the tokens that it stands for, with the files that it
/// includes and the headers of the dialect, which lie over the files. Of the source alone it is said that
/// it is missing; an include that is not held is code 21. At the end of the tokens the line is that of the
/// last, and line 1 of the source where there are none. No file changes.
pub fn read_unit<F: Reads>(alloc: Global, files: &mut F, source: &str) -> Result<Parsed, FrontErr>
    ensures held { F.held files.new ≡ F.held files.old }
    // Where it is told what is held, the answer is one that is due there, unless a call failed or memory
    // ran out;
    ensures told { IfSome (F.held files.old) (λ m. Answers (over m) source.now result) }
    // where the tokens are a unit that is shallow enough, it is that one,
    ensures derived { IfSome (F.held files.old) (λ m. (x : Expansion) (ds : List ItemT)
        → expansion_of (over m) source.now ≡ Ok x → Derives (toks x.tokens) ds → IsUnitOf ds result) }
    // and where they are a deeper one, it is code 31.
    ensures deeper { IfSome (F.held files.old) (λ m. (x : Expansion) (ds : List ItemT)
        → expansion_of (over m) source.now ≡ Ok x → Unit_ (toks x.tokens) ds → 200 < unit_depth ds → IsTooDeep result) }
    // Where a call failed, it was at the source or at a file that it includes.
    ensures reached { IfSome (F.held files.old) (λ m. FailsAtOne (over m) source.now result) }
    // Whatever is told, the unit is derived from the tokens, each of a file that has its name, which is a
    // text, and of a line from 1,
    ensures parsed { IfOk result (λ p. Derives (toks p.places.tokens) (unit p.unit)) }
    ensures numbers { IfOk result (λ p. AreBelow (length p.places.names) p.places.tokens) }
    ensures texts { IfOk result (λ p. list_all is_utf8 p.places.names ≡ true) }
    ensures lines { IfOk result (λ p. HaveLines p.places.tokens) }
    ensures source { IfOk result (λ p. p.places.source ≡ source.now) }
    // of at most 200,000 tokens and nodes, and 200 trees on a path.
    ensures limits { IfOk result IsWithin }
    // A refusal of what a source says has a code that is listed.
    ensures codes { IfErr result HasFrontCode }
    // What is missing is the source; no count falls, and `Failed` comes only where the faults rose, `Missing`
    // and code 21 only where the misses rose, and `Limit` only where the overs rose.
    ensures missing { IfErr result (MissesOnly source.now) }
    ensures faults { Caused (HasFailed result) (F.faults files.old) (F.faults files.new) }
    ensures misses { Caused (Lacks result) (F.misses files.old) (F.misses files.new) }
    ensures overs { Caused (IsOver result) (F.overs files.old) (F.overs files.new) }
{
    tokens_are_one_unit();
    let Ok(named) = Name::new(alloc, source) else {
        return Err(FrontErr::Memory);
    };
    let mut names = Vec::new(alloc);
    match expand_over(alloc, files, &named, &mut names) {
        Ok(tokens) => parse_at(
            alloc,
            Places {
                source: named,
                names: Seq::from_vec(names),
                tokens: Seq::from_vec(tokens),
            },
        ),
        Err(PrepErr::Cause(fault)) => Err(told_as(&named, names.as_slice(), fault)),
        Err(PrepErr::Memory) => Err(FrontErr::Memory),
    }
}
