// Functions and programs whose known words are worked out, or whose results are used again.
ghost use Rattle.std.specs.Prelude.{◌≡◌, OnOk, IfOk, map};
ghost use Rattle.mid_code.specs.Functions.{function};
ghost use Rattle.mid_code.specs.Whole.{mid};
ghost use Rattle.mid_fold.specs.FoldedFrom.{IsFoldedFrom};
ghost use Rattle.mid_fold.specs.inner.Folding.{folded_function};
ghost use Rattle.mid_fold.specs.inner.Reusing.{reused_function};

use crate::known::Words;
use crate::nodes::fold_inside;
use crate::reusing::reuse_inside;
use crate::seen::{Known, clear_known, nothing_known};
use kit_base::{Memory, Seq};
use mid_code::laws::mid_code_is_sound;
use mid_code::{Code, Function, Mid};
use std::alloc::Global;

fn fold_function(alloc: Global, words: &mut Words, f: &mut Function<u32>) -> Result<(), Memory>
    ensures { OnOk result (function f.new ≡ folded_function (function f.old)) }
{
    words.clear();
    fold_inside(alloc, words, &mut f.body)?;
    Ok(())
}

fn fold_functions(
    alloc: Global,
    words: &mut Words,
    fs: &mut Vec<Function<u32>>,
) -> Result<(), Memory>
    ensures { OnOk result (map function fs.new.items ≡ map folded_function (map function fs.old.items)) }
{
    for f in fs.iter_mut() {
        fold_function(alloc, words, f)?;
    }
    Ok(())
}

/// The code in which an operator on words that are known, in the operations right before it, is the word that it makes of them, and in which a move of
/// a known word puts the word itself. A division by 0 stays, and so does every block, loop, choice and call. The error is want of memory, and then the
/// code given is dropped.
pub fn fold_words(alloc: Global, m: Mid) -> Result<Mid, Memory>
    ensures folded { IfOk result (λ r. IsFoldedFrom (mid m) (mid r)) }
{
    mid_code_is_sound(&m);
    let of = m.into_code();
    let mut words = Vec::new(alloc);
    let mut start = of.start;
    fold_function(alloc, &mut words, &mut start)?;
    let mut functions = of.functions.into_vec();
    fold_functions(alloc, &mut words, &mut functions)?;
    Ok(Mid::new(Code {
        start,
        functions: Seq::from_vec(functions),
        globals: of.globals,
        literals: of.literals,
        main: of.main,
    }))
}

fn reuse_function(alloc: Global, known: &mut Known, f: &mut Function<u32>) -> Result<(), Memory>
    ensures { OnOk result (function f.new ≡ reused_function (function f.old)) }
{
    clear_known(known);
    reuse_inside(alloc, known, &mut f.body)?;
    Ok(())
}

fn reuse_functions(
    alloc: Global,
    known: &mut Known,
    fs: &mut Vec<Function<u32>>,
) -> Result<(), Memory>
    ensures { OnOk result (map function fs.new.items ≡ map reused_function (map function fs.old.items)) }
{
    for f in fs.iter_mut() {
        reuse_function(alloc, known, f)?;
    }
    Ok(())
}

/// The code in which an operator or a step that was made of the same operands before, in the operations right before it, is a move of the temporary that has
/// the result still. A sum or difference with a known word stays, as does a division, a comparison, a step by a known word and every block, loop, choice and
/// call. The error is want of memory, and then the code given is dropped.
pub fn reuse_results(alloc: Global, m: Mid) -> Result<Mid, Memory>
    ensures reused { IfOk result (λ r. IsFoldedFrom (mid m) (mid r)) }
{
    mid_code_is_sound(&m);
    let of = m.into_code();
    let mut known = nothing_known(alloc);
    let mut start = of.start;
    reuse_function(alloc, &mut known, &mut start)?;
    let mut functions = of.functions.into_vec();
    reuse_functions(alloc, &mut known, &mut functions)?;
    Ok(Mid::new(Code {
        start,
        functions: Seq::from_vec(functions),
        globals: of.globals,
        literals: of.literals,
        main: of.main,
    }))
}
