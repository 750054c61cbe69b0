// The words that are known at a point.
ghost use Rattle.std.specs.Prelude.{◌≡◌, ◌∷◌, [], IfOk, OnOk, map};
ghost use Rattle.mid_code.specs.Functions.{node};
ghost use Rattle.mid_fold.specs.inner.Folding.{behind, few, word_in};
ghost use Rattle.mid_fold.specs.inner.Listed.{behind_maybe, node_known, op_known};

use kit_base::Memory;
use mid_code::{Node, Op};

/// Temporaries whose word is known, the latest first.
pub(crate) type Words = Vec<(u32, u32)>;

/// The word of a temporary, where it is known.
pub(crate) fn word_in(words: &[(u32, u32)], q: u32) -> Option<u32>
    ensures { result ≡ word_in words.now q }
{
    for known in words {
        if known.0 == q {
            return Some(known.1);
        }
    }
    None
}

/// Takes out what is not known any more where t takes another cell.
fn forget(words: &mut Words, t: u32)
    ensures { words.new.items ≡ behind words.old.items t }
{
    words.retain(|known| known.0 != t);
}

/// At most fifteen of them are kept.
fn keep_few(words: &mut Words)
    ensures { words.new.items ≡ few words.old.items }
{
    words.truncate(15);
}

/// Adds what is known where t takes a word.
fn know_word(words: &mut Words, t: u32, word: u32) -> Result<(), Memory>
    ensures { OnOk result (words.new.items ≡ (t, word) ∷ few (behind words.old.items t)) }
{
    forget(words, t);
    keep_few(words);
    words.insert(0, (t, word))?;
    Ok(())
}

/// The same where there is such a temporary.
fn forget_maybe(words: &mut Words, t: Option<u32>)
    ensures { words.new.items ≡ behind_maybe words.old.items t }
{
    if let Some(t) = t {
        forget(words, t);
    }
}

fn know_op(words: &mut Words, o: &Op<u32>) -> Result<(), Memory>
    ensures { OnOk result (words.new.items ≡ op_known words.old.items o.now) }
{
    match o {
        Op::Const(t, word) => know_word(words, *t, *word)?,
        Op::Call(_, _, _) => words.clear(),
        _ => forget_maybe(words, o.target()),
    }
    Ok(())
}

/// Makes it what is known behind a node.
pub(crate) fn know_node(words: &mut Words, n: &Node<u32>) -> Result<(), Memory>
    ensures { OnOk result (words.new.items ≡ node_known words.old.items (node n.now)) }
{
    match n {
        Node::Do(o) => know_op(words, o)?,
        Node::Choose(_, _, _) => words.clear(),
        Node::Block(_) => words.clear(),
        Node::Loop(_) => words.clear(),
        Node::Leave(_) => words.clear(),
        Node::Again(_) => words.clear(),
        Node::Return(_) => words.clear(),
    }
    Ok(())
}
