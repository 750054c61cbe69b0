// What is known of temporaries.
ghost use Rattle.std.specs.Prelude.{◌≡◌};
ghost use Rattle.mid_replace.specs.inner.Facts.{step_fact, stepped_by};
ghost use Rattle.mid_replace.specs.inner.Replaced.{is_open, is_plain, is_step, may_note};

use kit_base::wrap_add;

/// What is known of the cell of a temporary: it is no pointer to a local that is held, it is such a cell and this word, it is the address
/// of this word of this local, or nothing.
#[derive(Clone, Copy)]
pub(crate) enum Fact {
    Plain,
    Word(u32),
    Place(u32, u32),
    Any,
}

pub(crate) fn is_plain(fact: Fact) -> bool
    ensures { result ≡ is_plain fact }
{
    match fact {
        Fact::Plain => true,
        Fact::Word(_) => true,
        Fact::Place(_, _) => false,
        Fact::Any => false,
    }
}

fn is_open(base: Fact) -> bool
    ensures { result ≡ is_open base }
{
    match base {
        Fact::Plain => false,
        Fact::Word(_) => false,
        Fact::Place(_, _) => false,
        Fact::Any => true,
    }
}

/// Whether that may be noted of a temporary of which nothing more than this is known.
pub(crate) fn may_note(base: Fact, noted: Fact) -> bool
    ensures { result ≡ may_note base noted }
{
    match noted {
        Fact::Plain => true,
        Fact::Word(_) => true,
        Fact::Place(_, _) => is_open(base),
        Fact::Any => is_open(base),
    }
}

fn stepped_by(local: u32, offset: u32, by: Fact) -> Fact
    ensures { result ≡ stepped_by local offset by }
{
    match by {
        Fact::Plain => Fact::Any,
        Fact::Word(n) => Fact::Place(local, wrap_add(offset, n)),
        Fact::Place(_, _) => Fact::Any,
        Fact::Any => Fact::Any,
    }
}

/// What a step makes of a pointer.
pub(crate) fn step_fact(pointer: Fact, by: Fact) -> Fact
    ensures { result ≡ step_fact pointer by }
{
    match pointer {
        Fact::Plain => Fact::Plain,
        Fact::Word(_) => Fact::Plain,
        Fact::Place(local, offset) => stepped_by(local, offset, by),
        Fact::Any => Fact::Any,
    }
}

/// Whether such a pointer may be stepped by that.
pub(crate) fn is_step(pointer: Fact, by: Fact) -> bool
    ensures { result ≡ is_step pointer by }
{
    match pointer {
        Fact::Plain => is_plain(by),
        Fact::Word(_) => is_plain(by),
        Fact::Place(_, _) => true,
        Fact::Any => true,
    }
}
