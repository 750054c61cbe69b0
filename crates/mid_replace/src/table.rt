// What becomes of the locals of a function.
ghost use Rattle.std.specs.Prelude.{◌≡◌, ◌<◌, ◌+◌, ◌≤◌, get_or, true};
ghost use Rattle.mid_replace.specs.inner.Tables.{plan_in, HasRoom};
ghost use Rattle.mid_replace.specs.inner.Replaced.{is_access};

use crate::fact::Fact;

/// How many temporaries a function names; which locals are held; for each local the temporary of its first word, were it held, and that of
/// one behind the last; how many words each local has; and which temporaries may hold an address of a local that is held.
#[derive(Drop)]
pub(crate) struct Table {
    pub(crate) temps: u32,
    pub(crate) held: Vec<bool>,
    pub(crate) firsts: Vec<u32>,
    pub(crate) end: u32,
    pub(crate) sizes: Vec<u32>,
    pub(crate) unsure: Vec<bool>,
}

pub(crate) fn is_held(table: &Table, local: u32) -> bool
    ensures { result ≡ (plan_in table.now).held local }
{
    let i = local as usize;
    if i < table.held.len() {
        table.held[i]
    } else {
        false
    }
}

pub(crate) fn size(table: &Table, local: u32) -> u32
    ensures { result ≡ (plan_in table.now).size local }
{
    let i = local as usize;
    if i < table.sizes.len() {
        table.sizes[i]
    } else {
        0
    }
}

fn first(table: &Table, local: u32) -> u32
    ensures { result ≡ get_or table.now.firsts.items local table.now.end }
{
    let i = local as usize;
    if i < table.firsts.len() {
        table.firsts[i]
    } else {
        table.end
    }
}

/// What is known of a temporary of which nothing is noted.
pub(crate) fn base(table: &Table, temporary: u32) -> Fact
    ensures { result ≡ (plan_in table.now).base temporary }
{
    let i = temporary as usize;
    if i < table.unsure.len() {
        if table.unsure[i] {
            Fact::Any
        } else {
            Fact::Plain
        }
    } else {
        Fact::Any
    }
}

/// Whether an address of that kind may be loaded from or stored to.
pub(crate) fn is_access(table: &Table, pointer: Fact) -> bool
    ensures { result ≡ is_access (plan_in table.now) pointer }
{
    match pointer {
        Fact::Plain => true,
        Fact::Word(_) => true,
        Fact::Place(local, offset) => is_held(table, local) && offset < size(table, local),
        Fact::Any => false,
    }
}

/// The temporary of a word of a local.
#[tactic(auto, using(crate::proofs::Tables::has_room))]
pub(crate) fn variable(table: &Table, local: u32, offset: u32) -> u32
    requires room { HasRoom table.now }
    requires access { is_access (plan_in table.now) (Fact.Place local offset) ≡ true }
    ensures { result ≡ (plan_in table.now).variable local offset }
{
    first(table, local) + offset
}
