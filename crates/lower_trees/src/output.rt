// What was lowered of a function.
ghost use Rattle.std.specs.Prelude.{◌≡◌, ◌≤◌, ◌+◌, length};
ghost use Rattle.lower_trees.specs.inner.Adding.{Takes};

use mid_code::Node;

pub(crate) type Nodes = Vec<Node<u32>>;

/// What was lowered of a function up to here: nodes, the sizes of all locals, the named ones first, and the first temporary that nothing has yet.
#[derive(Drop)]
pub(crate) struct Output {
    pub(crate) nodes: Nodes,
    pub(crate) locals: Vec<u32>,
    pub(crate) next: u32,
}

impl Output {
    /// The first local that nothing has yet.
    pub(crate) fn local(&self) -> u32
        requires few { length self.now.locals.items ≤ 1000000 }
        ensures local { result ≡ length self.now.locals.items }
    {
        self.locals.len() as u32
    }

    /// Takes so many temporaries, of which this is the first.
    pub(crate) fn take(&mut self, count: u32) -> u32
        requires few { self.old.next + count ≤ 1000000 }
        ensures first { result ≡ self.old.next }
        ensures taken { Takes self.old self.new count }
    {
        let first = self.next;
        self.next += count;
        first
    }
}
