// Laws of the grammar.
ghost use Rattle.std.specs.Prelude.{◌≡◌, ◌≤◌, List, length};
ghost use Rattle.c_parse.specs.Tok.{Tok};
ghost use Rattle.c_parse.specs.Units.{Unit_};
ghost use Rattle.c_tree.specs.Count.{unit_nodes};
ghost use Rattle.c_tree.specs.Tree.{ItemT};

/// Tokens are one unit at most.
pub fn tokens_are_one_unit()
    ensures one { (ts : List Tok) (a b : List ItemT) → Unit_ ts a → Unit_ ts b → a ≡ b }
{}

/// A unit has no more nodes than tokens.
pub fn units_have_few_nodes()
    ensures few { (ts : List Tok) (ds : List ItemT) → Unit_ ts ds → unit_nodes ds ≤ length ts }
{}
