// Laws of the definitions.
ghost use Rattle.std.specs.Prelude.{◌≡◌, ◌≤◌, ◌+◌, ℕ, List, Ok, drop, flat_map, true};
ghost use Rattle.std.specs.List.{AllByRecursion};
ghost use Rattle.c_lex.specs.declared.token.Kind.{Kind};
ghost use Rattle.c_lex.specs.declared.token.Token.{Token};
ghost use Rattle.c_prep.specs.Lines.{IsLine, begins, lines_of};
ghost use Rattle.c_prep.specs.Macros.{Put, Table, replaced_at, stands};
ghost use Rattle.c_prep.specs.Standing.{IsExpansion, Stand};

/// Where no limit is passed, what is put of a token of the text is what it stands for, and tokens stand
/// for one thing at most.
pub fn tokens_are_put_as_what_they_stand_for()
    ensures put { (table : Table) (t : Token) (before after : Put) → replaced_at table t before ≡ Ok after → IsExpansion table t before.tokens after.tokens }
    ensures one { (table : Table) (inside : List (List ℕ)) (kinds a b : List Kind) → Stand table inside kinds a → Stand table inside kinds b → a ≡ b }
{}

/// The limit on names that are replaced leaves room enough for names inside one another: more room
/// changes nothing.
pub fn room_for_names_is_never_short()
    ensures { (room more : ℕ) (table : Table) (t : Token) (inside : List (List ℕ)) (kind : Kind) (o : Put)
        → 1000000 ≤ room + o.replaced → room ≤ more → stands more table t inside kind o ≡ stands room table t inside kind o }
{}

/// The lines are the tokens in their order, each line goes up to the next token that begins one, and
/// each but the first begins with such a token.
pub fn lines_part_the_tokens()
    ensures whole { (tokens : List Token) → flat_map (λ line. line) (lines_of tokens) ≡ tokens }
    ensures lines { (tokens : List Token) → AllByRecursion IsLine (lines_of tokens) }
    ensures begun { (tokens : List Token) → AllByRecursion (λ line. begins line ≡ true) (drop 1 (lines_of tokens)) }
{}
