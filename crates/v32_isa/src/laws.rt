// Laws of the definitions.
ghost use Rattle.std.specs.Prelude.{ℕ, ◌≡◌, ◌<◌, ◌≤◌, ◌↔◌, ◌++◌, ◌∷◌, List, Option, Some, option_to_list};
ghost use Rattle.v32_isa.specs.declared.instruction.Instr.{Instr};
ghost use Rattle.v32_isa.specs.Table.{Begins, Fits, spelling};
ghost use Rattle.v32_isa.specs.Decoding.{decoded};
ghost use Rattle.v32_isa.specs.State.{State};
ghost use Rattle.v32_isa.specs.Runs.{run, Extends};
ghost use Rattle.v32_isa.specs.Calls.{Link, Nested, stepped_on};

/// Decoding gives an instruction exactly where that instruction's words begin the words given.
pub fn decoding_is_inverse()
    ensures { (first : ℕ) (second : Option ℕ) (i : Instr ℕ) → (decoded first second ≡ Some i) ↔ Begins i (first ∷ option_to_list second) }
{}

/// The words of no instruction begin those of another.
pub fn no_spelling_begins_another()
    ensures { (i j : Instr ℕ) (x y : List ℕ) → Fits i → Fits j → spelling i ++ x ≡ spelling j ++ y → (i ≡ j) × (x ≡ y) }
{}

/// A run that has ended stays so; until then its events begin those of a longer run.
pub fn longer_runs_extend()
    ensures { (m n : ℕ) (s : State) (answers : List ℕ) → m ≤ n → Extends (run m s answers) (run n s answers) }
{}

/// Nested runs are nested in fewer steps.
pub fn nested_runs_are_closed()
    ensures { (m n : ℕ) (ls : List Link) (s : State) (answers : List ℕ) → m ≤ n → Nested n ls s answers → Nested m ls s answers }
{}

/// A step leaves the program as it is.
pub fn programs_stay()
    ensures { (s t : State) (xs ys : List ℕ) (a : ℕ) → stepped_on s xs ≡ Some (t, ys) → 0x20000000 ≤ a → a < 0x30000000 → t.memory a ≡ s.memory a }
{}
