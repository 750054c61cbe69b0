// What holds of the rules by themselves.
ghost use Rattle.std.specs.Prelude.{◌≡◌, ◌⊎◌, List};
ghost use Rattle.c_tree.specs.Tree.{ItemT};
ghost use Rattle.c_exprs.specs.declared.error.Fault.{Fault};
ghost use Rattle.c_check.specs.Whole.{WellTyped, FirstBroken};
ghost use Rattle.c_types.specs.Programs.{ProgramT};

/// A unit has a program or breaks a rule, never both; one program at most, and one rule first.
pub fn units_have_a_program_or_break_a_rule()
    ensures program { (all : List ItemT) (p q : ProgramT) → WellTyped all p → WellTyped all q → p ≡ q }
    ensures fault { (all : List ItemT) (f g : Fault) → FirstBroken all f → FirstBroken all g → f ≡ g }
    ensures either { (all : List ItemT) (p : ProgramT) (f : Fault) → WellTyped all p → FirstBroken all f → ⊥ }
    ensures always { (all : List ItemT) → ((p : ProgramT) × WellTyped all p) ⊎ ((f : Fault) × FirstBroken all f) }
{}
