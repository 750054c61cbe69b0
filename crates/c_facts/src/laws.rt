// What holds of every program.
ghost use Rattle.std.specs.Prelude.{◌≤◌, ◌≡◌, ℕ, List, Some, length, slice_get};
ghost use Rattle.c_tree.specs.Count.{unit_nodes};
ghost use Rattle.c_tree.specs.Tree.{ItemT};
ghost use Rattle.c_types.specs.Programs.{ProgramT, TFunctionT};
ghost use Rattle.c_check.specs.View.{program};
ghost use Rattle.c_check.specs.Whole.{WellTyped};
ghost use Rattle.c_facts.specs.Sound.{IsSound};
ghost use Rattle.c_types.specs.Nodes.{program_nodes};
ghost use Rattle.c_facts.specs.Bodies.{FunctionsAreBodies};
ghost use Rattle.c_facts.specs.Known.{SizedHaveSizes, KnownAreNumbered, KeepsItself, AssignedAreStored};
ghost use Rattle.c_facts.specs.Start.{StartsAreGiven};

use c_check::Program;

/// Every number of a program names what is there: a structure or union, a global, a text, a function, an object of the call, a port of the
/// table; the type of a structure names a structure, that of a union a union; every tree is typed by the rule of its node from the types of its
/// parts; structures and unions are laid out, and what is complete has words; globals and the objects of each call have types, parameters
/// their own, each mention of an object has the type of its number, and the object's size is the words of that type; each object of a call has a word
/// at least, and is made in one list of a block, `for` or `switch`, or with the call, and each list rises; names of functions are words and
/// differ, those of globals differ; and the limits are kept: 4,194,304 words of a type, 3,145,728 of all globals, 4,000,000 of all texts,
/// 1,000,000 of the variables of a function, 4,096 of a structure or union that is a value.
pub fn programs_are_sound(checked: &Program)
    ensures sound { IsSound (program checked.now) }
{}

/// A program has at most 200,000 nodes.
pub fn programs_have_few_nodes(checked: &Program)
    ensures few { program_nodes (program checked.now) ≤ 200000 }
{}

/// A typed program has at most as many nodes as the trees of its unit.
pub fn programs_add_no_nodes()
    ensures nodes { (all : List ItemT) (p : ProgramT) → WellTyped all p → program_nodes p ≤ unit_nodes all }
{}

/// A call of a function has at most 200,000 objects.
pub fn functions_have_few_locals(checked: &Program)
    ensures few { (k : ℕ) (f : TFunctionT) → slice_get (program checked.now).functions k ≡ Some f → length f.locals ≤ 200000 }
{}

/// The structures and unions of a type that a program knows are there. A complete type has at least one word and at most 4,194,304, so its
/// size may be asked for.
pub fn known_types_have_sizes()
    ensures numbered { KnownAreNumbered }
    ensures sized { SizedHaveSizes }
{}

/// A structure or union is stored, passed, returned and filled in as itself alone, nothing else becomes one, and none is cast. What is assigned
/// converts to the type of its place.
pub fn structures_become_themselves()
    ensures kept { KeepsItself }
    ensures assigned { AssignedAreStored }
{}

/// The start of a program fills the globals with constants, NULL and texts alone.
pub fn starts_are_given()
    ensures given { StartsAreGiven }
{}

/// The functions of a unit's program are its items with a body, in their order, by name and by the types that the item's result and parameters
/// name where it stands; so the k-th function is defined where the k-th of these items stands.
pub fn functions_are_bodies()
    ensures bodies { FunctionsAreBodies }
{}
