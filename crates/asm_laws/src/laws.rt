// Laws of placed code and its words.
ghost use Rattle.std.specs.Prelude.{ℕ, ◌<◌, ◌≡◌, ◌++◌, ◌⊎◌, List, Option, None, length};
ghost use Rattle.v32_isa.specs.Calls.{IsNested, CallsTakeAtMost};
ghost use Rattle.asm_items.specs.declared.item.AsmItem.{AsmItem};
ghost use Rattle.assembler.specs.Faults.{fault_of};
ghost use Rattle.assembler.specs.Labels.{address_in};
ghost use Rattle.assembler.specs.Placed.{Placed};
ghost use Rattle.mid_code.specs.Placed.{PlacedT};
ghost use Rattle.mid_code.specs.Runs.{placed_runs};
ghost use Rattle.mid_code.specs.Agrees.{AgreesWithin};
ghost use Rattle.asm_laws.specs.Tables.{addresses};
ghost use Rattle.asm_laws.specs.PlacedAt.{PlacedAt};
ghost use Rattle.asm_laws.specs.Numbers.{behind, AllFit};
ghost use Rattle.asm_laws.specs.Longest.{Forbids, IsLongest};

/// The words among which placed code stands do what it means, in at most as many steps as its work and 64.
pub fn placed_code_agrees()
    ensures { (x : PlacedT) (names : List (List ℕ)) (address : List ℕ → ℕ) (enters leaves : ℕ → ℕ) (first : ℕ) (words : List ℕ)
        → PlacedAt x names address enters leaves first words → AgreesWithin 1 (addresses 0 x.code.globals) (placed_runs x) words }
{}

/// Where calls and returns are nested, a call of the function at a label takes at most as many instructions as the number of the place behind it.
pub fn calls_stay_within_numbers()
    ensures { (items : List AsmItem) (words : List ℕ) (labels : List (List ℕ × ℕ)) → fault_of items ≡ None → Placed items words labels
        → length words < 0x10000000 → AllFit (address_in labels) items → (answers : List ℕ) (card : Option (List ℕ)) (within : ℕ) (l : List ℕ) (N : ℕ)
        → IsLongest items (behind items l) N → IsNested words answers card within → CallsTakeAtMost words answers card within (address_in labels l) N }
{}

/// A place among items has a longest path, with a number of instructions, or a path from it is forbidden.
pub fn places_have_numbers_or_are_forbidden()
    ensures { (items front p : List AsmItem) → items ≡ front ++ p → ((n : ℕ) × IsLongest items p n) ⊎ Forbids items p }
{}
