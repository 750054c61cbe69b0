// Laws of the definitions.
ghost use Rattle.std.specs.Prelude.{ℕ, List, None, ◌≡◌, ◌≤◌, ◌++◌, length, map};
ghost use Rattle.std.specs.List.{AllZip};
ghost use Rattle.obj_mem.specs.Runs.{Meaning};
ghost use Rattle.mid_code.specs.Agrees.{AgreesWithin};
ghost use Rattle.asm_items.specs.declared.item.AsmItem.{AsmItem};
ghost use Rattle.asm_reader.specs.Readable.{AreReadable};
ghost use Rattle.assembler.specs.Faults.{fault_of};
ghost use Rattle.assembler.specs.Labels.{address_in};
ghost use Rattle.assembler.specs.Placed.{Placed};
ghost use Rattle.asm_laws.specs.Labelled.{label_of_function};
ghost use Rattle.cycle_bound.specs.declared.bound.Bound.{Bound};
ghost use Rattle.cycle_bound.specs.Forward.{AllGoOn, EndsInReturn, HasNumber};
ghost use Rattle.cycle_bound.specs.Staying.{StayWithin};
ghost use Rattle.cycle_bound.specs.Told.{IsBoundOf};

/// No function has two bounds.
pub fn functions_have_one_bound()
    ensures { (items : List AsmItem) (name : List ℕ) (a b : Bound) → IsBoundOf items name a → IsBoundOf items name b → a ≡ b }
{}

/// Items of a program without a fault that only go on, up to a return, have a number.
pub fn items_that_go_on_have_a_number()
    ensures { (items before own rest : List AsmItem) → fault_of items ≡ None → items ≡ before ++ (own ++ rest) → EndsInReturn own → AllGoOn items own
        → HasNumber items (own ++ rest) }
{}

/// Where the words of a program do what is meant, calls of its functions stay within their bounds, as far as the words do so.
pub fn calls_stay_within_bounds()
    ensures { (items : List AsmItem) (words : List ℕ) (labels : List (List ℕ × ℕ)) → fault_of items ≡ None → AreReadable items
        → Placed items words labels → length words ≤ 33554432
        → (times : ℕ) (globals : List ℕ) (meaning : Meaning) → AgreesWithin times globals meaning words
        → (names : List (List ℕ)) (bounds : List Bound) → AllZip (IsBoundOf items) names bounds
        → StayWithin globals meaning words (map (λ name. address_in labels (label_of_function name)) names) bounds }
{}
