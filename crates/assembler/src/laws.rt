// Laws of the definitions.
ghost use Rattle.std.specs.Prelude.{◌≡◌, ◌≤◌, ◌<◌, ◌^◌, ◌+◌, ◌++◌, ◌∷◌, ℕ, List, All, Option, None, Some, Ok, length};
ghost use Rattle.asm_items.specs.declared.item.AsmItem.{AsmItem};
ghost use Rattle.asm_items.specs.declared.item.AsmItem.TheVariants as items;
ghost use Rattle.asm_items.specs.Disassembled.{disassembled};
ghost use Rattle.asm_items.specs.Written.{written};
ghost use Rattle.asm_reader.specs.Reading.{read};
ghost use Rattle.assembler.specs.Faults.{fault_of};
ghost use Rattle.assembler.specs.Labels.{address_of};
ghost use Rattle.assembler.specs.Placed.{Placed, labels_of};
ghost use Rattle.assembler.specs.Standing.{Stands};
ghost use Rattle.assembler.specs.Sizes.{total_size};

/// The words of each item stand at the sum of the sizes of the items before it.
pub fn words_stand_at_the_sizes_before()
    ensures { (before after : List AsmItem) (item : AsmItem) (words : List ℕ) (labels : List (List ℕ × ℕ))
        → Placed (before ++ item ∷ after) words labels → Stands labels item (total_size before) words }
{}

/// A label is the address of the item after it: 0x20000000 and the sum of the sizes before it.
pub fn labels_are_addresses()
    ensures { (before after : List AsmItem) (name words : List ℕ) (labels : List (List ℕ × ℕ)) → fault_of (before ++ items.Label name ∷ after) ≡ None
        → Placed (before ++ items.Label name ∷ after) words labels → address_of labels name ≡ Some (0x20000000 + total_size before) }
{}

/// The items that words are taken apart into have no fault, and they are placed as those words again.
pub fn words_assemble_again()
    ensures faultless { (words : List ℕ) → length words ≤ 33554432 → fault_of (disassembled words) ≡ None }
    ensures again { (words again : List ℕ) (labels : List (List ℕ × ℕ)) → Placed (disassembled words) again labels → again ≡ words }
{}

/// The text of words that were taken apart reads as their items again, and what it reads as has no fault and
/// is placed as those words.
pub fn disassembly_assembles_again()
    ensures reads { (words : List ℕ) → All (λ w. w < 2 ^ 32) words → read (written (disassembled words)) ≡ Ok (disassembled words) }
    ensures assembles { (words : List ℕ) (items : List AsmItem) → All (λ w. w < 2 ^ 32) words → length words ≤ 33554432
        → read (written (disassembled words)) ≡ Ok items → (fault_of items ≡ None) × Placed items words (labels_of items) }
{}
