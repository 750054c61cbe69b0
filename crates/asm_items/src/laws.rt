// Laws of the definitions.
ghost use Rattle.std.specs.Prelude.{◌≡◌, ℕ, List};
ghost use Rattle.asm_items.specs.Words.{words_of_items};
ghost use Rattle.asm_items.specs.Disassembled.{disassembled};

/// The words of the items that words are taken apart into are those words again.
pub fn words_are_given_again()
    ensures { (address : List ℕ → ℕ) (words : List ℕ) → words_of_items address (disassembled words) ≡ words }
{}
