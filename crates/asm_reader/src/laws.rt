// Laws of the definitions.
ghost use Rattle.std.specs.Prelude.{◌≡◌, ◌↔◌, ◌<◌, ◌∷◌, ◌++◌, [], ℕ, List, Ok, length, true, false};
ghost use Rattle.std.specs.List.{list_all};
ghost use Rattle.asm_items.specs.declared.vocabulary.WordKind.TheVariants as kinds;
ghost use Rattle.asm_items.specs.Mnemonics.{mnemonic, register_name};
ghost use Rattle.asm_items.specs.Vocabulary.{is_word_byte, word_kind};
ghost use Rattle.asm_reader.specs.Tokens.{begins, is_blank, run_token, tokens_of};
ghost use Rattle.v32_isa.specs.declared.instruction.Instr.{Instr};
ghost use Rattle.asm_items.specs.Items.{Imm};
ghost use Rattle.asm_items.specs.Written.{written};
ghost use Rattle.asm_items.specs.declared.item.AsmItem.{AsmItem};
ghost use Rattle.asm_items.specs.declared.vocabulary.Operation.{Operation};
ghost use Rattle.asm_reader.specs.declared.token.Token.{Token};
ghost use Rattle.asm_reader.specs.declared.value.Written.{Written};
ghost use Rattle.asm_reader.specs.Forms.{formed};
ghost use Rattle.asm_reader.specs.declared.token.Token.TheVariants as marks;
ghost use Rattle.asm_reader.specs.Operands.{is_comma, operand};
ghost use Rattle.asm_reader.specs.Parted.{parted};
ghost use Rattle.asm_reader.specs.Readable.{AreReadable};
ghost use Rattle.asm_reader.specs.Reading.{is_newline, read};
ghost use Rattle.asm_reader.specs.Grammar.{IsForm, IsOperand, IsParted, operation_of};

/// The tokens that are read as an operand are those that spell it.
pub fn operands_are_what_tokens_spell()
    ensures both_ways { (tokens : List Token) (written : Written) → (operand tokens ≡ Ok written) ↔ IsOperand tokens written }
{}

/// The instruction that is found for a mnemonic and operands is the one whose mnemonic and operands
/// they are.
pub fn forms_are_what_is_written()
    ensures both_ways { (operation : Operation) (xs : List Written) (i : Instr Imm) → (formed operation xs ≡ Ok i) ↔ IsForm operation xs i }
{}

/// The mnemonic of an instruction stands for its operation, and the name of a register for it.
pub fn names_stand_for_what_they_name()
    ensures mnemonics { (i : Instr Imm) → word_kind (mnemonic i) ≡ kinds.Operation (operation_of i) }
    ensures registers { (r : ℕ) → r < 16 → word_kind (register_name r) ≡ kinds.Register r }
{}

/// The lines of a text are those that LF stands between, and the operands of a line are those that a
/// comma stands between.
pub fn parts_are_what_marks_part()
    ensures lines { (bytes : List ℕ) (lines : List (List ℕ)) → (parted is_newline bytes ≡ lines) ↔ IsParted is_newline 10 bytes lines }
    ensures operands { (tokens : List Token) (parts : List (List Token)) → (parted is_comma tokens ≡ parts) ↔ IsParted is_comma marks.Comma tokens parts }
{}

/// Blanks say nothing, a comment ends its line, and letters, digits and `_`, as many as stand there,
/// are one token.
pub fn words_and_numbers_are_runs_of_word_bytes()
    ensures blanks { (b : ℕ) (rest : List ℕ) → is_blank b ≡ true → tokens_of (b ∷ rest) ≡ tokens_of rest }
    ensures comments { (rest : List ℕ) → tokens_of (59 ∷ rest) ≡ [] }
    ensures runs { (run rest : List ℕ) → 0 < length run → list_all is_word_byte run ≡ true → begins is_word_byte rest ≡ false
        → tokens_of (run ++ rest) ≡ run_token run ∷ tokens_of rest }
{}

/// The written form of items that text can spell reads as those items again.
pub fn written_text_reads_again()
    ensures again { (items : List AsmItem) → AreReadable items → read (written items) ≡ Ok items }
{}
