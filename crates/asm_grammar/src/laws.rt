// Laws of assembly text.
ghost use Rattle.std.specs.Prelude.{◌≡◌, ◌↔◌, ℕ, List, Some, Ok, Err};
ghost use Rattle.asm_items.specs.declared.item.AsmItem.{AsmItem};
ghost use Rattle.asm_items.specs.declared.vocabulary.Operation.{Operation};
ghost use Rattle.asm_reader.specs.declared.error.AsmFault.{AsmFault};
ghost use Rattle.asm_reader.specs.declared.fault.LineFault.{LineFault};
ghost use Rattle.asm_reader.specs.declared.fault.LineFault.TheVariants.{NoSuchForm, NumberTooLarge};
ghost use Rattle.asm_reader.specs.declared.token.Token.{Token};
ghost use Rattle.quoted_text.specs.declared.quoted.Within.TheVariants.{Plain};
ghost use Rattle.asm_reader.specs.declared.value.Written.{Written};
ghost use Rattle.asm_reader.specs.Forms.{instruction};
ghost use Rattle.asm_reader.specs.Lines.{line_items};
ghost use Rattle.quoted_text.specs.Quoted.{quoted_at};
ghost use Rattle.asm_reader.specs.Reading.{read};
ghost use Rattle.asm_reader.specs.Tokens.{tokens_of};
ghost use Rattle.asm_grammar.specs.Classes.{IsNoForm, IsOutOfRange};
ghost use Rattle.asm_grammar.specs.Refused.{HasFault, IsRefused};
ghost use Rattle.asm_grammar.specs.Spelled.{IsLineText, IsQuotedBy};
ghost use Rattle.asm_grammar.specs.Texts.{IsText, SpellsItems};

/// What is read behind a quote, up to the next one, is what is spelled there.
pub fn texts_between_quotes_are_what_they_spell()
    ensures both_ways { (bytes content after : List ℕ) → (quoted_at 34 Plain bytes ≡ Some (content, after)) ↔ IsQuotedBy bytes content after }
{}

/// A mnemonic with operands is refused for a number's range exactly where no instruction takes them and one would with other numbers; and for its form
/// exactly where each operand is one of some instruction, but none takes them so, whatever the numbers.
pub fn operations_are_refused_by_class()
    ensures ranges { (operation : Operation) (xs : List Written) → (instruction operation xs ≡ Err NumberTooLarge) ↔ IsOutOfRange operation xs }
    ensures forms { (operation : Operation) (xs : List Written) → (instruction operation xs ≡ Err NoSuchForm) ↔ IsNoForm operation xs }
{}

/// Every line has tokens in one way, those that it spells; what spells none where one should stand is a stray one.
pub fn tokens_are_what_lines_spell()
    ensures both_ways { (line : List ℕ) (tokens : List Token) → (tokens_of line ≡ tokens) ↔ IsLineText line tokens }
{}

/// A line has items exactly where it spells tokens that are these items.
pub fn lines_are_what_they_spell()
    ensures both_ways { (line : List ℕ) (items : List AsmItem) → (line_items (tokens_of line) ≡ Ok items) ↔ SpellsItems line items }
{}

/// A text is read as items exactly where its lines spell them.
pub fn texts_are_what_they_spell()
    ensures both_ways { (bytes : List ℕ) (items : List AsmItem) → (read bytes ≡ Ok items) ↔ IsText bytes items }
{}

/// A line is refused with a fault exactly where it is of that class.
pub fn lines_are_refused_by_class()
    ensures both_ways { (line : List ℕ) (fault : LineFault) → (line_items (tokens_of line) ≡ Err fault) ↔ HasFault line fault }
{}

/// A text is refused with a code at a line exactly where that is its first line without items, and of the class of the code.
pub fn texts_are_refused_at_their_first_faulty_line()
    ensures both_ways { (bytes : List ℕ) (refusal : AsmFault) → (read bytes ≡ Err refusal) ↔ IsRefused bytes refusal }
{}
