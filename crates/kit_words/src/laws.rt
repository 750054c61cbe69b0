// Laws of the definitions.
ghost use Rattle.std.specs.Prelude.{ℕ, ◌≡◌, ◌∷◌, true, List, Some, is_some, option_map};
ghost use Rattle.kit_words.specs.Forms.{Form, are_as_many, are_different, created_by, form_named, name_of, read_in, words_of};
ghost use Rattle.kit_words.specs.Command.{Command, command_of, is_number_if_there, made};
ghost use Rattle.kit_words.specs.Created.{created_names, number_word, read_names};

/// The files that a command creates are pairwise different, and its number word is one.
pub fn commands_are_tested()
    ensures created { (words : List (List ℕ)) (command : Command) → command_of words ≡ Some command → are_different (created_names command) ≡ true }
    ensures number { (words : List (List ℕ)) (command : Command) → command_of words ≡ Some command → is_number_if_there (number_word command) ≡ true }
{}

/// The files that a command creates and reads are those that the table lists for its form.
pub fn commands_are_listed()
    ensures created { (name : List ℕ) (arguments : List (List ℕ)) (command : Command) → command_of (name ∷ arguments) ≡ Some command
        → option_map (λ form. created_by form arguments) (form_named name) ≡ Some (created_names command) }
    ensures read { (name : List ℕ) (arguments : List (List ℕ)) (command : Command) → command_of (name ∷ arguments) ≡ Some command
        → option_map (λ form. read_in (words_of form) arguments) (form_named name) ≡ Some (read_names command) }
{}

/// Each form of the table is found by its name, and as many words as it lists make a command.
pub fn forms_have_commands()
    ensures named { (form : Form) → form_named (name_of form) ≡ Some form }
    ensures made { (form : Form) (arguments : List (List ℕ)) → is_some (made form arguments) ≡ are_as_many (words_of form) arguments }
{}
