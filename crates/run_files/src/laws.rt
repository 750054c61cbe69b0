// Laws of the lines of pads files and of answers.
ghost use Rattle.std.specs.Prelude.{◌≡◌, ◌↔◌, List, [], ℕ, Some, Ok, Err};
ghost use Rattle.line_text.specs.Lines.{lines_of};
ghost use Rattle.line_text.specs.Reading.{read_from};
ghost use Rattle.run_files.specs.Answers.{answer_of, answer_step};
ghost use Rattle.run_files.specs.AnswersFile.{IsAnswerLine, IsAnswersFile, IsFirstFaulty};
ghost use Rattle.run_files.specs.PadsFile.{IsPadsFile};
ghost use Rattle.run_files.specs.PadsReading.{pads_of};
ghost use Rattle.run_files.specs.Script.{Script};
ghost use Rattle.run_files.specs.PadsText.{EventLine, IsHeaderLine, IsEventLine, header_of, event_of};

/// What the first line is taken to say is what the grammar gives it.
pub fn headers_say_what_the_grammar_gives()
    ensures header { (line : List ℕ) (s : Script) → (header_of line ≡ Some s) ↔ IsHeaderLine line s }
{}

/// What another line is taken to say, but for its control's name, is what the grammar gives it.
pub fn events_say_what_the_grammar_gives()
    ensures event { (connected : ℕ) (line : List ℕ) (e : EventLine) → (event_of connected line ≡ Some e) ↔ IsEventLine connected line e }
{}

/// A script is read exactly where the file's lines tell one, and is that one.
pub fn pads_are_what_the_lines_tell()
    ensures pads { (bytes : List ℕ) (s : Script) → (pads_of bytes ≡ Ok s) ↔ IsPadsFile bytes s }
{}

/// A line of answers is taken to write the word that the grammar gives it.
pub fn answers_say_what_the_grammar_gives()
    ensures answer { (line : List ℕ) (word : ℕ) → (answer_of line ≡ Some word) ↔ IsAnswerLine line word }
{}

/// Answers are read exactly where each line writes one, and are those; else exactly the first line that writes none is refused, with code 111.
pub fn answers_are_what_the_lines_write()
    ensures answers { (bytes words : List ℕ) → (read_from answer_step 1 [] (lines_of bytes) ≡ Ok words) ↔ IsAnswersFile bytes words }
    ensures refused { (bytes : List ℕ) (code line : ℕ)
        → (read_from answer_step 1 [] (lines_of bytes) ≡ Err (code, line)) ↔ ((code ≡ 111) × IsFirstFaulty bytes line) }
{}
