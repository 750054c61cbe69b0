// Laws of the texts.
ghost use Rattle.std.specs.Prelude.{◌≡◌, ◌↔◌, List, ℕ, Ok, Some};
ghost use Rattle.project_text.specs.declared.project.Project.{Project};
ghost use Rattle.project_text.specs.Entries.{Entry};
ghost use Rattle.project_text.specs.Grammar.{IsLine, entry_of};
ghost use Rattle.project_text.specs.ProjectText.{IsProject};
ghost use Rattle.project_text.specs.Reading.{project_of};

/// What a line is taken to say is what the grammar gives it.
pub fn lines_say_what_the_grammar_gives()
    ensures { (line : List ℕ) (e : Entry) → (entry_of line ≡ Some e) ↔ IsLine line e }
{}

/// A project is read exactly where the lines give one, and is that one.
pub fn projects_are_what_the_lines_give()
    ensures { (bytes : List ℕ) (p : Project) → (project_of bytes ≡ Ok p) ↔ IsProject bytes p }
{}
