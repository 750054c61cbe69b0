// Laws of the lines of a text.
ghost use Rattle.std.specs.Prelude.{◌≡◌, ◌↔◌, ℕ, List};
ghost use Rattle.line_text.specs.Lines.{lines_of};
ghost use Rattle.text_laws.specs.Parted.{AreLines};

/// The lines of a text are those that LF or CR LF ends; a last one may lack its end, and is kept as it is.
pub fn lines_are_what_ends_part()
    ensures both_ways { (bytes : List ℕ) (lines : List (List ℕ)) → (lines_of bytes ≡ lines) ↔ AreLines bytes lines }
{}
