// Laws of the definitions.
ghost use Rattle.std.specs.Prelude.{◌≡◌, List, ℕ, Some, None, IsTrue, map};
ghost use Rattle.std.specs.FinMap.{get};
ghost use Rattle.std.specs.List.{list_all};
ghost use Rattle.kit_base.specs.Held.{Held};
ghost use Rattle.c_front.specs.Headers.{differ, guarded, header_names, headers, text_of};
ghost use Rattle.c_front.specs.Over.{over};

/// A header's name gives its text, whether or not a file has that name; any other name gives the file's
/// bytes.
pub fn headers_hide_files()
    ensures header { (m : Held) (name text : List ℕ) → text_of name ≡ Some text → get (over m) name ≡ Some text }
    ensures other { (m : Held) (name : List ℕ) → text_of name ≡ None → get (over m) name ≡ get m name }
{}

/// The headers have the eight names, no two of which are equal; each text is guarded by a name of its
/// own.
#[tactic(auto, unfolding(crate::specs::Headers::differ, crate::specs::Headers::headers, crate::specs::Headers::header_names, crate::specs::Headers::guarded))]
pub fn headers_are_guarded()
    ensures names { map (λ h. h.0) headers ≡ header_names }
    ensures distinct { IsTrue (differ header_names) }
    ensures guarded { IsTrue (list_all guarded headers) }
{}
