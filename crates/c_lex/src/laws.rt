// Laws of the definitions.
ghost use Rattle.std.specs.Prelude.{◌≡◌, ◌++◌, ◌↔◌, ◌<◌, ◌≤◌, ℕ, List, Some, length};
ghost use Rattle.std.specs.List.{All};
ghost use Rattle.c_lex.specs.declared.token.Kind.{Kind};
ghost use Rattle.c_lex.specs.declared.token.Token.{Token};
ghost use Rattle.c_lex.specs.Grammar.{BeginsGap, IsSpelling};
ghost use Rattle.c_lex.specs.Gaps.{gap_len};
ghost use Rattle.c_lex.specs.Places.{IsPlaced, IsRefused};
ghost use Rattle.c_lex.specs.Spelling.{IsToken, spelling_of};
ghost use Rattle.c_lex.specs.Reading.{found, stuck, Reading, Reads};
ghost use Rattle.c_lex.specs.Found.{reading_of};

/// Every text has a reading, and only one: the relation on whole texts is the function.
pub fn texts_read_one_way()
    ensures some { (file : ℕ) (bytes : List ℕ) → Reads file bytes (reading_of file bytes) }
    ensures one { (file : ℕ) (bytes : List ℕ) (r s : Reading) → Reads file bytes r → Reads file bytes s → r ≡ s }
    ensures both_ways { (file : ℕ) (bytes : List ℕ) (r : Reading) → Reads file bytes r ↔ (r ≡ reading_of file bytes) }
{}

/// A text spells the token that the grammar says, and no other: a word, a number, a character, a text
/// or a mark.
pub fn tokens_are_what_is_spelled()
    ensures both_ways { (text : List ℕ) (kind : Kind) → (spelling_of text ≡ Some kind) ↔ IsSpelling text kind }
{}

/// The gaps are those that the grammar says.
pub fn gaps_are_what_is_spelled()
    ensures both_ways { (bytes : List ℕ) (n : ℕ) → 0 < n → (gap_len bytes ≡ n) ↔ BeginsGap bytes n }
{}

/// No gap begins where a token stands: the list of gaps and tokens is the only one.
pub fn gaps_and_tokens_are_apart()
    ensures apart { (text rest : List ℕ) (kind : Kind) → IsToken text rest kind → gap_len (text ++ rest) ≡ 0 }
{}

/// The bytes from a token's start up to its end spell it, and its line is one more than the LF bytes
/// before it. A refusal tells the line and the byte of a place in the text, and its reason what stands
/// there.
pub fn places_are_told()
    ensures tokens { (file : ℕ) (bytes : List ℕ) (tokens : List Token) → reading_of file bytes ≡ found tokens → All (IsPlaced bytes) tokens }
    ensures refusals { (file : ℕ) (bytes : List ℕ) (code line byte : ℕ) → reading_of file bytes ≡ stuck code line byte → IsRefused bytes code line byte }
{}

/// Tokens are of their file, on lines from 1, and there are at most as many as bytes.
pub fn tokens_are_of_their_file()
    ensures file { (file : ℕ) (bytes : List ℕ) (tokens : List Token) → reading_of file bytes ≡ found tokens → All (λ t. t.file ≡ file) tokens }
    ensures lines { (file : ℕ) (bytes : List ℕ) (tokens : List Token) → reading_of file bytes ≡ found tokens → All (λ t. 1 ≤ t.line) tokens }
    ensures count { (file : ℕ) (bytes : List ℕ) (tokens : List Token) → reading_of file bytes ≡ found tokens → length tokens ≤ length bytes }
{}
